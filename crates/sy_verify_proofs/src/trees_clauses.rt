// Queries over the integers as writers of clauses see them: they have none.
ghost use Rattle.sy_verify_proofs.specs.Trees as trees;

use std::alloc::Global;
use sy_io::Bytes;
use sy_meaning_integers::IntTheory;
use sy_query_base::Query;
use sy_terms::Want;
use sy_verify::ClauseWriter;

/// Writes no clauses: a query over the integers has none.
#[derive(Clone, Copy, Debug, PartialEq, Eq)]
pub struct NoClauses;

impl ClauseWriter<IntTheory> for NoClauses {
    ghost spells = { trees.SpellsClauses };

    ghost lacks = { trees.LacksClauses };

    fn clauses(_alloc: Global, _query: &Query<IntTheory>) -> Result<Option<Bytes>, Want> {
        Ok(None)
    }
}
