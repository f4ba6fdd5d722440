// Clauses of queries as text.
use std::alloc::Global;
use sy_io::Bytes;
use sy_query_base::Query;
use sy_terms::{Theory, Want};

/// Writes the clauses of a theory's queries.
pub trait ClauseWriter<T: Theory> {
    ghost use Rattle.std.specs.Prelude.{ℕ, List, IfOk, MatchOption};
    ghost use Rattle.sy_query_base.specs.Asked.{Query, query_of, QueryFits};

    /// The text spells clauses that say what the query says.
    ghost spells: { Query → List ℕ → Type 0 };

    /// The query has no clauses.
    ghost lacks: { Query → Type 0 };

    /// The text of clauses of the query; `None` where it has none.
    fn clauses(alloc: Global, query: &Query<T>) -> Result<Option<Bytes>, Want>
        requires { QueryFits T.owned T.numeric (query_of T.denotes query.now) }
        ensures { IfOk result (λ found. MatchOption found (lacks (query_of T.denotes query.now))
            (spells (query_of T.denotes query.now))) };
}
