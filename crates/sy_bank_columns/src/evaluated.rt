// Rows of whole terms.
ghost use Rattle.std.specs.Prelude.{◌≡◌, IfOk, IfErr, map};
ghost use Rattle.sy_terms.specs.Denoted.{vals_of, expr_of};
ghost use Rattle.sy_terms.specs.Meaning.{functions};
ghost use Rattle.sy_terms.specs.Definitions.{DefinitionsFit, scope_of, bodies};
ghost use Rattle.sy_bank_level.specs.Rows.{IsLostAt};
ghost use Rattle.sy_bank_level.specs.Columns.{FitsAt, HasRow};
ghost use Rattle.sy_bank_level.specs.Chosen.{ArePoints};
ghost use Rattle.sy_bank_columns.specs.Found.{WhereLost};

use crate::ends::{RowEnd, lost_at};
use std::alloc::Global;
use sy_meaning::{Eval, evaluate};
use sy_terms::{Defs, Term, Theory, Value, Values};

/// The row of the term, which is evaluated at each point. `Lost` exactly where it isn't computable at the point of the
/// number that it carries.
pub fn term_row<T: Theory>(
    alloc: Global,
    defs: &Defs<T>,
    points: &[Values<T>],
    term: &Term<T>,
) -> Result<Vec<Value<T::Num>>, RowEnd>
    requires definitions { DefinitionsFit T.owned T.denotes defs.now }
    requires points { ArePoints (map (vals_of T.denotes) points.now) }
    requires fits { FitsAt (scope_of T.owned defs.now)
        (map (vals_of T.denotes) points.now) (expr_of T.denotes term.now) }
    ensures ok { IfOk result (λ row. HasRow (scope_of T.owned defs.now) (functions (bodies T.denotes defs.now))
        (map (vals_of T.denotes) points.now) (expr_of T.denotes term.now) (vals_of T.denotes row.items)) }
    ensures lost { IfErr result (λ end. WhereLost end (IsLostAt (functions (bodies T.denotes defs.now))
        (map (vals_of T.denotes) points.now) (expr_of T.denotes term.now))) }
{
    let mut row = Vec::with_capacity(alloc, points.len())?;
    for number in 0..points.len() {
        match evaluate(alloc, defs, points[number].as_slice(), term) {
            Ok(value) => row.push(value)?,
            Err(Eval::Range) => return Err(lost_at(number)),
            Err(Eval::Want) => return Err(RowEnd::Want),
        }
    }
    Ok(row)
}
