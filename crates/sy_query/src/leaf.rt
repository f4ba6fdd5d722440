// Constants, variables and applications of a query.
ghost use Rattle.std.specs.Prelude.{◌≡◌, ◌<◌, ◌+◌, ◌^◌, true, length, IfOk, OnErr};
ghost use Rattle.sy_terms.specs.Denoted.{val_of, expr_of, exprs_of};
ghost use Rattle.sy_terms.specs.Expr.{Constant, Variable};
ghost use Rattle.sy_terms.specs.Theories.{valid};
ghost use Rattle.sy_query_base.specs.Weights as spec;
ghost use Rattle.sy_query_base.specs.Weights.{query_scope};
ghost use Rattle.sy_query.specs.Placing.{TermIsBuilt, OperatorHasSort, ApplicationIsBuilt, applied_weight};

use crate::built::Built;
use crate::room::Room;
use crate::weight::{operator_weight, sort_weight};
use sy_terms::{Op, Sort, Sorted, Term, Terms, Theory, Value};
use sy_terms_operators::operator_sort;

/// A term of a query, with its sort.
#[derive(Drop)]
pub(crate) struct Placed<T: Theory> {
    pub term: Term<T>,
    pub sort: Sort,
}

/// Terms of a query, with their sorts.
#[derive(Drop)]
pub(crate) struct AllPlaced<T: Theory> {
    pub terms: Terms<T>,
    pub sorts: Vec<Sort>,
}

/// A constant.
pub(crate) fn constant<T: Theory>(value: Value<T::Num>, room: &mut Room) -> Result<Placed<T>, Built>
    requires { valid (val_of T.denotes value) ≡ true }
    ensures ok { IfOk result (λ p. TermIsBuilt (query_scope T.owned) room.old.sorts.items
        (Constant (val_of T.denotes value)) room.old.left room.new.left (expr_of T.denotes p.term) p.sort) }
    ensures kept { room.new.sorts ≡ room.old.sorts }
    ensures heavy { OnErr result (room.old.left.weight <
        spec.weight (query_scope T.owned) room.old.sorts.items (Constant (val_of T.denotes value))) }
{
    let sort = T::value_sort(&value);
    room.take(sort_weight(sort))?;
    Ok(Placed {
        term: Term::Const(value),
        sort,
    })
}

/// The variable at a position of the list of a term that begins at position `first` of the list in force.
pub(crate) fn variable<T: Theory>(
    first: usize,
    position: u32,
    room: &mut Room,
) -> Result<Placed<T>, Built>
    requires within { first + position < length room.now.sorts.items }
    ensures ok { IfOk result (λ p. TermIsBuilt (query_scope T.owned) room.old.sorts.items
        (Variable (first + position)) room.old.left room.new.left (expr_of T.denotes p.term) p.sort) }
    ensures kept { room.new.sorts ≡ room.old.sorts }
    ensures heavy { OnErr result (room.old.left.weight <
        spec.weight (query_scope T.owned) room.old.sorts.items (Variable (first + position))) }
{
    let place = first + position as usize;
    let sort = room.sorts[place];
    room.take(sort_weight(sort))?;
    Ok(Placed {
        term: Term::Var(room.position(place)),
        sort,
    })
}

/// An operator at the found terms, for which it has a value.
pub(crate) fn apply<T: Theory>(
    operator: &Op,
    found: AllPlaced<T>,
    room: &mut Room,
) -> Result<Placed<T>, Built>
    requires arguments { length found.terms.items.items < 2 ^ 32 }
    requires sorted { OperatorHasSort operator.now found.sorts.items }
    ensures ok { IfOk result (λ p. ApplicationIsBuilt operator.now (exprs_of T.denotes found.terms.items.items)
        found.sorts.items room.old.left room.new.left (expr_of T.denotes p.term) p.sort) }
    ensures kept { room.new.sorts ≡ room.old.sorts }
    ensures heavy { OnErr result (room.old.left.weight <
        applied_weight operator.now (exprs_of T.denotes found.terms.items.items) found.sorts.items) }
{
    let AllPlaced { terms, sorts } = found;
    let Sorted::Is(sort) = operator_sort(operator, sorts.as_slice()) else {
        unreachable!();
    };
    room.take(operator_weight(operator, terms.len() as u64, sort_weight(sort)))?;
    Ok(Placed {
        term: Term::App(*operator, terms),
        sort,
    })
}
