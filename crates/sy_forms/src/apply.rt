// Heads at arguments.
ghost use Rattle.std.specs.Prelude.{◌≡◌, OnOk};
ghost use Rattle.sy_terms.specs.Fitting as fitting;
ghost use Rattle.sy_forms_items.specs.Meant.{typed_of};
ghost use Rattle.sy_forms.specs.Gathered.{several_of};
ghost use Rattle.sy_forms_items.specs.Operators as operators;
ghost use Rattle.sy_forms_items.specs.Phrases as phrases;
ghost use Rattle.sy_forms_items.specs.Readings.{ReadingGives};
ghost use Rattle.sy_forms.specs.Heads.{head_in};
ghost use Rattle.sy_forms.specs.Terms as spec;

use crate::head::Head;
use std::alloc::Global;
use sy_forms_items::{Phrases, ReadEnd, Typed, at_count, invocation, operation, same_sorts};
use sy_forms_linear::is_linear;
use sy_scope_causes::Cause;
use sy_terms::{Op, Seq, Sort, Sorted, Theory, Want};
use sy_terms_operators::operator_sort;
use sy_text_items::Place;

/// Phrases with their sorts.
#[derive(Drop)]
pub(crate) struct Several<T: Theory> {
    pub(crate) phrases: Phrases<T>,
    pub(crate) sorts: Seq<Sort>,
}

impl<T: Theory> Several<T> {
    /// None. It takes no memory.
    pub(crate) fn new(alloc: Global) -> Self
        ensures { several_of T.denotes result ≡ phrases.no_terms }
    {
        Several {
            phrases: Phrases::new(alloc),
            sorts: Seq::new(alloc),
        }
    }

    /// Appends the phrase.
    pub(crate) fn push(&mut self, last: Typed<T>) -> Result<(), Want>
        ensures { OnOk result (several_of T.denotes self.new ≡
            phrases.behind (several_of T.denotes self.old) (typed_of T.denotes last)) }
    {
        self.phrases.push(last.phrase)?;
        self.sorts.push(last.sort)?;
        Ok(())
    }
}

/// An operator at arguments.
fn operator_term<T: Theory>(
    constants: &[bool],
    divisors: &[bool],
    place: Place,
    operator: Op,
    arguments: Several<T>,
) -> Result<Typed<T>, ReadEnd>
    ensures { ReadingGives (typed_of T.denotes) result
        (spec.operator_read constants.now divisors.now place operator (several_of T.denotes arguments)) }
{
    match operator_sort(&operator, arguments.sorts.as_slice()) {
        Sorted::Is(sort) => {
            if is_linear(constants, divisors, &operator, arguments.phrases.as_slice()) {
                Ok(operation(operator, arguments.phrases, sort))
            } else {
                Err(ReadEnd::Refused(place, Cause::Nonlinear))
            }
        }
        Sorted::Mismatch => Err(ReadEnd::Refused(place, Cause::SortMismatch)),
        Sorted::BadWidth => Err(ReadEnd::Refused(place, Cause::Width)),
    }
}

/// A head at arguments.
#[tactic(auto, unfolding(crate::specs::Terms::head_applied))]
pub(crate) fn applied<T: Theory>(
    constants: &[bool],
    divisors: &[bool],
    place: Place,
    head: Head<'_>,
    arguments: Several<T>,
) -> Result<Typed<T>, ReadEnd>
    ensures { ReadingGives (typed_of T.denotes) result
        (spec.head_applied constants.now divisors.now place (head_in head.entry) (several_of T.denotes arguments)) }
{
    match head {
        Head::Operator(operator) => {
            let operator = at_count(arguments.sorts.len(), operator);
            operator_term(constants, divisors, place, operator, arguments)
        }
        Head::Function(function, takes, gives) => {
            if same_sorts(arguments.sorts.as_slice(), takes) {
                Ok(invocation(function, arguments.phrases, gives))
            } else {
                Err(ReadEnd::Refused(place, Cause::SortMismatch))
            }
        }
    }
}
