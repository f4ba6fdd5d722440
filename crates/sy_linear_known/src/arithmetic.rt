// Forms of sums, differences and products.
ghost use Rattle.std.specs.Prelude.{◌≡◌, ◌∷◌, IfOk, IsErrOf, true, false};
ghost use Rattle.sy_linear_known.specs.declared.form.Form.{Form as FormOf};
ghost use Rattle.sy_linear_known.specs.Forms.{form_is_in_range, is_constant_form};
ghost use Rattle.sy_linear_known.specs.Sights as spec;
ghost use Rattle.sy_linear_known.specs.Fitting.{form_fits, sight_fits, all_fit};
ghost use Rattle.sy_linear_known.specs.Operations.{operation_result};

use crate::form::{Form, FormEnd};
use crate::sight::{Node, Sight};
use std::alloc::{AllocError, Global};
use sy_seq::Want;

/// An operation on two whole numbers.
#[derive(Clone, Copy)]
pub(crate) enum Operation {
    Sum,
    Difference,
    Product,
}

/// The form that was made; none where it doesn't fit.
fn fitting(made: Result<Form, FormEnd>) -> Result<Option<Form>, Want>
    ensures ok { (f : FormOf) → IfOk made (λ g. g ≡ f) → IfOk made (λ g. form_is_in_range g ≡ true) →
        (IsErrOf made FormEnd.OutOfRange → form_is_in_range f ≡ false) → IfOk result (λ form. form ≡ spec.built f) }
    ensures fits { IfOk made (λ g. form_is_in_range g ≡ true) → IfOk result (λ form. form_fits form ≡ true) }
{
    match made {
        Ok(form) => Ok(Some(form)),
        Err(FormEnd::OutOfRange) => Ok(None),
        Err(FormEnd::Want) => Err(AllocError),
    }
}

/// The sum; none where it doesn't fit.
pub(crate) fn sum(alloc: Global, f: &Form, g: &Form) -> Result<Option<Form>, Want>
    requires left { form_is_in_range f.now ≡ true }
    requires right { form_is_in_range g.now ≡ true }
    ensures ok { IfOk result (λ form. form ≡ spec.form_sum f.now g.now) }
    ensures fits { IfOk result (λ form. form_fits form ≡ true) }
{
    fitting(f.plus(alloc, g))
}

/// The multiple; none where it doesn't fit.
pub(crate) fn multiple(alloc: Global, factor: i128, f: &Form) -> Result<Option<Form>, Want>
    requires { form_is_in_range f.now ≡ true }
    ensures ok { IfOk result (λ form. form ≡ spec.form_multiple factor f.now) }
    ensures fits { IfOk result (λ form. form_fits form ≡ true) }
{
    fitting(f.times(alloc, factor))
}

/// The difference; none where it doesn't fit.
pub(crate) fn difference(alloc: Global, f: &Form, g: &Form) -> Result<Option<Form>, Want>
    requires left { form_is_in_range f.now ≡ true }
    requires right { form_is_in_range g.now ≡ true }
    ensures ok { IfOk result (λ form. form ≡ spec.form_difference f.now g.now) }
    ensures fits { IfOk result (λ form. form_fits form ≡ true) }
{
    fitting(f.minus(alloc, g))
}

/// The form that is at least 0 exactly where the first is above the second; none where it doesn't fit.
pub(crate) fn excess(alloc: Global, f: &Form, g: &Form) -> Result<Option<Form>, Want>
    requires left { form_is_in_range f.now ≡ true }
    requires right { form_is_in_range g.now ≡ true }
    ensures ok { IfOk result (λ form. form ≡ spec.excess f.now g.now) }
    ensures fits { IfOk result (λ form. form_fits form ≡ true) }
{
    fitting(f.above(alloc, g))
}

/// Whether no variable has a coefficient.
pub(crate) fn is_constant(f: &Form) -> bool
    ensures { result ≡ is_constant_form f.now }
{
    f.coefs.len() == 0
}

/// The product, one factor of which is constant; none where it doesn't fit or both factors vary.
pub(crate) fn product(alloc: Global, f: &Form, g: &Form) -> Result<Option<Form>, Want>
    requires left { form_is_in_range f.now ≡ true }
    requires right { form_is_in_range g.now ≡ true }
    ensures ok { IfOk result (λ form. form ≡ spec.form_product f.now g.now) }
    ensures fits { IfOk result (λ form. form_fits form ≡ true) }
{
    if is_constant(f) {
        multiple(alloc, f.constant, g)
    } else if is_constant(g) {
        multiple(alloc, g.constant, f)
    } else {
        Ok(None)
    }
}

impl Operation {
    /// The operation on two forms; none where it doesn't fit.
    fn apply(self, alloc: Global, f: &Form, g: &Form) -> Result<Option<Form>, Want>
        requires left { form_is_in_range f.now ≡ true }
        requires right { form_is_in_range g.now ≡ true }
        ensures ok { IfOk result (λ form. form ≡ operation_result self f.now g.now) }
        ensures fits { IfOk result (λ form. form_fits form ≡ true) }
    {
        match self {
            Operation::Sum => sum(alloc, f, g),
            Operation::Difference => difference(alloc, f, g),
            Operation::Product => product(alloc, f, g),
        }
    }

    /// The operation on what is told of two terms.
    fn combined(self, alloc: Global, node: &Node, sight: &Sight) -> Result<Node, Want>
        requires node { sight_fits node.now.sight ≡ true }
        requires sight { sight_fits sight.now ≡ true }
        ensures { IfOk result (λ n. n ≡ spec.sights_combined (operation_result self) node.now sight.now) }
    {
        match (&node.sight, sight) {
            (Sight::Linear(f), Sight::Linear(g)) => {
                let form = self.apply(alloc, f, g)?;
                Ok(Node::of_form(form))
            }
            _ => Ok(Node {
                sight: Sight::Open,
                unknown: None,
                fits: node.fits,
            }),
        }
    }

    /// The same, of which the first is let go.
    fn continued(self, alloc: Global, node: Node, sight: &Sight) -> Result<Node, Want>
        requires node { sight_fits node.sight ≡ true }
        requires sight { sight_fits sight.now ≡ true }
        ensures { IfOk result (λ n. n ≡ spec.sights_combined (operation_result self) node sight.now) }
    {
        let next = self.combined(alloc, &node, sight);
        drop(node);
        next
    }

    /// The operation taken from the left over what is told of terms.
    pub(crate) fn folded(self, alloc: Global, sights: &[Sight]) -> Result<Node, Want>
        requires { all_fit sights.now ≡ true }
        ensures { IfOk result (λ n. n ≡ spec.sights_folded (operation_result self) sights.now) }
    {
        let Some((first, rest)) = sights.split_first() else {
            return Ok(Node::told(Sight::Open));
        };
        let mut node = Node::told(first.copy(alloc)?);
        for sight in rest {
            node = self.continued(alloc, node, sight)?;
        }
        Ok(node)
    }
}

/// What is told of the opposite of a number.
pub(crate) fn negated(alloc: Global, sights: &[Sight]) -> Result<Node, Want>
    requires { all_fit sights.now ≡ true }
    ensures { IfOk result (λ n. n ≡ spec.truth_negated sights.now) }
{
    match sights {
        [Sight::Linear(f)] => {
            let form = multiple(alloc, -1, f)?;
            Ok(Node::of_form(form))
        }
        _ => Ok(Node::told(Sight::Open)),
    }
}

/// What is told of the branch that a known condition chooses.
pub(crate) fn chosen(alloc: Global, sights: &[Sight]) -> Result<Node, Want>
    ensures { IfOk result (λ n. n ≡ spec.chosen sights.now) }
{
    match sights {
        [Sight::Settled(true), first, _] => {
            let sight = first.copy(alloc)?;
            Ok(Node::told(sight))
        }
        [Sight::Settled(false), _, second] => {
            let sight = second.copy(alloc)?;
            Ok(Node::told(sight))
        }
        _ => Ok(Node::told(Sight::Open)),
    }
}
