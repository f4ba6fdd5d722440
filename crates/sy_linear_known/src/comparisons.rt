// Comparisons of terms under a path.
ghost use Rattle.std.specs.Prelude.{◌≡◌, IfOk, true};
ghost use Rattle.sy_linear_known.specs.Forms.{form_is_in_range};
ghost use Rattle.sy_linear_known.specs.Sights as spec;
ghost use Rattle.sy_linear_known.specs.Fitting.{form_fits, sight_fits, all_fit};
ghost use Rattle.sy_linear_known.specs.Operations.{comparison};

use crate::arithmetic::{difference, excess, is_constant};
use crate::facts::Facts;
use crate::form::{Form, FormEnd};
use crate::path::Test;
use crate::sight::{Node, Sight};
use std::alloc::{AllocError, Global};
use sy_seq::Want;

/// A comparison of two whole numbers.
#[derive(Clone, Copy)]
pub(crate) enum Comparison {
    AtMost,
    Less,
    AtLeast,
    Greater,
    Equal,
    Distinct,
}

/// Whether the path has the form, or it is a constant that isn't negative.
fn known_true(path: &Facts<'_>, form: &Form) -> bool
    ensures { result ≡ spec.known_true path.now form.now }
{
    is_constant(form) && form.constant >= 0 || path.has_form(form)
}

/// Whether the path has the form's negation, or it is a constant below 0.
fn known_false(path: &Facts<'_>, form: &Form, negation: &Form) -> bool
    ensures { result ≡ spec.known_false path.now form.now negation.now }
{
    is_constant(form) && form.constant < 0 || path.has_form(negation)
}

/// What the path tells of the form's being at least 0.
fn answered(path: &Facts<'_>, form: Form, negation: &Form) -> Node
    ensures { result ≡ spec.answered path.now form negation.now }
{
    if known_true(path, &form) {
        Node::told(Sight::Settled(true))
    } else if known_false(path, &form, negation) {
        Node::told(Sight::Settled(false))
    } else {
        Node {
            sight: Sight::Open,
            unknown: Some(Test::AtLeast(form)),
            fits: true,
        }
    }
}

/// The test whether the form is at least 0, for which its negation is built too.
fn tested(alloc: Global, path: &Facts<'_>, form: Option<Form>) -> Result<Node, Want>
    requires { form_fits form ≡ true }
    ensures { IfOk result (λ n. n ≡ spec.tested path.now form) }
{
    let Some(form) = form else {
        return Ok(Node::unfit());
    };
    match form.negation(alloc) {
        Ok(negation) => Ok(answered(path, form, &negation)),
        Err(FormEnd::OutOfRange) => Ok(Node::unfit()),
        Err(FormEnd::Want) => Err(AllocError),
    }
}

/// Whether the first is at most the second.
fn at_most(alloc: Global, path: &Facts<'_>, f: &Form, g: &Form) -> Result<Node, Want>
    requires left { form_is_in_range f.now ≡ true }
    requires right { form_is_in_range g.now ≡ true }
    ensures { IfOk result (λ n. n ≡ spec.at_most path.now f.now g.now) }
{
    let form = difference(alloc, g, f)?;
    tested(alloc, path, form)
}

/// Whether the first is less than the second.
fn less(alloc: Global, path: &Facts<'_>, f: &Form, g: &Form) -> Result<Node, Want>
    requires left { form_is_in_range f.now ≡ true }
    requires right { form_is_in_range g.now ≡ true }
    ensures { IfOk result (λ n. n ≡ spec.less path.now f.now g.now) }
{
    let form = excess(alloc, g, f)?;
    tested(alloc, path, form)
}

/// Whether the two are equal.
fn equal(alloc: Global, path: &Facts<'_>, f: &Form, g: &Form) -> Result<Node, Want>
    requires left { form_is_in_range f.now ≡ true }
    requires right { form_is_in_range g.now ≡ true }
    ensures { IfOk result (λ n. n ≡ spec.forms_equal path.now f.now g.now) }
{
    let first = at_most(alloc, path, g, f)?;
    match at_most(alloc, path, f, g) {
        Ok(second) => Ok(first.both(second)),
        Err(want) => {
            drop(first);
            Err(want)
        }
    }
}

/// Whether the two differ.
fn distinct(alloc: Global, path: &Facts<'_>, f: &Form, g: &Form) -> Result<Node, Want>
    requires left { form_is_in_range f.now ≡ true }
    requires right { form_is_in_range g.now ≡ true }
    ensures { IfOk result (λ n. n ≡ spec.distinct path.now f.now g.now) }
{
    let node = equal(alloc, path, f, g)?;
    Ok(node.turned())
}

impl Comparison {
    /// The comparison of two forms.
    fn compare(self, alloc: Global, path: &Facts<'_>, f: &Form, g: &Form) -> Result<Node, Want>
        requires left { form_is_in_range f.now ≡ true }
        requires right { form_is_in_range g.now ≡ true }
        ensures { IfOk result (λ n. n ≡ comparison self path.now f.now g.now) }
    {
        match self {
            Comparison::AtMost => at_most(alloc, path, f, g),
            Comparison::Less => less(alloc, path, f, g),
            Comparison::AtLeast => at_most(alloc, path, g, f),
            Comparison::Greater => less(alloc, path, g, f),
            Comparison::Equal => equal(alloc, path, f, g),
            Comparison::Distinct => distinct(alloc, path, f, g),
        }
    }

    /// The comparison of two terms.
    fn compared(
        self,
        alloc: Global,
        path: &Facts<'_>,
        first: &Sight,
        second: &Sight,
    ) -> Result<Node, Want>
        requires left { sight_fits first.now ≡ true }
        requires right { sight_fits second.now ≡ true }
        ensures { IfOk result (λ n. n ≡ spec.compared (comparison self path.now) first.now second.now) }
    {
        match (first, second) {
            (Sight::Linear(f), Sight::Linear(g)) => self.compare(alloc, path, f, g),
            _ => Ok(Node::told(Sight::Open)),
        }
    }

    /// The comparison of two terms, after those before.
    fn joined(
        self,
        alloc: Global,
        path: &Facts<'_>,
        before: Node,
        first: &Sight,
        second: &Sight,
    ) -> Result<Node, Want>
        requires left { sight_fits first.now ≡ true }
        requires right { sight_fits second.now ≡ true }
        ensures { IfOk result (λ n.
            n ≡ spec.both_nodes before (spec.compared (comparison self path.now) first.now second.now)) }
    {
        match self.compared(alloc, path, first, second) {
            Ok(next) => Ok(before.both(next)),
            Err(want) => {
                drop(before);
                Err(want)
            }
        }
    }

    /// The comparison of each term with the one after it.
    pub(crate) fn in_row(
        self,
        alloc: Global,
        path: &Facts<'_>,
        sights: &[Sight],
    ) -> Result<Node, Want>
        requires { all_fit sights.now ≡ true }
        ensures { IfOk result (λ n. n ≡ spec.neighbours_in_row (comparison self path.now) spec.none_yet sights.now) }
    {
        let mut node = Node::told(Sight::Settled(true));
        let mut left = sights;
        while let [first, second, ..] = left {
            node = self.joined(alloc, path, node, first, second)?;
            left = &left[1..];
        }
        Ok(node)
    }

    /// The comparison of a term with each of the others, after those before.
    fn with_each(
        self,
        alloc: Global,
        path: &Facts<'_>,
        before: Node,
        first: &Sight,
        others: &[Sight],
    ) -> Result<Node, Want>
        requires first { sight_fits first.now ≡ true }
        requires others { all_fit others.now ≡ true }
        ensures { IfOk result (λ n. n ≡ spec.with_each (comparison self path.now) before first.now others.now) }
    {
        let mut node = before;
        for other in others {
            node = self.joined(alloc, path, node, first, other)?;
        }
        Ok(node)
    }

    /// The comparison of each pair of terms.
    pub(crate) fn in_pairs(
        self,
        alloc: Global,
        path: &Facts<'_>,
        sights: &[Sight],
    ) -> Result<Node, Want>
        requires { all_fit sights.now ≡ true }
        ensures { IfOk result (λ n. n ≡ spec.in_pairs (comparison self path.now) spec.none_yet sights.now) }
    {
        let mut node = Node::told(Sight::Settled(true));
        let mut left = sights;
        while let Some((first, rest)) = left.split_first() {
            node = self.with_each(alloc, path, node, first, rest)?;
            left = rest;
        }
        Ok(node)
    }
}
