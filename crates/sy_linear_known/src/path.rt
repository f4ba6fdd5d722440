// Paths: the facts that a search has taken for granted.
ghost use Rattle.std.specs.Prelude.{◌≡◌};
ghost use Rattle.sy_linear_known.specs.Paths.{is_form, has_form, given};

use crate::form::Form;
use sy_seq::Seq;

/// A question about an assignment.
#[derive(Drop)]
pub enum Test {
    /// Whether the form is at least 0.
    AtLeast(Form),
    /// Whether the variable of this number, of sort `Bool`, is true.
    Holds(u32),
}

/// A fact about an assignment.
#[derive(Drop)]
pub enum Fact {
    /// The form is at least 0.
    AtLeast(Form),
    /// The variable of this number has this truth value.
    Is(u32, bool),
}

/// A list of facts.
#[derive(Drop)]
pub struct Path {
    pub facts: Seq<Fact>,
}

/// Whether the fact is that the form is at least 0.
pub(crate) fn is_form(form: &Form, fact: &Fact) -> bool
    ensures { result ≡ is_form form.now fact.now }
{
    match fact {
        Fact::AtLeast(other) => form.is_same(other),
        Fact::Is(_, _) => false,
    }
}

/// Whether one of the facts is that the form is at least 0.
pub(crate) fn has_form(form: &Form, facts: &[Fact]) -> bool
    ensures { result ≡ has_form form.now facts.now }
{
    facts.iter().any(|fact| is_form(form, fact))
}

/// The truth value that the first fact on the variable gives.
pub fn given(variable: u32, facts: &[Fact]) -> Option<bool>
    ensures { result ≡ given variable facts.now }
{
    let mut left = facts;
    while let Some((first, rest)) = left.split_first() {
        if let Fact::Is(other, truth) = first
            && *other == variable
        {
            return Some(*truth);
        }
        left = rest;
    }
    None
}
