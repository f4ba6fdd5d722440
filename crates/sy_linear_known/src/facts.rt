// The facts of a path, with what finds their forms.
ghost use Rattle.std.specs.Prelude.{ℕ, ◌≡◌, true, IsSome, IfOk, OnOk, nat_eq};
ghost use Rattle.std.specs.HashMap.{get};
ghost use Rattle.sy_linear_known.specs.Keyed.{IsKeyed, EachIsKeyed};
ghost use Rattle.sy_linear_known.specs.Paths as spec;

use crate::form::Form;
use crate::key::form_key;
use crate::path::{Fact, has_form, is_form};
use std::alloc::Global;
use std::collections::HashMap;
use std::marker::Model;
use sy_seq::Want;

/// The place for the key.
fn place_for(places: &HashMap<u64, usize>, key: u64) -> Option<usize>
    ensures { result ≡ get nat_eq places.now key }
{
    places.get(&key).copied()
}

/// Notes the place of the fact by the key of its form, where it is on one.
fn note(places: &mut HashMap<u64, usize>, fact: &Fact, place: usize) -> Result<(), Want>
    ensures keyed { OnOk result (IsKeyed (get nat_eq places.new) fact.now) }
    ensures kept { OnOk result ((key : ℕ) → IsSome (get nat_eq places.old key) → IsSome (get nat_eq places.new key)) }
{
    if let Fact::AtLeast(form) = fact {
        places.insert(form_key(form), place)?;
    }
    Ok(())
}

/// For the key of each form the place of the last fact that has it.
fn places_of(alloc: Global, facts: &[Fact]) -> Result<HashMap<u64, usize>, Want>
    ensures { IfOk result (λ places. EachIsKeyed (get nat_eq places) facts.now) }
{
    let mut places = HashMap::new(alloc);
    let mut place = 0usize;
    for fact in facts {
        note(&mut places, fact, place)?;
        place = place.saturating_add(1);
    }
    Ok(places)
}

/// Whether the fact at this place is that the form is at least 0.
fn is_at(form: &Form, facts: &[Fact], place: usize) -> bool
    ensures { result ≡ true → spec.has_form form.now facts.now ≡ true }
{
    match facts.get(place) {
        Some(fact) => is_form(form, fact),
        None => false,
    }
}

/// Whether one of the facts is that the form is at least 0. The one at this place is looked at first.
fn has_form_from(form: &Form, facts: &[Fact], place: usize) -> bool
    ensures { result ≡ spec.has_form form.now facts.now }
{
    is_at(form, facts, place) || has_form(form, facts)
}

/// The facts of a path. Contracts see their list.
#[derive(Drop)]
pub(crate) struct Facts<'a> {
    all: &'a [Fact],
    /// For the key of each form the place of the last fact that has it.
    places: HashMap<u64, usize>,
}

impl<'a> Model for Facts<'a> {
    ghost use Rattle.std.specs.Prelude.{List, nat_eq};
    ghost use Rattle.std.specs.HashMap.{get};
    ghost use Rattle.sy_linear_known.specs.declared.path.Fact.{Fact};
    ghost use Rattle.sy_linear_known.specs.Keyed.{EachIsKeyed};

    ghost Value = { List Fact };

    ghost view = { λ f. f.all.now };

    ghost invariant = { λ f. EachIsKeyed (get nat_eq f.places) f.all.now };
}

impl<'a> Facts<'a> {
    /// The facts, ready to be found.
    pub(crate) fn new(alloc: Global, all: &'a [Fact]) -> Result<Facts<'a>, Want>
        ensures { IfOk result (λ facts. facts ≡ all.now) }
    {
        let places = places_of(alloc, all)?;
        Ok(Facts { all, places })
    }

    /// Whether one of the facts is that the form is at least 0. All are looked at only where another form has its key.
    pub(crate) fn has_form(&self, form: &Form) -> bool
        ensures { result ≡ spec.has_form form.now self.now }
    {
        let Some(place) = place_for(&self.places, form_key(form)) else {
            return false;
        };
        has_form_from(form, self.all, place)
    }
}
