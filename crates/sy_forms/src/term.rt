// Terms.
ghost use Rattle.std.specs.Prelude.{◌≡◌, Ok, OnOk, take};
ghost use Rattle.sy_text_items.specs.Views.{item_of};
ghost use Rattle.sy_forms.specs.Gathered.{several_of, bounds_of, bound_of};
ghost use Rattle.sy_forms_items.specs.Meant.{phrase_of, phrases_of, typed_of};
ghost use Rattle.sy_forms_items.specs.Phrases as phrases;
ghost use Rattle.sy_forms_items.specs.Readings.{ReadingGives};
ghost use Rattle.sy_forms_items.specs.Seen.{environment_of};
ghost use Rattle.sy_terms.specs.Logics.{Serves};
ghost use Rattle.sy_forms.specs.Terms as spec;
ghost use Rattle.sy_forms_items.specs.Views.{items_in};

use crate::apply::{Several, applied};
use crate::head::{atom_term, read_head};
use crate::literal::indexed_term;
use crate::parts::{binding_parts, let_parts};
use std::alloc::Global;
use sy_forms_items::{
    Environment, Locals, Named, Phrase, Phrases, ReadEnd, Rest, Role, Typed, binding, copied,
    indexed_name, is_symbol,
};
use sy_scope_causes::Cause;
use sy_terms::{Theory, Want};
use sy_text_items::{Name, Place, Sexp};

/// A binding: the name with its term's sort, and the term.
#[derive(Drop)]
struct Bound<T: Theory> {
    named: Named,
    phrase: Phrase<T>,
}

/// The bindings of a `let`.
#[derive(Drop)]
struct Bounds<T: Theory> {
    names: Locals,
    terms: Phrases<T>,
}

impl<T: Theory> Bounds<T> {
    /// None. It takes no memory.
    fn new(alloc: Global) -> Self
        ensures { bounds_of T.denotes result ≡ spec.unbound }
    {
        Bounds {
            names: Locals::new(alloc),
            terms: Phrases::new(alloc),
        }
    }

    /// Appends the binding.
    fn push(&mut self, last: Bound<T>) -> Result<(), Want>
        ensures { OnOk result (bounds_of T.denotes self.new ≡
            spec.bound_behind (bounds_of T.denotes self.old) (bound_of T.denotes last)) }
    {
        let kept = self.terms.push(last.phrase);
        self.names.push(last.named)?;
        kept?;
        Ok(())
    }
}

/// Whether a `let` may stand there.
fn let_may_stand(role: Role) -> bool
    ensures { result ≡ spec.let_may_stand role }
{
    match role {
        Role::Grammar => false,
        Role::Body => true,
        Role::Assumption => true,
        Role::Constraint => true,
    }
}

/// A `let` with its inner term. The names outside it are in force again.
fn closed<T: Theory>(
    alloc: Global,
    locals: &mut Locals,
    outside: usize,
    terms: Phrases<T>,
    inner: Typed<T>,
) -> Result<Typed<T>, ReadEnd>
    ensures read { ReadingGives (typed_of T.denotes) result (spec.typed
        (phrases.Let (phrases_of T.denotes terms.items.items) (phrase_of T.denotes inner.phrase)) inner.sort) }
    ensures locals { OnOk result (locals.new ≡ take outside locals.old) }
{
    locals.truncate(outside)?;
    let term = binding(alloc, terms, inner)?;
    Ok(term)
}

/// The binding of a name to a term.
fn bound_to<T: Theory>(alloc: Global, name: &Name, term: Typed<T>) -> Result<Bound<T>, ReadEnd>
    ensures { ReadingGives (bound_of T.denotes) result (Ok (spec.bound_to name.now (typed_of T.denotes term))) }
{
    let name = copied(alloc, name)?;
    Ok(Bound {
        named: Named {
            name,
            sort: term.sort,
        },
        phrase: term.phrase,
    })
}

/// The term that the item is, where these `let` names are in force, from the outermost.
#[tactic(none)]
#[cycle(reading)]
pub(crate) fn read_term<T: Theory>(
    alloc: Global,
    env: &Environment<'_>,
    locals: &mut Locals,
    item: &Sexp,
) -> Result<Typed<T>, ReadEnd>
    requires { Serves T.numeric env.now.logic }
    ensures read { ReadingGives (typed_of T.denotes) result
        (spec.read_term (environment_of env.now) locals.old (item_of item.now)) }
    ensures locals { OnOk result (locals.new ≡ locals.old) }
{
    match item {
        Sexp::Atom(atom, place) => atom_term(alloc, env, locals, *place, atom),
        Sexp::List(items, place) => read_list(alloc, env, locals, *place, Rest::all(items)),
    }
}

/// The term that a list is.
#[tactic(none)]
#[cycle(reading)]
fn read_list<T: Theory>(
    alloc: Global,
    env: &Environment<'_>,
    locals: &mut Locals,
    place: Place,
    items: Rest<'_>,
) -> Result<Typed<T>, ReadEnd>
    requires { Serves T.numeric env.now.logic }
    ensures read { ReadingGives (typed_of T.denotes) result
        (spec.read_list (environment_of env.now) locals.old place (items_in items.entry)) }
    ensures locals { OnOk result (locals.new ≡ locals.old) }
{
    let Some((head, rest)) = items.split() else {
        return Err(ReadEnd::Refused(place, Cause::Shape));
    };
    if is_symbol(head, b"let") {
        if !let_may_stand(env.role) {
            return Err(ReadEnd::Refused(place, Cause::Shape));
        }
        return read_let(alloc, env, locals, place, rest);
    }
    if is_symbol(head, b"_") {
        return indexed_term(env.logic, place, indexed_name(rest));
    }
    let head = read_head(env, locals, head)?;
    let arguments = read_terms(alloc, env, locals, rest)?;
    applied(env.constants, env.divisors, place, head, arguments)
}

/// Terms from left to right.
#[tactic(none)]
#[cycle(reading)]
fn read_terms<T: Theory>(
    alloc: Global,
    env: &Environment<'_>,
    locals: &mut Locals,
    items: Rest<'_>,
) -> Result<Several<T>, ReadEnd>
    requires { Serves T.numeric env.now.logic }
    ensures read { ReadingGives (several_of T.denotes) result
        (spec.read_terms (environment_of env.now) locals.old phrases.no_terms (items_in items.entry)) }
    ensures locals { OnOk result (locals.new ≡ locals.old) }
{
    let mut done = Several::new(alloc);
    let mut left = items;
    while let Some((item, rest)) = left.split() {
        let term = read_term(alloc, env, locals, item)?;
        done.push(term)?;
        left = rest;
    }
    Ok(done)
}

/// Behind `let`: a list of one binding or more, and the inner term.
#[tactic(none)]
#[cycle(reading)]
fn read_let<T: Theory>(
    alloc: Global,
    env: &Environment<'_>,
    locals: &mut Locals,
    place: Place,
    items: Rest<'_>,
) -> Result<Typed<T>, ReadEnd>
    requires { Serves T.numeric env.now.logic }
    ensures read { ReadingGives (typed_of T.denotes) result
        (spec.read_let (environment_of env.now) locals.old place (items_in items.entry)) }
    ensures locals { OnOk result (locals.new ≡ locals.old) }
{
    let (bindings, inner) = let_parts(place, items)?;
    let bound = read_bindings(alloc, env, locals, bindings)?;
    read_inner(alloc, env, locals, bound, inner)
}

/// The inner term under bindings.
#[tactic(none)]
#[cycle(reading)]
fn read_inner<T: Theory>(
    alloc: Global,
    env: &Environment<'_>,
    locals: &mut Locals,
    bound: Bounds<T>,
    inner: &Sexp,
) -> Result<Typed<T>, ReadEnd>
    requires { Serves T.numeric env.now.logic }
    ensures read { ReadingGives (typed_of T.denotes) result
        (spec.read_inner (environment_of env.now) locals.old (bounds_of T.denotes bound) (item_of inner.now)) }
    ensures locals { OnOk result (locals.new ≡ locals.old) }
{
    let outside = locals.len();
    let Bounds { names, terms } = bound;
    locals.append(names)?;
    let inner = read_term(alloc, env, locals, inner)?;
    closed(alloc, locals, outside, terms, inner)
}

/// Bindings from left to right.
#[tactic(none)]
#[cycle(reading)]
fn read_bindings<T: Theory>(
    alloc: Global,
    env: &Environment<'_>,
    locals: &mut Locals,
    items: Rest<'_>,
) -> Result<Bounds<T>, ReadEnd>
    requires { Serves T.numeric env.now.logic }
    ensures read { ReadingGives (bounds_of T.denotes) result
        (spec.read_bindings (environment_of env.now) locals.old spec.unbound (items_in items.entry)) }
    ensures locals { OnOk result (locals.new ≡ locals.old) }
{
    let mut bound = Bounds::new(alloc);
    let mut left = items;
    while let Some((item, rest)) = left.split() {
        let binding = read_binding(alloc, env, locals, &bound.names, item)?;
        bound.push(binding)?;
        left = rest;
    }
    Ok(bound)
}

/// The binding `(x t)`, where these names are taken.
#[tactic(none)]
#[cycle(reading)]
fn read_binding<T: Theory>(
    alloc: Global,
    env: &Environment<'_>,
    locals: &mut Locals,
    taken: &Locals,
    item: &Sexp,
) -> Result<Bound<T>, ReadEnd>
    requires { Serves T.numeric env.now.logic }
    ensures read { ReadingGives (bound_of T.denotes) result
        (spec.read_binding (environment_of env.now) locals.old taken.now (item_of item.now)) }
    ensures locals { OnOk result (locals.new ≡ locals.old) }
{
    let (name, term) = binding_parts(env.logic, taken, item)?;
    let term = read_term(alloc, env, locals, term)?;
    bound_to(alloc, name, term)
}
