// What a command asks for, by its parts.
ghost use Rattle.std.specs.Prelude.{◌≡◌};
ghost use Rattle.std.specs.Option.{option_map};
ghost use Rattle.sy_scope_names.specs.Asked.{spelled_of, listed_of, rulebook_of};
ghost use Rattle.sy_scope_names.specs.Requests as spec;
ghost use Rattle.sy_text_items.specs.Views.{item_of};

use sy_forms_items::{Rest, is, place_of, symbol};
use sy_text_items::{Atom, Name, Place, Sexp, Sexps};

/// A symbol or a keyword of the file, and where it stands.
#[derive(Clone, Copy)]
pub struct Spelled<'a> {
    pub name: &'a Name,
    pub place: Place,
}

/// A list of the file, and where its bracket stands.
#[derive(Clone, Copy)]
pub struct Listed<'a> {
    pub items: &'a Sexps,
    pub place: Place,
}

/// A predeclaration and groups of rules.
#[derive(Clone, Copy)]
pub struct Rulebook<'a> {
    pub predeclared: Listed<'a>,
    pub groups: Listed<'a>,
}

/// What a command asks for: its parts, whose number and kinds are right.
#[derive(Clone, Copy)]
pub enum Request<'a> {
    /// The logic of the file.
    SetLogic(Spelled<'a>),
    /// A feature, and whether it is switched on.
    SetFeature(Spelled<'a>, bool),
    /// Nothing: what was said is a note.
    Note,
    /// A variable: its name and its sort.
    DeclareVariable(Spelled<'a>, &'a Sexp),
    /// An abbreviation: its name and the sort.
    DefineSort(Spelled<'a>, &'a Sexp),
    /// A definition: its name, arguments, sort and body.
    Define(Spelled<'a>, &'a Sexps, &'a Sexp, &'a Sexp),
    /// A function to be found: its name, arguments, sort, and maybe its grammar.
    Synthesise(Spelled<'a>, &'a Sexps, &'a Sexp, Option<Rulebook<'a>>),
    /// An invariant to be found: its name, arguments, and maybe its grammar.
    SynthesiseInvariant(Spelled<'a>, &'a Sexps, Option<Rulebook<'a>>),
    /// A constraint.
    Constrain(&'a Sexp),
    /// An assumption.
    Assume(&'a Sexp),
    /// The conditions of an invariant: its name, and those of what holds before, of a step, and of what holds after.
    ConstrainInvariant(Spelled<'a>, Spelled<'a>, Spelled<'a>, Spelled<'a>),
    /// Answers.
    Check,
}

/// The symbol that the item is.
pub fn spelling(item: &Sexp) -> Option<Spelled<'_>>
    ensures { option_map spelled_of result ≡ spec.symbol_spelled (item_of item.now) }
{
    let name = symbol(item)?;
    Some(Spelled {
        name,
        place: place_of(item),
    })
}

/// The keyword that the item is.
pub(crate) fn keyword(item: &Sexp) -> Option<Spelled<'_>>
    ensures { option_map spelled_of result ≡ spec.keyword (item_of item.now) }
{
    match item {
        Sexp::Atom(atom, place) => match atom {
            Atom::Keyword(name) => Some(Spelled {
                name,
                place: *place,
            }),
            Atom::Symbol(_) => None,
            Atom::Numeral(_) => None,
            Atom::Decimal(_) => None,
            Atom::Bits(_, _) => None,
            Atom::Text(_) => None,
        },
        Sexp::List(_, _) => None,
    }
}

/// The list that the item is.
pub fn list_in(item: &Sexp) -> Option<Listed<'_>>
    ensures { option_map listed_of result ≡ spec.list_in (item_of item.now) }
{
    match item {
        Sexp::Atom(_, _) => None,
        Sexp::List(items, place) => Some(Listed {
            items,
            place: *place,
        }),
    }
}

/// Whether the item is `true` or `false`, and which.
pub(crate) fn switch(item: &Sexp) -> Option<bool>
    ensures { result ≡ spec.switch (item_of item.now) }
{
    let name = symbol(item)?;
    if is(name.as_slice(), b"true") {
        Some(true)
    } else if is(name.as_slice(), b"false") {
        Some(false)
    } else {
        None
    }
}

/// Whether the item is an empty list.
pub(crate) fn is_no_parameters(item: &Sexp) -> bool
    ensures { result ≡ spec.is_no_parameters (spec.list_in (item_of item.now)) }
{
    match item {
        Sexp::Atom(_, _) => false,
        Sexp::List(items, _) => Rest::all(items).is_empty(),
    }
}

/// The predeclaration and the groups of rules that two items are.
pub(crate) fn rulebook_in<'a>(predeclared: &'a Sexp, groups: &'a Sexp) -> Option<Rulebook<'a>>
    ensures { option_map rulebook_of result ≡ spec.rulebook (item_of predeclared.now) (item_of groups.now) }
{
    let predeclared = list_in(predeclared)?;
    let groups = list_in(groups)?;
    Some(Rulebook {
        predeclared,
        groups,
    })
}
