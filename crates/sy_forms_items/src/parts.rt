// What single items are, and the items of a list one after the other.
ghost use Rattle.std.specs.Prelude.{◌≡◌, MatchOption, bytes_eq};
ghost use Rattle.std.specs.Option.{option_map};
ghost use Rattle.sy_text_items.specs.Items.{none, more};
ghost use Rattle.sy_text_items.specs.Views.{item_of};
ghost use Rattle.sy_forms_items.specs.Parts as spec;
ghost use Rattle.sy_forms_items.specs.Views.{items_in, indexed_of};

use sy_text_items::{Atom, Name, Place, Sexp, Sexps};

/// The indices of an identifier: one, two, or more.
#[derive(Clone, Copy, Debug, PartialEq, Eq)]
pub enum Indices {
    One(u128),
    Two(u128, u128),
    More,
}

/// The items of a list from a place on.
#[derive(Clone, Copy)]
pub struct Rest<'a> {
    items: &'a Sexps,
    from: usize,
}

impl<'a> Rest<'a> {
    /// All items of a list.
    pub fn all(items: &'a Sexps) -> Rest<'a>
        ensures { items_in result ≡ items.now }
    {
        Rest { items, from: 0 }
    }

    /// The first item and the rest; `None` where none is left.
    pub fn split(self) -> Option<(&'a Sexp, Rest<'a>)>
        ensures { MatchOption result (items_in self.entry ≡ none) (λ x.
            items_in self.entry ≡ more (item_of x.0.now) (items_in x.1)) }
    {
        if self.from >= self.items.len() {
            return None;
        }
        let item = self.items.get(self.from)?;
        let rest = Rest {
            items: self.items,
            from: self.from + 1,
        };
        Some((item, rest))
    }

    /// Whether no item is left.
    pub fn is_empty(self) -> bool
        ensures { result ≡ spec.has_no_items (items_in self.entry) }
    {
        self.split().is_none()
    }
}

/// Whether the name is this word.
pub fn is(name: &[u8], word: &[u8]) -> bool
    ensures { result ≡ bytes_eq name.now word.now }
{
    name == word
}

/// Where the item stands.
pub fn place_of(item: &Sexp) -> Place
    ensures { result ≡ spec.place_of (item_of item.now) }
{
    match item {
        Sexp::Atom(_, place) => *place,
        Sexp::List(_, place) => *place,
    }
}

/// The bytes of a symbol.
pub fn symbol_in(atom: &Atom) -> Option<&Name>
    ensures { option_map (λ name. name.now) result ≡ spec.symbol_in atom.now }
{
    match atom {
        Atom::Symbol(name) => Some(name),
        Atom::Keyword(_) => None,
        Atom::Numeral(_) => None,
        Atom::Decimal(_) => None,
        Atom::Bits(_, _) => None,
        Atom::Text(_) => None,
    }
}

/// The bytes of a symbol.
pub fn symbol(item: &Sexp) -> Option<&Name>
    ensures { option_map (λ name. name.now) result ≡ spec.symbol (item_of item.now) }
{
    match item {
        Sexp::Atom(atom, _) => symbol_in(atom),
        Sexp::List(_, _) => None,
    }
}

/// The number of a numeral.
pub fn numeral(item: &Sexp) -> Option<u128>
    ensures { result ≡ spec.numeral (item_of item.now) }
{
    match item {
        Sexp::Atom(atom, _) => match atom {
            Atom::Symbol(_) => None,
            Atom::Keyword(_) => None,
            Atom::Numeral(n) => Some(*n),
            Atom::Decimal(_) => None,
            Atom::Bits(_, _) => None,
            Atom::Text(_) => None,
        },
        Sexp::List(_, _) => None,
    }
}

/// Whether the item is this symbol.
pub fn is_symbol(item: &Sexp, name: &[u8]) -> bool
    ensures { result ≡ spec.is_symbol name.now (item_of item.now) }
{
    match symbol(item) {
        Some(bytes) => bytes.as_slice() == name,
        None => false,
    }
}

/// Whether each item is a numeral.
fn are_numerals(items: Rest<'_>) -> bool
    ensures { result ≡ spec.are_numerals (items_in items.entry) }
{
    let mut left = items;
    while let Some((item, rest)) = left.split() {
        if numeral(item).is_none() {
            return false;
        }
        left = rest;
    }
    true
}

/// The indices that the items are.
fn indices_in(items: Rest<'_>) -> Option<Indices>
    ensures { result ≡ spec.indices_in (items_in items.entry) }
{
    let (first, rest) = items.split()?;
    let first = numeral(first)?;
    let Some((second, rest)) = rest.split() else {
        return Some(Indices::One(first));
    };
    let second = numeral(second)?;
    if rest.is_empty() {
        return Some(Indices::Two(first, second));
    }
    if are_numerals(rest) {
        Some(Indices::More)
    } else {
        None
    }
}

/// The name and the indices behind `_`: a symbol, and one numeral or more.
pub fn indexed_name(items: Rest<'_>) -> Option<(&Name, Indices)>
    ensures { option_map indexed_of result ≡ spec.indexed_name (items_in items.entry) }
{
    let (name, rest) = items.split()?;
    let name = symbol(name)?;
    let indices = indices_in(rest)?;
    Some((name, indices))
}
