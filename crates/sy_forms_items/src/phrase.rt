// Terms and grammar terms as they are read.
ghost use Rattle.std.specs.Prelude.{◌≡◌, ◌++◌, ◌∷◌, [], OnOk, OnErr, IfOk};
ghost use Rattle.sy_terms.specs.Denoted.{val_of};
ghost use Rattle.sy_forms_items.specs.Phrases as spec;
ghost use Rattle.sy_forms_items.specs.Meant.{phrases_of, phrase_of, typed_of};

use std::alloc::Global;
use sy_terms::{Fun, Op, Sort, Theory, Value, Want};

/// A term or a grammar term over a theory, in which names are resolved.
#[derive(Drop)]
#[cycle(phrase)]
pub enum Phrase<T: Theory> {
    /// A literal as it is written: an integer is never negative here.
    Literal(Value<T::Num>),
    /// The argument or the variable at this position.
    Position(u32),
    /// The `let` name of this number, counted from the outermost of the term.
    Local(u32),
    /// The nonterminal of this number.
    Nonterminal(u32),
    /// An operator at arguments.
    Operation(Op, Phrases<T>),
    /// A function at arguments.
    Invocation(Fun, Phrases<T>),
    /// The terms of the bindings, and the inner term.
    Let(Phrases<T>, Box<Phrase<T>>),
}

/// A list of phrases.
#[derive(Drop)]
#[cycle(phrase)]
pub struct Phrases<T: Theory> {
    items: Vec<Phrase<T>>,
}

/// A phrase with its sort.
#[derive(Drop)]
pub struct Typed<T: Theory> {
    pub phrase: Phrase<T>,
    pub sort: Sort,
}

impl<T: Theory> Phrases<T> {
    /// The empty list. It takes no memory.
    pub fn new(alloc: Global) -> Self
        ensures { result.items.items ≡ [] }
    {
        Phrases {
            items: Vec::new(alloc),
        }
    }

    /// All phrases in order.
    pub fn as_slice(&self) -> &[Phrase<T>]
        ensures { result.now ≡ self.now.items.items }
    {
        self.items.as_slice()
    }

    /// Appends the phrase. On `Want` the list is unchanged and the phrase is dropped.
    pub fn push(&mut self, item: Phrase<T>) -> Result<(), Want>
        ensures ok { OnOk result (self.new.items.items ≡ self.old.items.items ++ item ∷ []) }
        ensures err { OnErr result (self.new.items.items ≡ self.old.items.items) }
    {
        self.items.push(item)?;
        Ok(())
    }
}

/// The literal of a value.
#[tactic(auto, unfolding(crate::specs::Meant::phrase_of))]
pub fn literal<T: Theory>(value: Value<T::Num>, sort: Sort) -> Typed<T>
    ensures { typed_of T.denotes result ≡ record { phrase = spec.Literal (val_of T.denotes value); sort = sort } }
{
    Typed {
        phrase: Phrase::Literal(value),
        sort,
    }
}

/// The argument or the variable at a position.
#[tactic(auto, unfolding(crate::specs::Meant::phrase_of))]
pub fn position<T: Theory>(at: u32, sort: Sort) -> Typed<T>
    ensures { typed_of T.denotes result ≡ record { phrase = spec.Position at; sort = sort } }
{
    Typed {
        phrase: Phrase::Position(at),
        sort,
    }
}

/// The `let` name of this number.
#[tactic(auto, unfolding(crate::specs::Meant::phrase_of))]
pub fn local<T: Theory>(level: u32, sort: Sort) -> Typed<T>
    ensures { typed_of T.denotes result ≡ record { phrase = spec.Local level; sort = sort } }
{
    Typed {
        phrase: Phrase::Local(level),
        sort,
    }
}

/// The nonterminal of this number.
#[tactic(auto, unfolding(crate::specs::Meant::phrase_of))]
pub fn nonterminal<T: Theory>(number: u32, sort: Sort) -> Typed<T>
    ensures { typed_of T.denotes result ≡ record { phrase = spec.Nonterminal number; sort = sort } }
{
    Typed {
        phrase: Phrase::Nonterminal(number),
        sort,
    }
}

/// An operator at arguments.
pub fn operation<T: Theory>(operator: Op, arguments: Phrases<T>, sort: Sort) -> Typed<T>
    ensures { typed_of T.denotes result ≡
        record { phrase = spec.Operation operator (phrases_of T.denotes arguments.items.items); sort = sort } }
{
    Typed {
        phrase: Phrase::Operation(operator, arguments),
        sort,
    }
}

/// A function at arguments.
pub fn invocation<T: Theory>(function: Fun, arguments: Phrases<T>, sort: Sort) -> Typed<T>
    ensures { typed_of T.denotes result ≡
        record { phrase = spec.Invocation function (phrases_of T.denotes arguments.items.items); sort = sort } }
{
    Typed {
        phrase: Phrase::Invocation(function, arguments),
        sort,
    }
}

/// An inner term under the names of terms.
pub fn binding<T: Theory>(
    alloc: Global,
    bound: Phrases<T>,
    inner: Typed<T>,
) -> Result<Typed<T>, Want>
    ensures { IfOk result (λ x. typed_of T.denotes x ≡ record {
      phrase =
          spec.Let (phrases_of T.denotes bound.items.items) (phrase_of T.denotes inner.phrase);
      sort = inner.sort;
    }) }
{
    let sort = inner.sort;
    let phrase = Phrase::Let(bound, Box::new(alloc, inner.phrase)?);
    Ok(Typed { phrase, sort })
}
