// Grammars.
ghost use Rattle.std.specs.Prelude.{◌≡◌, true};
ghost use Rattle.std.specs.Option.{option_map};
ghost use Rattle.sy_terms.specs.Definitions.{scope_of};
ghost use Rattle.sy_grammar_base.specs.Formed.{is_formed, syntax_with};
ghost use Rattle.sy_grammar_base.specs.Written.{pattern_of};
ghost use Rattle.sy_grammar_base.specs.Trees.{template_at};
ghost use Rattle.sy_grammar_base.specs.Grown.{syntax_from};

use crate::part::Part;
use sy_terms::{Defs, Seq, Sort, Theory};

/// A rule: a part, every constant of a sort, or every argument of a sort.
#[derive(Drop)]
pub enum Rule<T: Theory> {
    Term(Part<T>),
    AnyConstant(Sort),
    AnyVariable(Sort),
}

/// A nonterminal: the sort of what it derives, and its rules.
#[derive(Drop)]
pub struct Non<T: Theory> {
    pub sort: Sort,
    pub rules: Seq<Rule<T>>,
}

/// A grammar over arguments of these sorts. Nonterminal 0 is the start symbol.
#[derive(Drop)]
pub struct Grammar<T: Theory> {
    args: Seq<Sort>,
    nons: Seq<Non<T>>,
}

impl<T: Theory> Grammar<T> {
    /// The grammar of these nonterminals over arguments of these sorts, under these definitions.
    pub fn new(args: Seq<Sort>, nons: Seq<Non<T>>, _defs: &Defs<T>) -> Grammar<T>
        requires formed { is_formed T.numeric (scope_of T.owned _defs.now) (syntax_with T.denotes args nons) ≡ true }
        ensures args { result.args ≡ args }
        ensures nons { result.nons ≡ nons }
    {
        Grammar { args, nons }
    }

    /// The sorts of the arguments.
    pub fn args(&self) -> &Seq<Sort>
        ensures { result.now ≡ self.now.args }
    {
        &self.args
    }

    /// The nonterminals.
    pub fn nons(&self) -> &Seq<Non<T>>
        ensures { result.now ≡ self.now.nons }
    {
        &self.nons
    }
}

impl<T: Theory> Grammar<T> {
    /// The part of a nonterminal's rule; `None` where there is no such rule, or it is for all of a sort.
    pub fn part(&self, non: u32, rule: u32) -> Option<&Part<T>>
        ensures { option_map (λ part. pattern_of T.denotes part.now) result ≡
            template_at (syntax_from T.denotes self.now) non rule }
    {
        let found = self.nons.get(non as usize)?;
        match found.rules.get(rule as usize)? {
            Rule::Term(part) => Some(part),
            Rule::AnyConstant(_) => None,
            Rule::AnyVariable(_) => None,
        }
    }
}
