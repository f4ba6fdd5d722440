// The default grammars, as text.
use crate::rows::{field, number};
use std::alloc::Global;
use std::process::Abort;
use sy_grammar::{Grammar, Part, Parts, Rule, default_grammar, tree_rule};
use sy_meaning_integers::IntTheory;
use sy_meaning_words::BvTheory;
use sy_terms::{Logic, Sort, Theory};
use sy_terms_operators::spell;

/// Whether the text tells the sort.
fn is_sort(sort: Sort, text: &str) -> bool {
    match sort {
        Sort::Bool => text == "Bool",
        Sort::Int => text == "Int",
        Sort::Bits(width) => text.strip_prefix("BitVec").unwrap_or("").parse() == Ok(width),
    }
}

/// Whether the part is the nonterminal of this number.
fn is_part<T: Theory>(part: &Part<T>, number: &str) -> bool {
    match part {
        Part::Non(nonterminal) => number.parse() == Ok(*nonterminal),
        _ => false,
    }
}

/// Whether the parts are the nonterminals of these numbers.
fn are_parts<T: Theory>(parts: &Parts<T>, numbers: &str) -> bool {
    let mut words = numbers.split_whitespace();
    let mut are_told = true;
    for part in parts.as_slice() {
        are_told &= is_part(part, words.next().unwrap_or(""));
    }
    are_told & words.next().is_none()
}

/// Whether the text tells the rule: all constants or all variables of a sort, or an operator and nonterminals.
fn is_rule<T: Theory>(rule: &Rule<T>, text: &str) -> bool {
    let (word, rest) = text.split_once(' ').unwrap_or((text, ""));
    match rule {
        Rule::Term(Part::App(operator, parts)) => (spell(operator) == word)
            & are_parts(parts, rest),
        Rule::Term(_) => false,
        Rule::AnyConstant(sort) => (word == "Constant") & is_sort(*sort, rest),
        Rule::AnyVariable(sort) => (word == "Variable") & is_sort(*sort, rest),
    }
}

/// Whether the nonterminal of this number has the sort and just the rules that are told, in their order; or that there
/// is none.
fn is_told<T: Theory>(grammar: &Grammar<T>, number: usize, told: &str) -> bool {
    let Some(non) = grammar.nons().get(number) else {
        return told.is_empty();
    };
    let mut texts = told.split(';');
    let mut is_told = is_sort(non.sort, texts.next().unwrap_or(""));
    for rule in non.rules.as_slice() {
        is_told &= is_rule(rule, texts.next().unwrap_or(""));
    }
    is_told & texts.next().is_none()
}

/// The grammar of a function of an integer.
fn integers<R: Abort>(rt: &R, alloc: Global, sort: &str) -> Grammar<IntTheory> {
    let grammar = match sort {
        "Bool" => default_grammar(alloc, Logic::Lia, &[Sort::Int], Sort::Bool),
        _ => default_grammar(alloc, Logic::Lia, &[Sort::Int], Sort::Int),
    };
    grammar.expect(rt, "a grammar")
}

/// The grammar of a function of vectors and a truth value, or of no argument.
fn vectors<R: Abort>(rt: &R, alloc: Global, sort: &str) -> Grammar<BvTheory> {
    let args = [Sort::Bits(64), Sort::Bool, Sort::Bits(1), Sort::Bits(64)];
    let grammar = match sort {
        "Bool" => default_grammar(alloc, Logic::Bv, &args, Sort::Bool),
        "8" => default_grammar(alloc, Logic::Bv, &args, Sort::Bits(8)),
        _ => default_grammar(alloc, Logic::Bv, &[], Sort::Bits(8)),
    };
    grammar.expect(rt, "a grammar")
}

/// Whether the row is right.
pub fn is_right<R: Abort>(rt: &R, alloc: Global, row: &str) -> bool {
    let (sort, place, told) = (field(row, 0), number(row, 1) as usize, field(row, 2));
    match sort.strip_prefix("LIA ") {
        Some(sort) => {
            let grammar = integers(rt, alloc, sort);
            let is_told = is_told(&grammar, place, told);
            drop(grammar);
            is_told
        }
        None => {
            let grammar = vectors(rt, alloc, sort);
            let is_told = is_told(&grammar, place, told);
            drop(grammar);
            is_told
        }
    }
}

/// Whether the grammar of a byte without arguments has two nonterminals and chooses by its 16th rule.
pub fn byte_chooses<R: Abort>(rt: &R, alloc: Global) -> bool {
    let byte = default_grammar::<BvTheory>(alloc, Logic::Bv, &[], Sort::Bits(8));
    let byte = byte.expect(rt, "a grammar");
    let chooses = byte.nons().len() == 2 && tree_rule(&byte) == Some(15);
    drop(byte);
    chooses
}

/// The function's sort, a nonterminal's number, and its sort and rules, with semicolons between them. Integers have
/// three nonterminals, and vectors have one for each width.
pub const ROWS: &str = "\
LIA Int|0|Int;Variable Int;Constant Int;+ 0 0;- 0 0;* 2 0;ite 1 0 0
LIA Int|1|Bool;Variable Bool;Constant Bool;<= 0 0;= 0 0;not 1;and 1 1;or 1 1;ite 1 1 1
LIA Int|2|Int;Constant Int
LIA Int|3|
LIA Bool|0|Bool;Variable Bool;Constant Bool;<= 1 1;= 1 1;not 0;and 0 0;or 0 0;ite 0 0 0
LIA Bool|1|Int;Variable Int;Constant Int;+ 1 1;- 1 1;* 2 1;ite 0 1 1
LIA Bool|2|Int;Constant Int
8|0|BitVec8;Variable BitVec8;Constant BitVec8;bvnot 0;bvneg 0;bvand 0 0;bvor 0 0;bvxor 0 0;bvadd 0 0;bvsub 0 0;bvmul 0 0;bvudiv 0 0;bvurem 0 0;bvshl 0 0;bvlshr 0 0;bvashr 0 0;ite 3 0 0
8|1|BitVec1;Variable BitVec1;Constant BitVec1;bvnot 1;bvneg 1;bvand 1 1;bvor 1 1;bvxor 1 1;bvadd 1 1;bvsub 1 1;bvmul 1 1;bvudiv 1 1;bvurem 1 1;bvshl 1 1;bvlshr 1 1;bvashr 1 1;ite 3 1 1
8|3|Bool;Variable Bool;Constant Bool;= 0 0;bvult 0 0;bvslt 0 0;= 1 1;bvult 1 1;bvslt 1 1;= 2 2;bvult 2 2;bvslt 2 2;not 3;and 3 3;or 3 3;ite 3 3 3
8|4|
Bool|0|Bool;Variable Bool;Constant Bool;= 1 1;bvult 1 1;bvslt 1 1;= 2 2;bvult 2 2;bvslt 2 2;not 0;and 0 0;or 0 0;ite 0 0 0
Bool|2|BitVec64;Variable BitVec64;Constant BitVec64;bvnot 2;bvneg 2;bvand 2 2;bvor 2 2;bvxor 2 2;bvadd 2 2;bvsub 2 2;bvmul 2 2;bvudiv 2 2;bvurem 2 2;bvshl 2 2;bvlshr 2 2;bvashr 2 2;ite 0 2 2
byte|1|Bool;Variable Bool;Constant Bool;= 0 0;bvult 0 0;bvslt 0 0;not 1;and 1 1;or 1 1;ite 1 1 1
";
