// Terms that share others, and parts that are filled, written as text: each node before those that it takes.
use crate::parts::part;
use std::alloc::{AllocError, Global};
use std::process::Abort;
use std::rc::Rc;
use sy_bank::copied_part;
use sy_bank_level::{Grown, Growns, Kept, filled_part};
use sy_grammar_base::{Derivation, Part};
use sy_meaning_integers::IntTheory;
use sy_terms::{Fun, Seq, Sort, Term, Value};
use sy_terms_operators::spell;

/// What the part becomes of the first and second term.
fn filled(
    rt: &impl Abort,
    alloc: Global,
    part: &Rc<Part<IntTheory>>,
    first: &Rc<Grown<IntTheory>>,
    second: &Rc<Grown<IntTheory>>,
) -> Rc<Grown<IntTheory>> {
    let mut growns = Growns::with_capacity(alloc, 2).expect(rt, "memory");
    growns
        .push(first.clone().expect(rt, "memory"))
        .expect(rt, "memory");
    growns
        .push(second.clone().expect(rt, "memory"))
        .expect(rt, "memory");
    let part = part.clone().expect(rt, "memory");
    Rc::new(alloc, Grown::Filled(4, part, growns)).expect(rt, "memory")
}

/// `x + (x + 1)`, in which one `x` and one sum are shared.
fn shared(rt: &impl Abort, alloc: Global) -> Kept<IntTheory> {
    let part = part::<IntTheory>(rt, alloc, Sort::Int, "+AA");
    let part = Rc::new(alloc, part).expect(rt, "memory");
    let x = Grown::Leaf(Term::Var(0), Derivation::Variable(1, 0));
    let x = Rc::new(alloc, x).expect(rt, "memory");
    let one = Value::Num(1);
    let one = Grown::Leaf(Term::Const(one), Derivation::Constant(2, one));
    let one = Rc::new(alloc, one).expect(rt, "memory");
    let inner = filled(rt, alloc, &part, &x, &one);
    Kept {
        grown: filled(rt, alloc, &part, &x, &inner),
        size: 5,
        row: Seq::new(alloc),
    }
}

/// Writes a term: `x` and the number of a variable, an integer, an operator, or `d` and the number of a definition.
fn write_term(text: &mut String, term: &Term<IntTheory>) -> Result<(), AllocError> {
    let below = match term {
        Term::Const(Value::Num(number)) => return write!(text, "{number} "),
        Term::Var(position) => return write!(text, "x{position} "),
        Term::App(op, below) => {
            let op = spell(op);
            write!(text, "{op} ")?;
            below
        }
        Term::Call(Fun::Defined(number), below) => {
            write!(text, "d{number} ")?;
            below
        }
        _ => return text.push_str("? "),
    };
    for term in below.as_slice() {
        write_term(text, term)?;
    }
    Ok(())
}

/// Writes the rules of a derivation, each before those of its children.
fn write_rules(text: &mut String, derivation: &Derivation<IntTheory>) -> Result<(), AllocError> {
    match derivation {
        Derivation::Node(rule, children) => {
            write!(text, "{rule} ")?;
            for child in children.as_slice() {
                write_rules(text, child)?;
            }
            Ok(())
        }
        Derivation::Constant(rule, _) => write!(text, "{rule} "),
        Derivation::Variable(rule, _) => write!(text, "{rule} "),
    }
}

/// A term that shares others, with its derivation.
fn written_shared(rt: &impl Abort, alloc: Global) -> String {
    let kept = shared(rt, alloc);
    let mut text = String::new(alloc);
    let term = kept.term(alloc).expect(rt, "memory");
    write_term(&mut text, &term).expect(rt, "memory");
    drop(term);
    text.push_str("by ").expect(rt, "memory");
    let derivation = kept.derivation(alloc).expect(rt, "memory");
    write_rules(&mut text, &derivation).expect(rt, "memory");
    drop(derivation);
    drop(kept);
    text
}

/// Writes the part, filled with the terms.
fn write_filled(
    rt: &impl Abort,
    alloc: Global,
    text: &mut String,
    part: &Part<IntTheory>,
    terms: &[Term<IntTheory>],
) {
    let term = filled_part(alloc, part, terms).expect(rt, "memory");
    write_term(text, &term).expect(rt, "memory");
    drop(term);
}

/// A part that is filled with three terms, its copy with two of them, and a part that is filled with none.
fn written_filled(rt: &impl Abort, alloc: Global) -> String {
    let part = part::<IntTheory>(rt, alloc, Sort::Int, "E+AAA");
    let copy = copied_part(alloc, &part).expect(rt, "memory");
    let terms = [Term::Var(5), Term::Const(Value::Num(1)), Term::Var(6)];
    let mut text = String::new(alloc);
    write_filled(rt, alloc, &mut text, &part, &terms);
    write_filled(rt, alloc, &mut text, &copy, &terms[..2]);
    write_filled(rt, alloc, &mut text, &Part::Var(7), &[]);
    text
}

/// Whether terms and derivations are written as they are to be.
pub(crate) fn are_written(rt: &impl Abort, alloc: Global) -> bool {
    let shared = written_shared(rt, alloc);
    let filled = written_filled(rt, alloc);
    shared.as_str() == "+ x0 + x0 1 by 4 1 4 1 2 "
        && filled.as_str() == "d3 + x5 1 x6 d3 + x5 1 x0 x7 "
}
