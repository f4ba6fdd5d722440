// The clauses that are known, as propagation reads them: each literal in four bytes, and all in one list.
ghost use Rattle.std.specs.Prelude.{◌≡◌, ◌++◌, ◌∷◌, [], OnOk, IfOk, MatchOption, Some, None, slice_get, length, map};
ghost use Rattle.sy_clauses.specs.Clauses.{literals};
ghost use Rattle.sy_cdcl.specs.Storing.{clauses_in, SpansFit};

use std::alloc::{AllocError, Global};
use std::marker::Model;
use sy_clauses::Lit;
use sy_seq::{Seq, Want};

/// A literal in four bytes: twice its variable, and one more where it is positive.
#[derive(Drop)]
pub struct Code {
    number: u32,
}

impl Model for Code {
    ghost use Rattle.sy_clauses.specs.declared.Lit.{Lit};
    ghost use Rattle.sy_cdcl.specs.Codes.{literal_of};

    ghost Value = { Lit };

    ghost view = { λ code. literal_of code.number };
}

impl Code {
    /// The literal's code. A variable of the number 2^31 or more has none, and answers as want of memory.
    pub fn of(literal: Lit) -> Result<Self, Want>
        ensures { IfOk result (λ code. code ≡ literal) }
    {
        if literal.var >= 0x8000_0000 {
            return Err(AllocError);
        }
        Ok(Code {
            number: 2 * literal.var + literal.positive as u32,
        })
    }

    /// The literal.
    pub fn literal(&self) -> Lit
        ensures { result ≡ self.now }
    {
        Lit {
            var: self.number / 2,
            positive: self.number % 2 == 1,
        }
    }
}

/// Where the literals of a clause stand, from the first up to the one behind the last.
#[derive(Clone, Copy, Drop)]
pub struct Span {
    pub start: u32,
    pub end: u32,
}

/// The clauses by their numbers, with the literals of all in one list.
#[derive(Drop)]
pub struct Store {
    pub codes: Vec<Code>,
    pub spans: Vec<Span>,
}

/// How many codes there are. More than four bytes can count answer as want of memory.
fn count(codes: &[Code]) -> Result<u32, Want>
    ensures { IfOk result (λ n. n ≡ length codes.now) }
{
    let count = codes.len();
    if count > 0xffff_ffff {
        return Err(AllocError);
    }
    Ok(count as u32)
}

impl Store {
    /// No clause.
    fn empty(alloc: Global) -> Self
        ensures clauses { clauses_in result ≡ [] }
        ensures fit { SpansFit result }
    {
        Store {
            codes: Vec::new(alloc),
            spans: Vec::new(alloc),
        }
    }

    /// These clauses.
    pub fn new(alloc: Global, clauses: &[Seq<Lit>]) -> Result<Self, Want>
        ensures clauses { IfOk result (λ store. clauses_in store ≡ map literals clauses.now) }
        ensures fit { IfOk result (λ store. SpansFit store) }
    {
        let mut store = Store::empty(alloc);
        for clause in clauses {
            store.push(clause.as_slice())?;
        }
        Ok(store)
    }

    /// Adds the literals of a clause behind the others.
    fn extend(&mut self, clause: &[Lit]) -> Result<(), Want>
        ensures codes { OnOk result (self.new.codes.items ≡ self.old.codes.items ++ clause.now) }
        ensures spans { self.new.spans.items ≡ self.old.spans.items }
    {
        for literal in clause {
            let code = Code::of(*literal)?;
            self.codes.push(code)?;
        }
        Ok(())
    }

    /// Adds a clause, which has the next number.
    pub fn push(&mut self, clause: &[Lit]) -> Result<(), Want>
        requires { SpansFit self.old }
        ensures clauses { OnOk result (clauses_in self.new ≡ clauses_in self.old ++ literals clause.now ∷ []) }
        ensures fit { OnOk result (SpansFit self.new) }
    {
        let start = count(&self.codes)?;
        self.extend(clause)?;
        let end = count(&self.codes)?;
        self.spans.push(Span { start, end })?;
        Ok(())
    }

    /// The clause of this number.
    pub fn clause<'a>(&'a self, number: u32) -> Option<&'a [Code]>
        requires { SpansFit self.now }
        ensures { MatchOption result
            (slice_get (clauses_in self.now) number ≡ None)
            (λ c. slice_get (clauses_in self.now) number ≡ Some (literals c.now)) }
    {
        match self.spans.get(number as usize) {
            Some(span) => Some(&self.codes[span.start as usize..span.end as usize]),
            None => None,
        }
    }
}
