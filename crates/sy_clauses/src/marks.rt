// A set of literals as marks on variables, for a clause that changes by resolution.
ghost use Rattle.std.specs.Prelude.{◌≡◌, ◌≢◌, ℕ, Bool, true, false, ◌||◌, ◌==◌, not, OnOk, OnErr, IfOk, [], ◌∷◌, ◌++◌, ◌<◌, ◌+◌, ◌^◌, length, slice_index_or, IsTrue, MatchBool, Some, None, Option};
ghost use Rattle.sy_clauses.specs.Clauses.{literals, join, without, resolvent, resolved, same_literal, IsEmpty};
ghost use Rattle.sy_clauses.specs.Marking.{clause_of, place_of, MarksAreListed};

use crate::Lit;
use std::alloc::{AllocError, Global};
use sy_seq::{Seq, Want};

/// Where a literal's mark is kept. Both signs stand in one list, so that no branch depends on the sign.
fn place_of(var: u32, positive: bool) -> usize
    ensures { result ≡ place_of var positive }
{
    2 * var as usize + positive as usize
}

/// Whether there is a mark at a place. One past the end has none.
fn is_marked(marks: &[bool], place: usize) -> bool
    ensures { result ≡ slice_index_or marks.now place false }
{
    match marks.get(place) {
        Some(mark) => *mark,
        None => false,
    }
}

/// Sets the mark at a place.
fn mark(marks: &mut Vec<bool>, place: usize) -> Result<(), Want>
    requires { place + 1 < 2 ^ 64 }
    ensures here { OnOk result (slice_index_or marks.new.items place false ≡ true) }
    ensures others { OnOk result ((w : ℕ) → w ≢ place →
        slice_index_or marks.new.items w false ≡ slice_index_or marks.old.items w false) }
{
    while marks.len() <= place {
        marks.push(false)?;
    }
    marks[place] = true;
    Ok(())
}

/// Takes the mark at a place off.
fn unmark(marks: &mut [bool], place: usize)
    ensures here { slice_index_or marks.new place false ≡ false }
    ensures others { (w : ℕ) → w ≢ place → slice_index_or marks.new w false ≡ slice_index_or marks.old w false }
{
    if place < marks.len() {
        marks[place] = false;
    }
}

/// The clause whose literals are marked. Each of them is among the touched ones, which may have
/// others too.
#[derive(Drop)]
pub struct Marks {
    marks: Vec<bool>,
    touched: Vec<Lit>,
}

impl Marks {
    /// The empty clause.
    pub fn new(alloc: Global) -> Self
        ensures empty { IsEmpty (clause_of result) }
        ensures listed { MarksAreListed result }
    {
        Marks {
            marks: Vec::new(alloc),
            touched: Vec::new(alloc),
        }
    }

    /// Whether the literal is in the clause.
    pub fn has(&self, var: u32, positive: bool) -> bool
        ensures { result ≡ clause_of self.now var positive }
    {
        is_marked(&self.marks, place_of(var, positive))
    }

    /// Adds the literal.
    #[tactic(auto, using(crate::proofs::Sets::literals_push, crate::proofs::Sets::literals_at, crate::proofs::Sets::place_same))]
    fn add(&mut self, literal: Lit) -> Result<(), Want>
        requires { MarksAreListed self.old }
        ensures added { OnOk result ((v : ℕ) (s : Bool) →
            clause_of self.new v s ≡ join (clause_of self.old) (same_literal literal.var literal.positive) v s) }
        ensures listed { OnOk result (MarksAreListed self.new) }
    {
        if !self.has(literal.var, literal.positive) {
            self.touched.push(literal)?;
            mark(&mut self.marks, place_of(literal.var, literal.positive))?;
        }
        Ok(())
    }

    /// Removes the literal.
    #[tactic(auto, using(crate::proofs::Sets::place_same))]
    fn remove(&mut self, var: u32, positive: bool)
        ensures removed { (v : ℕ) (s : Bool) →
            clause_of self.new v s ≡ without var positive (clause_of self.old) v s }
        ensures touched { self.new.touched ≡ self.old.touched }
    {
        unmark(&mut self.marks, place_of(var, positive));
    }

    /// Adds all literals of the clause.
    #[tactic(auto, using(crate::proofs::Sets::literals_more))]
    fn add_all(&mut self, clause: &[Lit]) -> Result<(), Want>
        requires { MarksAreListed self.old }
        ensures added { OnOk result ((v : ℕ) (s : Bool) →
            clause_of self.new v s ≡ join (clause_of self.old) (literals clause.now) v s) }
        ensures listed { OnOk result (MarksAreListed self.new) }
    {
        for literal in clause {
            self.add(*literal)?;
        }
        Ok(())
    }

    /// Becomes the clause, from the empty one.
    pub fn load(&mut self, clause: &[Lit]) -> Result<(), Want>
        requires empty { IsEmpty (clause_of self.old) }
        requires listed { MarksAreListed self.old }
        ensures loaded { OnOk result (clause_of self.new ≡ literals clause.now) }
        ensures listed { OnOk result (MarksAreListed self.new) }
    {
        self.add_all(clause)
    }

    /// Adds all literals of the clause but this one.
    #[tactic(auto, using(crate::proofs::Sets::literals_more, crate::proofs::Sets::without_is, crate::proofs::Sets::without_other))]
    fn add_others(&mut self, clause: &[Lit], var: u32, positive: bool) -> Result<(), Want>
        requires { MarksAreListed self.old }
        ensures added { OnOk result ((v : ℕ) (s : Bool) →
            clause_of self.new v s ≡ join (clause_of self.old) (without var positive (literals clause.now)) v s) }
        ensures listed { OnOk result (MarksAreListed self.new) }
    {
        for literal in clause {
            if is_literal(*literal, var, positive) {
                continue;
            }
            self.add(*literal)?;
        }
        Ok(())
    }

    /// Removes the literal, and adds what the clause has beside its negation.
    fn replace(&mut self, var: u32, positive: bool, clause: &[Lit]) -> Result<(), Want>
        requires { MarksAreListed self.old }
        ensures resolved { OnOk result ((v : ℕ) (s : Bool) →
            clause_of self.new v s ≡ resolved var positive (clause_of self.old) (literals clause.now) v s) }
        ensures listed { OnOk result (MarksAreListed self.new) }
    {
        self.remove(var, positive);
        self.add_others(clause, var, !positive)
    }

    /// Becomes the resolvent with the clause on the variable, where there is one; whether there is.
    pub fn resolve(&mut self, var: u32, clause: &[Lit]) -> Result<bool, Want>
        requires { MarksAreListed self.old }
        ensures exact { IfOk result (λ done. MatchBool done
            (resolvent var (clause_of self.old) (literals clause.now) ≡ Some (clause_of self.new))
            (resolvent var (clause_of self.old) (literals clause.now) ≡ None)) }
        ensures listed { OnOk result (MarksAreListed self.new) }
    {
        if self.has(var, true) && contains(clause, var, false) {
            self.replace(var, true, clause)?;
            return Ok(true);
        }
        if self.has(var, false) && contains(clause, var, true) {
            self.replace(var, false, clause)?;
            return Ok(true);
        }
        Ok(false)
    }

    /// Gives the clause's literals out, each once, and becomes the empty clause.
    #[tactic(auto, using(crate::proofs::Sets::literals_push, crate::proofs::Sets::literals_at))]
    pub fn take(&mut self, alloc: Global) -> Result<Seq<Lit>, Want>
        requires { MarksAreListed self.old }
        ensures same { IfOk result (λ c. literals c ≡ clause_of self.old) }
        ensures empty { OnOk result (IsEmpty (clause_of self.new)) }
        ensures listed { OnOk result (MarksAreListed self.new) }
    {
        let mut clause = Seq::new(alloc);
        while let Some(literal) = self.touched.pop() {
            if self.has(literal.var, literal.positive) {
                self.remove(literal.var, literal.positive);
                clause.push(literal)?;
            }
        }
        Ok(clause)
    }
}

/// Whether the literal is the one of the variable with this sign.
fn is_literal(literal: Lit, var: u32, positive: bool) -> bool
    ensures { result ≡ same_literal literal.var literal.positive var positive }
{
    literal.var == var && literal.positive == positive
}

/// Whether the literal is in the clause.
#[tactic(auto, using(crate::proofs::Sets::literals_more, crate::proofs::Sets::literals_found))]
fn contains(clause: &[Lit], var: u32, positive: bool) -> bool
    ensures { result ≡ literals clause.now var positive }
{
    for literal in clause {
        if is_literal(*literal, var, positive) {
            return true;
        }
    }
    false
}
