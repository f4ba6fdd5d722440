ghost use Rattle.std.specs.Prelude.{◌≡◌, ℕ, Bool, true, ◌+◌, ◌*◌, ◌≤◌, ◌<◌, ◌↔◌, ◌&&◌, ◌||◌, not, max, length, OnOk, IfOk, List, [], ◌++◌, ◌∷◌, take};
ghost use Rattle.sy_gates.specs.Circuits.{Plan, variables, FollowsPlan, lit_bound, lit_value, gate_bound, gate_value, clauses_bound, xor};
ghost use Rattle.sy_gates.specs.declared.gate.Gate.TheVariants.{Constant, And, Xor, Choose};
ghost use Rattle.sy_gates.specs.Models.{clauses_value, but_last, values_of};

use crate::circuit::Circuit;
use crate::gate::{Gate, negated, variable};
use std::alloc::Global;
use sy_clauses::{Cnf, Lit};
use sy_seq::{Seq, Want};

/// Adds the clause of the literals.
fn add_clause(alloc: Global, clauses: &mut Seq<Seq<Lit>>, literals: &[Lit]) -> Result<(), Want>
    ensures { OnOk result (clauses.new ≡ clauses.old ++ literals.now ∷ []) }
{
    let mut clause = Seq::new(alloc);
    for literal in literals {
        clause.push(*literal)?;
    }
    clauses.push(clause)
}

/// Adds the clause of one literal.
pub fn add_one(alloc: Global, clauses: &mut Seq<Seq<Lit>>, literal: Lit) -> Result<(), Want>
    ensures { OnOk result (clauses.new ≡ clauses.old ++ (literal ∷ []) ∷ []) }
{
    add_clause(alloc, clauses, &[literal])
}

/// Adds the clause of two literals.
fn add_two(alloc: Global, clauses: &mut Seq<Seq<Lit>>, first: Lit, second: Lit) -> Result<(), Want>
    ensures { OnOk result (clauses.new ≡ clauses.old ++ (first ∷ second ∷ []) ∷ []) }
{
    add_clause(alloc, clauses, &[first, second])
}

/// Adds the clause of three literals.
fn add_three(
    alloc: Global,
    clauses: &mut Seq<Seq<Lit>>,
    first: Lit,
    second: Lit,
    third: Lit,
) -> Result<(), Want>
    ensures { OnOk result (clauses.new ≡ clauses.old ++ (first ∷ second ∷ third ∷ []) ∷ []) }
{
    add_clause(alloc, clauses, &[first, second, third])
}

/// Adds two clauses, which both hold exactly where `unless` is true or the other two literals differ.
fn add_differing(
    alloc: Global,
    clauses: &mut Seq<Seq<Lit>>,
    unless: Lit,
    x: Lit,
    y: Lit,
) -> Result<(), Want>
    ensures value { OnOk result ((v : ℕ → Bool) → clauses_value v clauses.new ≡
        (clauses_value v clauses.old && (lit_value v unless || xor (lit_value v x) (lit_value v y)))) }
    ensures count { OnOk result (length clauses.new ≤ length clauses.old + 2) }
    ensures bound { OnOk result (clauses_bound clauses.new ≤
        max (clauses_bound clauses.old) (max (lit_bound unless) (max (lit_bound x) (lit_bound y)))) }
{
    let not_x = negated(x);
    let not_y = negated(y);
    add_three(alloc, clauses, unless, x, y)?;
    add_three(alloc, clauses, unless, not_x, not_y)?;
    Ok(())
}

/// The clause of `Gate::Constant`.
fn add_constant(
    alloc: Global,
    clauses: &mut Seq<Seq<Lit>>,
    made: u32,
    truth: bool,
) -> Result<(), Want>
    ensures value { OnOk result ((v : ℕ → Bool) → clauses_value v clauses.new ≡
        (clauses_value v clauses.old && not (xor (v made) (gate_value v (Constant truth))))) }
    ensures count { OnOk result (length clauses.new ≤ length clauses.old + 4) }
    ensures bound { OnOk result (clauses_bound clauses.new ≤
        max (clauses_bound clauses.old) (max (made + 1) (gate_bound (Constant truth)))) }
{
    let literal = Lit {
        var: made,
        positive: truth,
    };
    add_one(alloc, clauses, literal)?;
    Ok(())
}

/// The clauses of `Gate::And`.
fn add_and(
    alloc: Global,
    clauses: &mut Seq<Seq<Lit>>,
    made: u32,
    a: Lit,
    b: Lit,
) -> Result<(), Want>
    ensures value { OnOk result ((v : ℕ → Bool) →
        clauses_value v clauses.new ≡ (clauses_value v clauses.old && not (xor (v made) (gate_value v (And a b))))) }
    ensures count { OnOk result (length clauses.new ≤ length clauses.old + 4) }
    ensures bound { OnOk result (clauses_bound clauses.new ≤
        max (clauses_bound clauses.old) (max (made + 1) (gate_bound (And a b)))) }
{
    let on = variable(made);
    let off = negated(on);
    let not_a = negated(a);
    let not_b = negated(b);
    add_two(alloc, clauses, off, a)?;
    add_two(alloc, clauses, off, b)?;
    add_three(alloc, clauses, on, not_a, not_b)?;
    Ok(())
}

/// The clauses of `Gate::Xor`: `a` and `b` differ where `made` is true, and elsewhere the negation of `a` and `b` do.
fn add_xor(
    alloc: Global,
    clauses: &mut Seq<Seq<Lit>>,
    made: u32,
    a: Lit,
    b: Lit,
) -> Result<(), Want>
    ensures value { OnOk result ((v : ℕ → Bool) →
        clauses_value v clauses.new ≡ (clauses_value v clauses.old && not (xor (v made) (gate_value v (Xor a b))))) }
    ensures count { OnOk result (length clauses.new ≤ length clauses.old + 4) }
    ensures bound { OnOk result (clauses_bound clauses.new ≤
        max (clauses_bound clauses.old) (max (made + 1) (gate_bound (Xor a b)))) }
{
    let on = variable(made);
    let off = negated(on);
    let not_a = negated(a);
    add_differing(alloc, clauses, off, a, b)?;
    add_differing(alloc, clauses, on, not_a, b)?;
    Ok(())
}

/// The clauses of `Gate::Choose`: the negation of what is chosen and `made` differ.
fn add_choose(
    alloc: Global,
    clauses: &mut Seq<Seq<Lit>>,
    made: u32,
    t: Lit,
    a: Lit,
    b: Lit,
) -> Result<(), Want>
    ensures value { OnOk result ((v : ℕ → Bool) → clauses_value v clauses.new ≡
        (clauses_value v clauses.old && not (xor (v made) (gate_value v (Choose t a b))))) }
    ensures count { OnOk result (length clauses.new ≤ length clauses.old + 4) }
    ensures bound { OnOk result (clauses_bound clauses.new ≤
        max (clauses_bound clauses.old) (max (made + 1) (gate_bound (Choose t a b)))) }
{
    let on = variable(made);
    let not_t = negated(t);
    let not_a = negated(a);
    let not_b = negated(b);
    add_differing(alloc, clauses, not_t, not_a, on)?;
    add_differing(alloc, clauses, t, not_b, on)?;
    Ok(())
}

/// Adds clauses that hold exactly where the variable `made` has the truth value that the gate makes.
pub fn add_gate(
    alloc: Global,
    clauses: &mut Seq<Seq<Lit>>,
    made: u32,
    gate: Gate,
) -> Result<(), Want>
    ensures value { OnOk result ((v : ℕ → Bool) →
        clauses_value v clauses.new ≡ (clauses_value v clauses.old && not (xor (v made) (gate_value v gate)))) }
    ensures count { OnOk result (length clauses.new ≤ length clauses.old + 4) }
    ensures bound { OnOk result (clauses_bound clauses.new ≤
        max (clauses_bound clauses.old) (max (made + 1) (gate_bound gate))) }
{
    match gate {
        Gate::Constant(b) => add_constant(alloc, clauses, made, b),
        Gate::And(a, b) => add_and(alloc, clauses, made, a, b),
        Gate::Xor(a, b) => add_xor(alloc, clauses, made, a, b),
        Gate::Choose(t, a, b) => add_choose(alloc, clauses, made, t, a, b),
    }
}
