// The solver.
ghost use Rattle.std.specs.Prelude.{◌≡◌, ◌++◌, ◌∷◌, [], ◌<◌, ◌^◌, ◌≤◌, IfOk, OnOk, IfSome, MatchOption, MatchBool, IsTrue, ◌+◌, None, Some, ℕ, Bool, true, length, slice_get, vec_len, map};
ghost use Rattle.sy_clauses.specs.declared.Lit.{Lit};
ghost use Rattle.sy_clauses.specs.Clauses.{known_clauses, literals, Refutes, VarsFit};
ghost use Rattle.sy_clauses.specs.Marking.{clause_of};
ghost use Rattle.sy_clauses.specs.New.{AllSettled, IsUnit};
ghost use Rattle.sy_cdcl.specs.Trails.{kept_values, entries_values, TrailIsReady, LevelsSettled, VarsBelow, AllValued, unvalued_count};
ghost use Rattle.sy_cdcl.specs.Status.{IsConflict};
ghost use Rattle.sy_cdcl.specs.Conflicts.{OpenAtLevels, LastFits, value_below};
ghost use Rattle.sy_cdcl.specs.Watching.{IsWatching, list_of, IsSkipped, IsPaired};
ghost use Rattle.sy_cdcl.specs.Storing.{clauses_in, SpansFit};
ghost use Rattle.sy_cdcl.specs.Answer.{AnswersFormula, IsRunEnd, IsUnstopped, IsModelOf, or_false};
ghost use Rattle.sy_cdcl.specs.States.{StateIsSound, IsFresh, IsFinalConflict, clauses_known};

use crate::analysis::{analyze, go_back, last_falsified};
use crate::order::{Order, Plan, USUAL_PLAN};
use crate::propagation::{attach, propagate};
use crate::shortening::conclude;
use crate::store::Store;
use crate::trail::Trail;
use crate::watches::Watches;
use std::alloc::{AllocError, Global};
use sy_cdcl_literals::Pair;
use sy_clauses::{Cnf, Line, Lit, Log, Marks};
use sy_seq::{Seq, Want};

/// What the solver found: a log that refutes the formula, a value for each variable that makes every
/// clause true, or the learned clauses where their number was used up.
#[derive(Drop)]
pub enum Solved {
    Refuted(Log),
    Model(Seq<bool>),
    Fuel(Log),
}

/// Why the learning ended: the last clause is empty, each variable has a value, or no more clauses may
/// be learned.
#[derive(Drop)]
pub enum End {
    Empty,
    Model(Seq<bool>),
    Spent,
}

/// A learned clause, its literal that is to be made true, and the one of the others that became false
/// last.
#[derive(Drop)]
pub struct Lesson {
    pub clause: Seq<Lit>,
    pub literal: Lit,
    pub last: Option<Lit>,
}

/// Begins a level with this literal.
fn decide(trail: &mut Trail, store: &Store, literal: Lit) -> Result<(), Want>
    requires ready { TrailIsReady (clauses_in store.now) trail.old }
    requires levels { LevelsSettled (clauses_in store.now) trail.old }
    requires settled { AllSettled (kept_values trail.old.values.items) (clauses_in store.now) }
    requires within { literal.var < vec_len trail.old.values }
    requires unvalued { kept_values trail.old.values.items literal.var ≡ None }
    ensures ready { OnOk result (TrailIsReady (clauses_in store.now) trail.new) }
    ensures levels { OnOk result (LevelsSettled (clauses_in store.now) trail.new) }
    ensures entries { OnOk result (trail.new.entries.items ≡
        trail.old.entries.items ++ record { literal = literal; reason = None } ∷ []) }
    ensures starts { OnOk result (trail.new.starts.items ≡
        trail.old.starts.items ++ length trail.old.entries.items ∷ []) }
    ensures vars { OnOk result (vec_len trail.new.values ≡ vec_len trail.old.values) }
    ensures fewer { OnOk result (unvalued_count trail.new < unvalued_count trail.old) }
{
    let start = trail.entries.len();
    trail.starts.push(start)?;
    trail.assign(literal, None)?;
    Ok(())
}

/// Assigns and decides until a clause is false, whose number is answered, or each variable has a value.
fn search(
    watches: &mut Watches,
    trail: &mut Trail,
    order: &mut Order,
    store: &Store,
    vars: u32,
) -> Result<Option<u32>, Want>
    requires fit { SpansFit store.now }
    requires ready { TrailIsReady (clauses_in store.now) trail.old }
    requires levels { LevelsSettled (clauses_in store.now) trail.old }
    requires vars { VarsBelow vars (clauses_in store.now) }
    requires all { vec_len trail.old.values ≡ vars }
    requires watching { IsWatching (clauses_in store.now) trail.old watches.old }
    ensures ready { OnOk result (TrailIsReady (clauses_in store.now) trail.new) }
    ensures levels { OnOk result (LevelsSettled (clauses_in store.now) trail.new) }
    ensures all { OnOk result (vec_len trail.new.values ≡ vars) }
    ensures watching { OnOk result (IsWatching (clauses_in store.now) trail.new watches.new) }
    ensures ends { IfOk result (λ conflict. MatchOption conflict
        (AllSettled (kept_values trail.new.values.items) (clauses_in store.now)
        × AllValued vars trail.new)
        (λ number. IsConflict (clauses_in store.now) (kept_values trail.new.values.items) number)) }
{
    loop {
        if let Some(conflict) = propagate(watches, trail, store)? {
            return Ok(Some(conflict));
        }
        let Some(literal) = choose(order, trail, vars) else {
            return Ok(None);
        };
        decide(trail, store, literal)?;
    }
}

/// A literal of the most active variable that has no value, with the value that it had last.
fn most_active(order: &mut Order, trail: &Trail, vars: u32) -> Option<Lit>
    ensures { IfSome result (λ l. (l.var < vars) × (kept_values trail.now.values.items l.var ≡ None)) }
{
    for _ in 0..vars {
        let Some(var) = order.pop() else {
            return None;
        };
        if var < vars && trail.value(var).is_none() {
            let positive = order.phase(var);
            return Some(Lit { var, positive });
        }
    }
    None
}

/// A literal of a variable that has no value, where there is one.
fn choose(order: &mut Order, trail: &Trail, vars: u32) -> Option<Lit>
    ensures { MatchOption result (AllValued vars trail.now)
        (λ l. (l.var < vars) × (kept_values trail.now.values.items l.var ≡ None)) }
{
    if let Some(literal) = most_active(order, trail, vars) {
        return Some(literal);
    }
    for var in 0..vars {
        if trail.value(var).is_none() {
            return Some(Lit {
                var,
                positive: false,
            });
        }
    }
    None
}

/// The values of all variables, false where there is none.
fn all_values(alloc: Global, trail: &Trail) -> Result<Seq<bool>, Want>
    ensures { IfOk result (λ values. values ≡ map or_false trail.now.values.items) }
{
    let mut values = Seq::new(alloc);
    for value in &trail.values {
        values.push(value.get().unwrap_or(false))?;
    }
    Ok(values)
}

/// Goes back to the lowest level at which all marked literals but this one are false.
fn jump_back(
    watches: &mut Watches,
    trail: &mut Trail,
    order: &mut Order,
    cnf: &Cnf,
    derived: &[Seq<Lit>],
    marks: &Marks,
    literal: Lit,
)
    requires deep { 0 < length trail.old.starts.items }
    requires ready { TrailIsReady (known_clauses cnf.now.clauses derived.now) trail.old }
    requires levels { LevelsSettled (known_clauses cnf.now.clauses derived.now) trail.old }
    requires watching { IsWatching (known_clauses cnf.now.clauses derived.now) trail.old watches.old }
    requires unit { IsUnit (value_below trail.old) (clause_of marks.now) literal.var literal.positive }
    ensures ready { TrailIsReady (known_clauses cnf.now.clauses derived.now) trail.new }
    ensures levels { LevelsSettled (known_clauses cnf.now.clauses derived.now) trail.new }
    ensures watching { IsWatching (known_clauses cnf.now.clauses derived.now) trail.new watches.new }
    ensures head { watches.new.head ≡ length trail.new.entries.items }
    ensures vars { vec_len trail.new.values ≡ vec_len trail.old.values }
    ensures unit { IsUnit (entries_values trail.new.entries.items) (clause_of marks.now) literal.var literal.positive }
    ensures lowest { OpenAtLevels trail.new (clause_of marks.now) }
{
    go_back(trail, order, cnf, derived, marks, literal);
    watches.head = trail.entries.len();
}

/// Watches the clause that was learned last.
fn watch_lesson(
    watches: &mut Watches,
    number: u32,
    literal: Lit,
    last: Option<Lit>,
) -> Result<(), Want>
    requires literal { list_of literal < length watches.old.lists.items }
    requires last { IfSome last (λ second. list_of second < length watches.old.lists.items) }
    ensures watched { OnOk result (MatchOption last
        (IsSkipped watches.old watches.new)
        (λ second. IsPaired watches.old watches.new number record { first = literal; second = second })) }
    ensures head { watches.new.head ≡ watches.old.head }
{
    let Some(second) = last else {
        watches.skip()?;
        return Ok(());
    };
    watches.watch(
        number,
        Pair {
            first: literal,
            second,
        },
    )?;
    Ok(())
}

/// Adds a learned clause, watches it, and makes its last literal true.
fn keep(
    watches: &mut Watches,
    trail: &mut Trail,
    store: &mut Store,
    cnf: &Cnf,
    derived: &mut Vec<Seq<Lit>>,
    lesson: Lesson,
    number: u32,
) -> Result<(), Want>
    requires ready { TrailIsReady (known_clauses cnf.now.clauses derived.old.items) trail.old }
    requires levels { LevelsSettled (known_clauses cnf.now.clauses derived.old.items) trail.old }
    requires watching { IsWatching (known_clauses cnf.now.clauses derived.old.items) trail.old watches.old }
    requires head { watches.old.head ≡ length trail.old.entries.items }
    requires unit { IsUnit (entries_values trail.old.entries.items)
        (literals lesson.clause) lesson.literal.var lesson.literal.positive }
    requires lowest { OpenAtLevels trail.old (literals lesson.clause) }
    requires last { LastFits trail.old.entries.items (literals lesson.clause) lesson.last }
    requires vars { (v : ℕ) (s : Bool) → literals lesson.clause v s ≡ true → v < vec_len trail.old.values }
    requires number { length (known_clauses cnf.now.clauses derived.old.items) ≡ number }
    requires stored { clauses_in store.old ≡ known_clauses cnf.now.clauses derived.old.items }
    requires fit { SpansFit store.old }
    ensures stored { OnOk result (clauses_in store.new ≡ known_clauses cnf.now.clauses derived.new.items) }
    ensures fit { OnOk result (SpansFit store.new) }
    ensures derived { OnOk result (derived.new.items ≡ derived.old.items ++ lesson.clause ∷ []) }
    ensures ready { OnOk result (TrailIsReady (known_clauses cnf.now.clauses derived.new.items) trail.new) }
    ensures levels { OnOk result (LevelsSettled (known_clauses cnf.now.clauses derived.new.items) trail.new) }
    ensures watching { OnOk result
        (IsWatching (known_clauses cnf.now.clauses derived.new.items) trail.new watches.new) }
    ensures all { OnOk result (vec_len trail.new.values ≡ vec_len trail.old.values) }
{
    store.push(lesson.clause.as_slice())?;
    derived.push(lesson.clause)?;
    trail.assign(lesson.literal, Some(number))?;
    watch_lesson(watches, number, lesson.literal, lesson.last)?;
    Ok(())
}

/// Makes the variables that the analysis used more active, those of the learned clause twice as much
/// as those that it resolved away.
fn reward(order: &mut Order, line: &Line, clause: &[Lit]) {
    for step in line.steps.as_slice() {
        order.bump(step.var);
    }
    for _ in 0..2 {
        for literal in clause {
            order.bump(literal.var);
        }
    }
    order.age();
}

/// The solver's state between two conflicts: the assignment, all clauses as propagation reads them, those
/// that were learned, and the lines that derive these.
#[derive(Drop)]
pub struct State {
    pub trail: Trail,
    pub watches: Watches,
    pub order: Order,
    pub marks: Marks,
    pub store: Store,
    pub derived: Vec<Seq<Lit>>,
    pub lines: Seq<Line>,
}

/// Learns a clause from a conflict and makes its last literal true; whether it has a literal.
fn learn_from(
    alloc: Global,
    state: &mut State,
    cnf: &Cnf,
    conflict: u32,
    number: u32,
) -> Result<bool, Want>
    requires sound { StateIsSound cnf.now state.old }
    requires conflict { IsConflict (known_clauses cnf.now.clauses state.old.derived.items)
        (kept_values state.old.trail.values.items) conflict }
    requires number { length (known_clauses cnf.now.clauses state.old.derived.items) ≡ number }
    ensures lines { OnOk result (length state.new.lines ≡ length state.old.lines + 1) }
    ensures ends { IfOk result (λ more. MatchBool more
        (StateIsSound cnf.now state.new)
        (Refutes cnf.now record { lines = state.new.lines })) }
{
    let taught = conclude(
        alloc,
        &state.trail,
        cnf,
        &state.derived,
        &mut state.marks,
        conflict,
    )?;
    let Some(literal) = taught.last else {
        state.lines.push(taught.line)?;
        return Ok(false);
    };
    jump_back(
        &mut state.watches,
        &mut state.trail,
        &mut state.order,
        cnf,
        &state.derived,
        &state.marks,
        literal,
    );
    let last = last_falsified(&state.trail, &state.marks);
    let clause = state.marks.take(alloc)?;
    reward(&mut state.order, &taught.line, clause.as_slice());
    state.lines.push(taught.line)?;
    let lesson = Lesson {
        clause,
        literal,
        last,
    };
    keep(
        &mut state.watches,
        &mut state.trail,
        &mut state.store,
        cnf,
        &mut state.derived,
        lesson,
        number,
    )?;
    Ok(true)
}

/// The state before any clause was looked at.
fn fresh_state(alloc: Global, cnf: &Cnf, plan: Plan) -> Result<State, Want>
    ensures { IfOk result (λ s. IsFresh cnf.now s) }
{
    Ok(State {
        trail: Trail::new(alloc, cnf.vars)?,
        watches: Watches::new(alloc, cnf.vars)?,
        order: Order::new(alloc, cnf.vars, plan)?,
        marks: Marks::new(alloc),
        store: Store::new(alloc, cnf.clauses.as_slice())?,
        derived: Vec::new(alloc),
        lines: Seq::new(alloc),
    })
}

/// Watches all clauses; one that is false without any decision.
fn attach_all(state: &mut State, cnf: &Cnf, count: u32) -> Result<Option<u32>, Want>
    requires vars { VarsFit cnf.now }
    requires fresh { IsFresh cnf.now state.old }
    requires count { length cnf.now.clauses ≡ count }
    ensures lines { state.new.lines ≡ state.old.lines }
    ensures ends { IfOk result (λ conflict. MatchOption conflict
        (StateIsSound cnf.now state.new)
        (λ number. IsFinalConflict cnf.now state.new number)) }
{
    let conflict = attach(&mut state.watches, &mut state.trail, &state.store, count)?;
    Ok(conflict)
}

/// Derives the empty clause from a clause that is false without any decision.
fn refute_at_once(alloc: Global, state: &mut State, cnf: &Cnf, conflict: u32) -> Result<(), Want>
    requires stuck { IsFinalConflict cnf.now state.old conflict }
    requires none { state.old.lines ≡ [] }
    ensures refutes { OnOk result (Refutes cnf.now record { lines = state.new.lines }) }
    ensures one { OnOk result (length state.new.lines ≡ 1) }
{
    let taught = analyze(
        alloc,
        &state.trail,
        cnf,
        &state.derived,
        &mut state.marks,
        conflict,
    )?;
    state.lines.push(taught.line)?;
    Ok(())
}

/// Assigns and decides until a clause is false, whose number is answered, or each variable has a value.
fn find_conflict(state: &mut State, cnf: &Cnf) -> Result<Option<u32>, Want>
    requires sound { StateIsSound cnf.now state.old }
    ensures sound { OnOk result (StateIsSound cnf.now state.new) }
    ensures lines { state.new.lines ≡ state.old.lines }
    ensures ends { IfOk result (λ conflict. MatchOption conflict
        (AllSettled (kept_values state.new.trail.values.items) (clauses_known cnf.now state.new)
        × AllValued cnf.now.vars state.new.trail)
        (λ number. IsConflict (clauses_known cnf.now state.new) (kept_values state.new.trail.values.items) number)) }
{
    let conflict = search(
        &mut state.watches,
        &mut state.trail,
        &mut state.order,
        &state.store,
        cnf.vars,
    )?;
    Ok(conflict)
}

/// The model that the state has once each variable has a value.
fn model_of(alloc: Global, state: &State, cnf: &Cnf) -> Result<Seq<bool>, Want>
    requires sound { StateIsSound cnf.now state.now }
    requires settled { AllSettled (kept_values state.now.trail.values.items) (clauses_known cnf.now state.now) }
    requires valued { AllValued cnf.now.vars state.now.trail }
    ensures { IfOk result (λ values. IsModelOf cnf.now values) }
{
    let values = all_values(alloc, &state.trail)?;
    Ok(values)
}

/// Learns clauses until one is empty, each variable has a value, or there are `fuel`.
fn learn(alloc: Global, state: &mut State, cnf: &Cnf, fuel: u32) -> Result<End, Want>
    requires vars { VarsFit cnf.now }
    requires clauses_fit { length cnf.now.clauses < 2 ^ 31 }
    requires fuel_fits { fuel < 2 ^ 31 }
    requires fresh { IsFresh cnf.now state.old }
    ensures { IfOk result (λ end. IsRunEnd cnf.now fuel record { lines = state.new.lines } end) }
{
    if fuel == 0 {
        return Ok(End::Spent);
    }
    let first = cnf.clauses.len() as u32;
    if let Some(conflict) = attach_all(state, cnf, first)? {
        refute_at_once(alloc, state, cnf, conflict)?;
        return Ok(End::Empty);
    }
    for learned in 0..fuel {
        let number = first + learned;
        let Some(found) = find_conflict(state, cnf)? else {
            let values = model_of(alloc, state, cnf)?;
            return Ok(End::Model(values));
        };
        let more = learn_from(alloc, state, cnf, found, number)?;
        if !more {
            return Ok(End::Empty);
        }
    }
    Ok(End::Spent)
}

/// The lines that were derived. The rest of the state is let go of.
fn log_of(state: State) -> Log
    ensures { result ≡ record { lines = state.lines } }
{
    Log { lines: state.lines }
}

/// Decides the formula by the plan, with at most `fuel` learned clauses. The answer is as that of [`solve`],
/// whatever the plan.
pub fn solve_by(alloc: Global, cnf: &Cnf, plan: Plan, fuel: u32) -> Result<Solved, Want>
    requires vars { VarsFit cnf.now }
    requires clauses_fit { length cnf.now.clauses < 2 ^ 31 }
    requires fuel_fits { fuel < 2 ^ 31 }
    ensures answer { IfOk result (λ solved. AnswersFormula cnf.now fuel solved) }
    ensures enough { IfOk result (λ solved. 3 ^ cnf.now.vars ≤ fuel → IsUnstopped solved) }
{
    let mut state = fresh_state(alloc, cnf, plan)?;
    let end = learn(alloc, &mut state, cnf, fuel)?;
    let log = log_of(state);
    match end {
        End::Empty => Ok(Solved::Refuted(log)),
        End::Model(values) => Ok(Solved::Model(values)),
        End::Spent => Ok(Solved::Fuel(log)),
    }
}

/// Decides the formula, with at most `fuel` learned clauses.
///
/// `Refuted` has a log of at most `fuel` lines that [`check`](sy_clauses::check) accepts, `Model` a
/// value for each variable that makes every clause true. `Fuel` comes once `fuel` clauses are learned, of
/// which none is empty; each is new to the clauses before it, so with a fuel of 3 to the number of
/// variables it never comes. `Want` comes where memory runs out, a variable has the number 2^31 or more,
/// or the clauses, those learned among them, have 2^32 literals.
pub fn solve(alloc: Global, cnf: &Cnf, fuel: u32) -> Result<Solved, Want>
    requires vars { VarsFit cnf.now }
    requires clauses_fit { length cnf.now.clauses < 2 ^ 31 }
    requires fuel_fits { fuel < 2 ^ 31 }
    ensures answer { IfOk result (λ solved. AnswersFormula cnf.now fuel solved) }
    ensures enough { IfOk result (λ solved. 3 ^ cnf.now.vars ≤ fuel → IsUnstopped solved) }
{
    let solved = solve_by(alloc, cnf, USUAL_PLAN, fuel)?;
    Ok(solved)
}
