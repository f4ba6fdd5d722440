// One round of a search: the bodies of one size together, up to what ends the round.
// Functions here have more than seven parameters where clauses name the problem, the limits and the reach apart, as
// those of the crates below do: a record of them would be taken apart at each call.
ghost use Rattle.std.specs.Prelude.{◌≡◌, ◌≤◌, ◌<◌, [], length, map, IfOk, OnOk};
ghost use Rattle.sy_bank_level.specs.Bank.{merged_of};
ghost use Rattle.sy_grammar_base.specs.Fits.{ProblemFits};
ghost use Rattle.sy_loop_candidate.specs.Clauses.{IsKnownFor};
ghost use Rattle.sy_loop.specs.Clauses.{IsPlannedFor};
ghost use Rattle.sy_loop_banks.specs.BankClauses.{AreBanksFor, AreCarriedFor};
ghost use Rattle.sy_loop.specs.LevelClauses.{AllAreRefutedFor};
ghost use Rattle.sy_loop.specs.RoundClauses.{AreDoneBelowFor, AreDoneFor, CarriesFor, EndsLeastFor, LevelFollowsFor, RoundsFor, TreesFollowFor};

use crate::outcome::ended;
use crate::plan::Plan;
use crate::trees::try_size;
use std::alloc::Global;
use sy_bank_level::Bank;
use sy_grammar_base::Problem;
use sy_loop_banks::{Banks, dropped_term, take_banks};
use sy_loop_candidate::{Known, Step};
use sy_loop_claims::exhausted;
use sy_loop_spec::{FailCause, Outcome, Reach};
use sy_query_base::Decide;
use sy_query_limits::Limits;
use sy_terms::{Theory, Want};

/// How a round ends.
#[derive(Drop)]
pub enum Round<T: Theory, P: Drop, S: Drop> {
    /// The search goes on at this size, with what it knows now and these banks.
    Goes(Known<T>, Vec<Bank<T>>, u32),
    /// The search ends.
    Ends(Outcome<T, P, S>),
}

/// Tries the bodies whose sizes sum to `level`, and conditional trees over kept terms of sizes up to it. Banks of an
/// earlier round are carried on. `Want` comes where memory doesn't suffice for the banks, or for judging and deciding a
/// candidate.
pub(crate) fn run_round<T: Theory, D: Decide<T>>(
    alloc: Global,
    problem: &Problem<T>,
    limits: &Limits,
    reach: Reach,
    functions: u32,
    decide: &mut D,
    plan: &mut Option<Plan<T>>,
    known: Known<T>,
    carried: Vec<Bank<T>>,
    level: u32,
) -> Result<Round<T, D::Proof, D::Spent>, Want>
    requires problem { ProblemFits T.Theory problem.now }
    requires plan { IsPlannedFor T.Theory reach problem.now plan.old }
    requires functions { functions ≡ length problem.now.wanted }
    requires known { IsKnownFor T.Theory reach problem.now limits.now known }
    requires room { length known.stored.items < limits.now.rounds }
    requires level { level ≤ limits.now.size }
    requires carried { AreCarriedFor T.Theory problem.now limits.now level carried.items }
    requires done { AreDoneBelowFor T.Theory reach problem.now known level }
    ensures plan { OnOk result (IsPlannedFor T.Theory reach problem.now plan.new) }
    ensures round { IfOk result (RoundsFor T.Theory D.Decide reach problem.now limits.now known level) }
    ensures carries { IfOk result (CarriesFor T.Theory problem.now limits.now) }
    ensures done { IfOk result (AreDoneFor T.Theory reach problem.now) }
    ensures follows { IfOk result (LevelFollowsFor T.Theory reach problem.now limits.now level) }
    ensures least { IfOk result (EndsLeastFor T.Theory reach problem.now) }
{
    let mut known = known;
    let taken = take_banks(
        alloc, problem, limits, reach, functions, &known, carried, level,
    )?;
    let banks = match taken {
        Banks::Built(banks) => banks,
        Banks::Full(function, bank, nonterminal, next) => {
            let cause = FailCause::Bank(known.stored, function, bank, nonterminal, next);
            return Ok(Round::Ends(Outcome::Fail(cause)));
        }
    };
    let all = banks.as_slice();
    match try_size(
        alloc, problem, limits, reach, decide, plan, all, level, &mut known,
    )? {
        Step::Next => {}
        Step::Again => return Ok(Round::Goes(known, banks, level)),
        Step::End(end) => {
            let outcome = ended::<T, D>(alloc, problem, limits, reach, end, known)?;
            return Ok(Round::Ends(outcome));
        }
    }
    let round = after_level::<T, D>(
        alloc, problem, limits, reach, functions, known, banks, level,
    )?;
    Ok(round)
}

/// What follows where all bodies whose sizes sum to `level` are refuted, and conditional trees with them: the end,
/// where a bank dropped a term or this was the greatest size; else the next size.
fn after_level<T: Theory, D: Decide<T>>(
    alloc: Global,
    problem: &Problem<T>,
    limits: &Limits,
    reach: Reach,
    functions: u32,
    known: Known<T>,
    banks: Vec<Bank<T>>,
    level: u32,
) -> Result<Round<T, D::Proof, D::Spent>, Want>
    requires problem { ProblemFits T.Theory problem.now }
    requires functions { functions ≡ length problem.now.wanted }
    requires known { IsKnownFor T.Theory reach problem.now limits.now known }
    requires room { length known.stored.items < limits.now.rounds }
    requires level { level ≤ limits.now.size }
    requires banks { AreBanksFor T.Theory problem.now limits.now known.points level banks.items }
    requires carried { AreCarriedFor T.Theory problem.now limits.now level banks.items }
    requires done { AreDoneBelowFor T.Theory reach problem.now known level }
    requires refuted { AllAreRefutedFor T.Theory problem.now known [] (map (merged_of T.denotes) banks.items) level }
    requires trees { TreesFollowFor T.Theory reach problem.now known level banks.items }
    ensures round { IfOk result (RoundsFor T.Theory D.Decide reach problem.now limits.now known level) }
    ensures carries { IfOk result (CarriesFor T.Theory problem.now limits.now) }
    ensures done { IfOk result (AreDoneFor T.Theory reach problem.now) }
    ensures follows { IfOk result (LevelFollowsFor T.Theory reach problem.now limits.now level) }
    ensures least { IfOk result (EndsLeastFor T.Theory reach problem.now) }
{
    let all = banks.as_slice();
    if let Some(left) = dropped_term(
        alloc, problem, limits, reach, functions, all, level, &known,
    )? {
        let cause = FailCause::Range(known.stored, left);
        return Ok(Round::Ends(Outcome::Fail(cause)));
    }
    if level < limits.size {
        return Ok(Round::Goes(known, banks, level + 1));
    }
    let outcome = exhausted::<T, D>(alloc, problem, limits, reach)?;
    Ok(Round::Ends(outcome))
}
