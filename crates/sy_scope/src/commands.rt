// Commands.
ghost use Rattle.std.specs.Prelude.{◌≡◌, OnOk, Some};
ghost use Rattle.sy_text_items.specs.Views.{item_of};
ghost use Rattle.sy_forms_items.specs.Readings.{ReadingGives};
ghost use Rattle.sy_terms.specs.Logics.{IsTheoryOf, Serves};
ghost use Rattle.sy_scope_declared.specs.Calls.{asked_of};
ghost use Rattle.sy_scope_declared.specs.Goals.{GoalsFit};
ghost use Rattle.sy_scope_declared.specs.Seen.{context_of};
ghost use Rattle.sy_scope_steps.specs.Steps as spec;

use crate::constraints::{assume, constrain};
use crate::definitions::define;
use crate::functions::synthesise;
use std::alloc::Global;
use sy_forms_items::ReadEnd;
use sy_scope_causes::Cause;
use sy_scope_declared::{Asked, Context, Spellings, check_feature, read_request};
use sy_scope_names::Request;
use sy_terms::Theory;
use sy_text_items::Sexp;

/// Takes the context to the next by what a command asks for, or tells the command's first condition that doesn't hold.
/// After an `Err` the context is of no further use.
#[tactic(auto, unfolding(sy_scope_steps::specs::Steps::perform_in))]
fn perform<T: Theory>(
    alloc: Global,
    context: &mut Context<T>,
    asked: Asked<'_>,
) -> Result<(), ReadEnd>
    requires serves { Serves T.numeric context.old.logic }
    requires theory { IsTheoryOf context.old.logic T.owned T.numeric }
    requires fit { GoalsFit T.owned T.numeric (context_of T.denotes context.old) }
    ensures step { ReadingGives (λ _. context_of T.denotes context.new) result
        (spec.perform (context_of T.denotes context.old) (Some context.old.logic) (asked_of asked.entry)) }
    ensures logic { OnOk result (context.new.logic ≡ context.old.logic) }
{
    match asked.request {
        Request::SetLogic(name) => Err(ReadEnd::Refused(name.place, Cause::Logic)),
        Request::SetFeature(feature, on) => check_feature(feature, on),
        Request::Note => Ok(()),
        Request::DeclareVariable(name, sort) => context.declare_variable(name, sort),
        Request::DefineSort(name, sort) => context.define_sort(name, sort),
        Request::Define(name, arguments, sort, body) => {
            define(alloc, context, name, arguments, sort, body)
        }
        Request::Synthesise(name, arguments, sort, rules) => {
            synthesise(alloc, context, name, arguments, Some(sort), rules)
        }
        Request::SynthesiseInvariant(name, arguments, rules) => {
            synthesise(alloc, context, name, arguments, None, rules)
        }
        Request::Constrain(term) => constrain(alloc, context, term),
        Request::Assume(term) => assume(alloc, context, term),
        Request::ConstrainInvariant(invariant, before, step, after) => {
            let names = Spellings {
                invariant,
                before,
                step,
                after,
            };
            context.constrain_invariant(alloc, asked.place, names)
        }
        Request::Check => context.check_synth(alloc, asked.at),
    }
}

/// Takes the context to the next by the command that the item is, or tells the command's first condition that doesn't
/// hold. After an `Err` the context is of no further use.
#[tactic(auto, unfolding(sy_scope_steps::specs::Steps::step))]
pub fn step<T: Theory>(alloc: Global, context: &mut Context<T>, item: &Sexp) -> Result<(), ReadEnd>
    requires serves { Serves T.numeric context.old.logic }
    requires theory { IsTheoryOf context.old.logic T.owned T.numeric }
    requires fit { GoalsFit T.owned T.numeric (context_of T.denotes context.old) }
    ensures step { ReadingGives (λ _.
        context_of T.denotes context.new) result (spec.step (context_of T.denotes context.old) (item_of item.now)) }
    ensures logic { OnOk result (context.new.logic ≡ context.old.logic) }
{
    let asked = read_request(item)?;
    perform(alloc, context, asked)?;
    Ok(())
}
