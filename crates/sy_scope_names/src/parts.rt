// The parts of each command.
ghost use Rattle.std.specs.Prelude.{◌≡◌};
ghost use Rattle.std.specs.Option.{option_map};
ghost use Rattle.sy_text_items.specs.Views.{item_of};
ghost use Rattle.sy_forms_items.specs.Views.{items_in};
ghost use Rattle.sy_scope_names.specs.Asked.{two_of, three_of, four_of, five_of, request_in, rulebook_of};
ghost use Rattle.sy_scope_names.specs.Requests as spec;

use crate::commands::Command;
use crate::request::{
    Request, Rulebook, is_no_parameters, keyword, list_in, rulebook_in, spelling, switch,
};
use sy_forms_items::Rest;
use sy_text_items::Sexp;

/// The only item.
fn one<'a>(parts: Rest<'a>) -> Option<&'a Sexp>
    ensures { option_map (λ item. item_of item.now) result ≡ spec.only_item (items_in parts.entry) }
{
    let (first, rest) = parts.split()?;
    if rest.is_empty() { Some(first) } else { None }
}

/// All items of a list of two.
fn two<'a>(parts: Rest<'a>) -> Option<(&'a Sexp, &'a Sexp)>
    ensures { option_map two_of result ≡ spec.two_items (items_in parts.entry) }
{
    let (first, rest) = parts.split()?;
    let second = one(rest)?;
    Some((first, second))
}

/// All items of a list of three.
fn three<'a>(parts: Rest<'a>) -> Option<(&'a Sexp, &'a Sexp, &'a Sexp)>
    ensures { option_map three_of result ≡ spec.three_items (items_in parts.entry) }
{
    let (first, rest) = parts.split()?;
    let (second, third) = two(rest)?;
    Some((first, second, third))
}

/// All items of a list of four.
fn four<'a>(parts: Rest<'a>) -> Option<(&'a Sexp, &'a Sexp, &'a Sexp, &'a Sexp)>
    ensures { option_map four_of result ≡ spec.four (items_in parts.entry) }
{
    let (first, rest) = parts.split()?;
    let (second, third, fourth) = three(rest)?;
    Some((first, second, third, fourth))
}

/// All items of a list of five.
fn five<'a>(parts: Rest<'a>) -> Option<(&'a Sexp, &'a Sexp, &'a Sexp, &'a Sexp, &'a Sexp)>
    ensures { option_map five_of result ≡ spec.five (items_in parts.entry) }
{
    let (first, rest) = parts.split()?;
    let (second, third, fourth, fifth) = four(rest)?;
    Some((first, second, third, fourth, fifth))
}

/// `set-feature`, by its parts.
fn feature_setting<'a>(feature: &'a Sexp, on: &'a Sexp) -> Option<Request<'a>>
    ensures { option_map request_in result ≡
        spec.feature_setting (spec.keyword (item_of feature.now)) (spec.switch (item_of on.now)) }
{
    let feature = keyword(feature)?;
    let on = switch(on)?;
    Some(Request::SetFeature(feature, on))
}

/// `declare-var`, by its parts.
fn variable<'a>(name: &'a Sexp, sort: &'a Sexp) -> Option<Request<'a>>
    ensures { option_map request_in result ≡ spec.variable (spec.symbol_spelled (item_of name.now)) (item_of sort.now) }
{
    let name = spelling(name)?;
    Some(Request::DeclareVariable(name, sort))
}

/// `define-sort`, by its name and its sort.
fn abbreviation<'a>(name: &'a Sexp, sort: &'a Sexp) -> Option<Request<'a>>
    ensures { option_map request_in result ≡
        spec.abbreviation (spec.symbol_spelled (item_of name.now)) (item_of sort.now) }
{
    let name = spelling(name)?;
    Some(Request::DefineSort(name, sort))
}

/// `define-fun`, by its parts.
fn definition<'a>(
    name: &'a Sexp,
    arguments: &'a Sexp,
    sort: &'a Sexp,
    body: &'a Sexp,
) -> Option<Request<'a>>
    ensures { option_map request_in result ≡ spec.definition (spec.symbol_spelled (item_of name.now))
        (spec.list_in (item_of arguments.now)) (item_of sort.now) (item_of body.now) }
{
    let name = spelling(name)?;
    let arguments = list_in(arguments)?;
    Some(Request::Define(name, arguments.items, sort, body))
}

/// `synth-fun` without a grammar, by its parts.
fn synthesis<'a>(name: &'a Sexp, arguments: &'a Sexp, sort: &'a Sexp) -> Option<Request<'a>>
    ensures { option_map request_in result ≡ spec.synthesis (spec.symbol_spelled (item_of name.now))
        (spec.list_in (item_of arguments.now)) (item_of sort.now) }
{
    let name = spelling(name)?;
    let arguments = list_in(arguments)?;
    Some(Request::Synthesise(name, arguments.items, sort, None))
}

/// `synth-fun` with a grammar, by its parts.
fn ruled_synthesis<'a>(
    name: &'a Sexp,
    arguments: &'a Sexp,
    sort: &'a Sexp,
    rules: Option<Rulebook<'a>>,
) -> Option<Request<'a>>
    ensures { option_map request_in result ≡ spec.ruled_synthesis (spec.symbol_spelled (item_of name.now))
        (spec.list_in (item_of arguments.now)) (item_of sort.now) (option_map rulebook_of rules.entry) }
{
    let name = spelling(name)?;
    let arguments = list_in(arguments)?;
    let rules = rules?;
    Some(Request::Synthesise(name, arguments.items, sort, Some(rules)))
}

/// `synth-inv` without a grammar, by its parts.
fn invariant_synthesis<'a>(name: &'a Sexp, arguments: &'a Sexp) -> Option<Request<'a>>
    ensures { option_map request_in result ≡
        spec.invariant_synthesis (spec.symbol_spelled (item_of name.now)) (spec.list_in (item_of arguments.now)) }
{
    let name = spelling(name)?;
    let arguments = list_in(arguments)?;
    Some(Request::SynthesiseInvariant(name, arguments.items, None))
}

/// `synth-inv` with a grammar, by its parts.
fn ruled_invariant<'a>(
    name: &'a Sexp,
    arguments: &'a Sexp,
    rules: Option<Rulebook<'a>>,
) -> Option<Request<'a>>
    ensures { option_map request_in result ≡ spec.ruled_invariant (spec.symbol_spelled (item_of name.now))
        (spec.list_in (item_of arguments.now)) (option_map rulebook_of rules.entry) }
{
    let name = spelling(name)?;
    let arguments = list_in(arguments)?;
    let rules = rules?;
    Some(Request::SynthesiseInvariant(name, arguments.items, Some(rules)))
}

/// `inv-constraint`, by its parts.
fn invariant_conditions<'a>(
    invariant: &'a Sexp,
    before: &'a Sexp,
    step: &'a Sexp,
    after: &'a Sexp,
) -> Option<Request<'a>>
    ensures { option_map request_in result ≡ spec.invariant_conditions (spec.symbol_spelled (item_of invariant.now))
        (spec.symbol_spelled (item_of before.now)) (spec.symbol_spelled (item_of step.now))
        (spec.symbol_spelled (item_of after.now)) }
{
    let invariant = spelling(invariant)?;
    let before = spelling(before)?;
    let step = spelling(step)?;
    let after = spelling(after)?;
    Some(Request::ConstrainInvariant(invariant, before, step, after))
}

/// The parts of `(set-logic L)`.
fn set_logic<'a>(parts: Rest<'a>) -> Option<Request<'a>>
    ensures { option_map request_in result ≡ spec.set_logic_request (items_in parts.entry) }
{
    let (logic, rest) = parts.split()?;
    if !rest.is_empty() {
        return None;
    }
    Some(Request::SetLogic(spelling(logic)?))
}

/// The parts of `(set-feature k b)`.
fn set_feature<'a>(parts: Rest<'a>) -> Option<Request<'a>>
    ensures { option_map request_in result ≡ spec.set_feature_request (items_in parts.entry) }
{
    let (feature, on) = two(parts)?;
    feature_setting(feature, on)
}

/// The parts of `(set-info k)`, `(set-info k v)` and the same of `set-option`.
fn note<'a>(parts: Rest<'a>) -> Option<Request<'a>>
    ensures { option_map request_in result ≡ spec.note (items_in parts.entry) }
{
    let (name, rest) = parts.split()?;
    if let Some((_, rest)) = rest.split() {
        if !rest.is_empty() {
            return None;
        }
    }
    let _name = keyword(name)?;
    Some(Request::Note)
}

/// The parts of `(declare-var x s)`.
fn declare_var<'a>(parts: Rest<'a>) -> Option<Request<'a>>
    ensures { option_map request_in result ≡ spec.declare_var (items_in parts.entry) }
{
    let (name, sort) = two(parts)?;
    variable(name, sort)
}

/// The parts of `(define-sort n s)` and `(define-sort n () s)`.
fn define_sort<'a>(parts: Rest<'a>) -> Option<Request<'a>>
    ensures { option_map request_in result ≡ spec.define_sort_request (items_in parts.entry) }
{
    if let Some((name, sort)) = two(parts) {
        return abbreviation(name, sort);
    }
    let (name, parameters, sort) = three(parts)?;
    if is_no_parameters(parameters) {
        abbreviation(name, sort)
    } else {
        None
    }
}

/// The parts of `(define-fun f (args) s t)`.
fn define_fun<'a>(parts: Rest<'a>) -> Option<Request<'a>>
    ensures { option_map request_in result ≡ spec.define_fun (items_in parts.entry) }
{
    let (name, arguments, sort, body) = four(parts)?;
    definition(name, arguments, sort, body)
}

/// The parts of `(synth-fun f (args) s)` and `(synth-fun f (args) s P G)`.
fn synth_fun<'a>(parts: Rest<'a>) -> Option<Request<'a>>
    ensures { option_map request_in result ≡ spec.synth_fun (items_in parts.entry) }
{
    if let Some((name, arguments, sort)) = three(parts) {
        return synthesis(name, arguments, sort);
    }
    let (name, arguments, sort, predeclared, groups) = five(parts)?;
    ruled_synthesis(name, arguments, sort, rulebook_in(predeclared, groups))
}

/// The parts of `(synth-inv f (args))` and `(synth-inv f (args) P G)`.
fn synth_inv<'a>(parts: Rest<'a>) -> Option<Request<'a>>
    ensures { option_map request_in result ≡ spec.synth_inv (items_in parts.entry) }
{
    if let Some((name, arguments)) = two(parts) {
        return invariant_synthesis(name, arguments);
    }
    let (name, arguments, predeclared, groups) = four(parts)?;
    ruled_invariant(name, arguments, rulebook_in(predeclared, groups))
}

/// The parts of `(constraint t)`.
fn constraint<'a>(parts: Rest<'a>) -> Option<Request<'a>>
    ensures { option_map request_in result ≡ spec.constraint_request (items_in parts.entry) }
{
    let (term, rest) = parts.split()?;
    if rest.is_empty() {
        Some(Request::Constrain(term))
    } else {
        None
    }
}

/// The parts of `(assume t)`.
fn assume<'a>(parts: Rest<'a>) -> Option<Request<'a>>
    ensures { option_map request_in result ≡ spec.assume_request (items_in parts.entry) }
{
    let (term, rest) = parts.split()?;
    if rest.is_empty() {
        Some(Request::Assume(term))
    } else {
        None
    }
}

/// The parts of `(inv-constraint i p t q)`.
fn inv_constraint<'a>(parts: Rest<'a>) -> Option<Request<'a>>
    ensures { option_map request_in result ≡ spec.inv_constraint (items_in parts.entry) }
{
    let (invariant, before, step, after) = four(parts)?;
    invariant_conditions(invariant, before, step, after)
}

/// The parts of `(check-synth)`.
fn check_synth<'a>(parts: Rest<'a>) -> Option<Request<'a>>
    ensures { option_map request_in result ≡ spec.check_synth_request (items_in parts.entry) }
{
    if parts.is_empty() {
        Some(Request::Check)
    } else {
        None
    }
}

/// What the command with these parts asks for; `None` exactly where their number or kinds aren't those of the command.
#[tactic(auto, unfolding(crate::specs::Requests::request_of))]
pub fn request_of<'a>(command: Command, parts: Rest<'a>) -> Option<Request<'a>>
    ensures { option_map request_in result ≡ spec.request_of command (items_in parts.entry) }
{
    match command {
        Command::SetLogic => set_logic(parts),
        Command::SetFeature => set_feature(parts),
        Command::SetInfo => note(parts),
        Command::SetOption => note(parts),
        Command::DeclareVar => declare_var(parts),
        Command::DefineSort => define_sort(parts),
        Command::DefineFun => define_fun(parts),
        Command::SynthFun => synth_fun(parts),
        Command::SynthInv => synth_inv(parts),
        Command::Constraint => constraint(parts),
        Command::Assume => assume(parts),
        Command::InvConstraint => inv_constraint(parts),
        Command::CheckSynth => check_synth(parts),
    }
}
