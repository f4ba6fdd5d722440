// The sorts of parts that fit.
ghost use Rattle.std.specs.Prelude.{◌≡◌, map, if◌then◌else◌, Some, None, slice_get};
ghost use Rattle.std.specs.Option.{option_map};
ghost use Rattle.sy_terms.specs.Denoted.{val_of};
ghost use Rattle.sy_terms.specs.Theories.{sort_of_value};
ghost use Rattle.sy_terms.specs.Definitions.{scope_of, signature};
ghost use Rattle.sy_grammar_base.specs.Formed.{is_plain, pattern_sort, pattern_sorts, syntax_with};
ghost use Rattle.sy_grammar_base.specs.Trees.{Nonterminal};
ghost use Rattle.sy_grammar_base.specs.Grown.{nonterminal_of};
ghost use Rattle.sy_grammar.specs.Seen.{after_all, taken};
ghost use Rattle.sy_grammar.specs.declared.seen.Seen.TheVariants.{Nothing};
ghost use Rattle.sy_grammar_base.specs.Written.{pattern_of, patterns_of};

use crate::linear::is_linear;
use crate::seen::Seen;
use sy_grammar_base::{Non, Part, Parts};
use sy_terms::{Def, Sort, Theory, Value, same_sort};

/// The sort of the terms that the part gives; `None` exactly where it doesn't fit.
#[cycle(part_sort)]
pub fn part_sort<T: Theory>(
    part: &Part<T>,
    args: &[Sort],
    nons: &[Non<T>],
    defs: &[Def<T>],
) -> Option<Sort>
    ensures { result ≡ pattern_sort (scope_of T.owned defs.now)
        (syntax_with T.denotes args.now nons.now) (pattern_of T.denotes part.now) }
{
    match part {
        Part::Const(value) => constant_sort::<T>(value),
        Part::Var(position) => argument_sort(args, *position),
        Part::Non(nonterminal) => nonterminal_sort(nons, *nonterminal),
        Part::App(operator, parts) => {
            if is_linear(nons, operator, parts) {
                seen_sorts(parts, args, nons, defs)?.sort_under::<T>(operator)
            } else {
                None
            }
        }
        Part::Call(definition, parts) => {
            let def = definition_at(defs, *definition)?;
            if have_sorts(parts, def.args.as_slice(), args, nons, defs) {
                Some(def.sort)
            } else {
                None
            }
        }
    }
}

/// The sorts of the parts; `None` exactly where one doesn't fit.
#[cycle(part_sort)]
fn seen_sorts<T: Theory>(
    parts: &Parts<T>,
    args: &[Sort],
    nons: &[Non<T>],
    defs: &[Def<T>],
) -> Option<Seen>
    ensures { result ≡ option_map (after_all Nothing) (pattern_sorts (scope_of T.owned defs.now)
        (syntax_with T.denotes args.now nons.now) (patterns_of T.denotes parts.now.items.items)) }
{
    let mut seen = Seen::Nothing;
    for part in parts.as_slice() {
        let sort = part_sort(part, args, nons, defs)?;
        seen = seen.with(sort);
    }
    Some(seen)
}

/// Whether the parts have these sorts.
#[cycle(part_sort)]
fn have_sorts<T: Theory>(
    parts: &Parts<T>,
    wanted: &[Sort],
    args: &[Sort],
    nons: &[Non<T>],
    defs: &[Def<T>],
) -> bool
    ensures { result ≡ taken wanted.now (pattern_sorts (scope_of T.owned defs.now)
        (syntax_with T.denotes args.now nons.now) (patterns_of T.denotes parts.now.items.items)) }
{
    for (i, part) in parts.as_slice().iter().enumerate() {
        let Some(sort) = wanted.get(i) else {
            return false;
        };
        let Some(found) = part_sort(part, args, nons, defs) else {
            return false;
        };
        if !same_sort(&found, sort) {
            return false;
        }
    }
    wanted.len() <= parts.len()
}

/// The sort of a value as rules write it: one of its sort, and no integer below 0.
fn constant_sort<T: Theory>(value: &Value<T::Num>) -> Option<Sort>
    ensures { result ≡
        (if is_plain (val_of T.denotes value.now) then Some (sort_of_value (val_of T.denotes value.now)) else None) }
{
    match value {
        Value::Truth(_) => Some(Sort::Bool),
        Value::Num(number) => {
            let whole = T::number(*number);
            if whole < 0 {
                return None;
            }
            let sort = T::value_sort(value);
            match T::of_number(sort, whole) {
                Some(_) => Some(sort),
                None => None,
            }
        }
    }
}

/// The sort of the argument at this position; `None` exactly where there is none.
fn argument_sort(args: &[Sort], position: u32) -> Option<Sort>
    ensures { result ≡ slice_get args.now position }
{
    let sort = args.get(position as usize)?;
    Some(*sort)
}

/// The definition of this number; `None` exactly where there is none.
fn definition_at<T: Theory>(defs: &[Def<T>], definition: u32) -> Option<&Def<T>>
    ensures { option_map (λ def. signature def.now) result ≡ slice_get (map signature defs.now) definition }
{
    defs.get(definition as usize)
}

/// The sort of the nonterminal of this number; `None` exactly where there is none.
fn nonterminal_sort<T: Theory>(nons: &[Non<T>], nonterminal: u32) -> Option<Sort>
    ensures { result ≡
        option_map (λ (n : Nonterminal). n.sort) (slice_get (map (nonterminal_of T.denotes) nons.now) nonterminal) }
{
    let non = nons.get(nonterminal as usize)?;
    Some(non.sort)
}
