// What the nodes of a query weigh.
ghost use Rattle.std.specs.Prelude.{◌≡◌, ◌<◌, ◌^◌, Some};
ghost use Rattle.sy_query_base.specs.Weights as spec;

use sy_terms::{Op, Sort};

/// What a value of the sort weighs: a vector its width, another value 1.
pub(crate) fn sort_weight(sort: Sort) -> u64
    ensures is { result ≡ spec.sort_weight (Some sort) }
    ensures small { result < 2 ^ 8 }
{
    match sort {
        Sort::Bool | Sort::Int => 1,
        Sort::Bits(width) => u64::from(width),
    }
}

/// What an application weighs by itself, by its number of arguments and the weight of its value's sort.
pub(crate) fn operator_weight(operator: &Op, arguments: u64, own: u64) -> u64
    requires arguments { arguments < 2 ^ 32 }
    requires own { own < 2 ^ 8 }
    ensures { result ≡ spec.operator_weight operator.now arguments own }
{
    match operator {
        Op::BvUdiv | Op::BvUrem | Op::BvSdiv | Op::BvSrem | Op::BvSmod => own * own,
        Op::BvShl | Op::BvLshr | Op::BvAshr => own * own,
        Op::BvMul => arguments.saturating_sub(1) * (own * own),
        Op::Distinct => arguments * arguments,
        Op::Div => 8 * arguments.saturating_sub(1),
        Op::Mod => 8,
        Op::Abs => 4,
        _ => own,
    }
}
