// The sort of an operator's value.
ghost use Rattle.std.specs.Prelude.{◌≡◌};
ghost use Rattle.std.specs.List.{list_all};
ghost use Rattle.sy_terms.specs.Sorts as spec;

use sy_terms::{Op, Sort, Sorted, same_sort};

fn all_same(sort: &Sort, sorts: &[Sort]) -> bool
    ensures { result ≡ list_all (spec.same_sort sort.now) sorts.now }
{
    sorts.iter().all(|s| same_sort(sort, s))
}

fn each_is(least: usize, sort: Sort, sorts: &[Sort], value: Sort) -> Sorted
    ensures { result ≡ spec.each_is least sort sorts.now value }
{
    if least <= sorts.len() && all_same(&sort, sorts) {
        Sorted::Is(value)
    } else {
        Sorted::Mismatch
    }
}

fn all_alike(sorts: &[Sort]) -> Sorted
    ensures { result ≡ spec.all_alike sorts.now }
{
    match sorts {
        [] => Sorted::Mismatch,
        [first, rest @ ..] => each_is(1, *first, rest, Sort::Bool),
    }
}

fn vectors(sorts: &[Sort]) -> Sorted
    ensures { result ≡ spec.vectors sorts.now }
{
    match sorts {
        [Sort::Bits(width), rest @ ..] => each_is(1, Sort::Bits(*width), rest, Sort::Bits(*width)),
        _ => Sorted::Mismatch,
    }
}

fn choice(sorts: &[Sort]) -> Sorted
    ensures { result ≡ spec.choice sorts.now }
{
    match sorts {
        [Sort::Bool, then, other] if same_sort(then, other) => Sorted::Is(*then),
        _ => Sorted::Mismatch,
    }
}

fn one_int(sorts: &[Sort]) -> Sorted
    ensures { result ≡ spec.one_int sorts.now }
{
    match sorts {
        [Sort::Int] => Sorted::Is(Sort::Int),
        _ => Sorted::Mismatch,
    }
}

fn two_ints(sorts: &[Sort]) -> Sorted
    ensures { result ≡ spec.two_ints sorts.now }
{
    match sorts {
        [Sort::Int, Sort::Int] => Sorted::Is(Sort::Int),
        _ => Sorted::Mismatch,
    }
}

/// The width of the one vector.
fn one_vector(sorts: &[Sort]) -> Option<u8>
    ensures { result ≡ spec.one_width sorts.now }
{
    match sorts {
        [Sort::Bits(width)] => Some(*width),
        _ => None,
    }
}

/// The width of two vectors that have the same.
fn two_vectors(sorts: &[Sort]) -> Option<u8>
    ensures { result ≡ spec.two_widths sorts.now }
{
    match sorts {
        [Sort::Bits(v), Sort::Bits(w)] if *v == *w => Some(*w),
        _ => None,
    }
}

fn up_to_64(width: u16) -> Sorted
    ensures { result ≡ spec.up_to_64 width }
{
    if width <= 64 {
        Sorted::Is(Sort::Bits(width as u8))
    } else {
        Sorted::BadWidth
    }
}

fn joined(sorts: &[Sort]) -> Sorted
    ensures { result ≡ spec.two_joined sorts.now }
{
    match sorts {
        [Sort::Bits(v), Sort::Bits(w)] => up_to_64(u16::from(*v) + u16::from(*w)),
        _ => Sorted::Mismatch,
    }
}

/// The sort where the vectors fit.
fn sort_by(width: Option<u8>, sort: Sort) -> Sorted
    ensures { result ≡ spec.by_width (λ w. Sorted.Is sort) width }
{
    match width {
        Some(_) => Sorted::Is(sort),
        None => Sorted::Mismatch,
    }
}

/// The width of the value, where it is that of the vectors.
fn sort_as_before(width: Option<u8>) -> Sorted
    ensures { result ≡ spec.by_width spec.as_before width }
{
    match width {
        Some(width) => Sorted::Is(Sort::Bits(width)),
        None => Sorted::Mismatch,
    }
}

fn extracted(high: u8, low: u8, sorts: &[Sort]) -> Sorted
    ensures { result ≡ spec.extracted high low sorts.now }
{
    match one_vector(sorts) {
        Some(width) if low <= high && high < width => Sorted::Is(Sort::Bits(high - low + 1)),
        Some(_) => Sorted::BadWidth,
        None => Sorted::Mismatch,
    }
}

fn repeated(copies: u8, sorts: &[Sort]) -> Sorted
    ensures { result ≡ spec.repeated copies sorts.now }
{
    match one_vector(sorts) {
        Some(width) if copies >= 1 => up_to_64(u16::from(copies) * u16::from(width)),
        Some(_) => Sorted::BadWidth,
        None => Sorted::Mismatch,
    }
}

fn extended(by: u8, sorts: &[Sort]) -> Sorted
    ensures { result ≡ spec.extended by sorts.now }
{
    match one_vector(sorts) {
        Some(width) => up_to_64(u16::from(width) + u16::from(by)),
        None => Sorted::Mismatch,
    }
}

/// The sort of the value of `op` at arguments of these sorts (SMT-LIB 2.6), or what is amiss.
#[tactic(auto, unfolding(sy_terms::specs::Sorts::sort_of))]
pub fn operator_sort(op: &Op, sorts: &[Sort]) -> Sorted
    ensures { result ≡ spec.sort_of op.now sorts.now }
{
    match op {
        Op::Not => match sorts {
            [Sort::Bool] => Sorted::Is(Sort::Bool),
            _ => Sorted::Mismatch,
        },
        Op::And | Op::Or => each_is(1, Sort::Bool, sorts, Sort::Bool),
        Op::Xor | Op::Implies => each_is(2, Sort::Bool, sorts, Sort::Bool),
        Op::Equal | Op::Distinct => all_alike(sorts),
        Op::Ite => choice(sorts),

        Op::Neg | Op::Abs => one_int(sorts),
        Op::Sub | Op::Add | Op::Mul | Op::Div => each_is(2, Sort::Int, sorts, Sort::Int),
        Op::Mod => two_ints(sorts),
        Op::Le | Op::Lt | Op::Ge | Op::Gt => each_is(2, Sort::Int, sorts, Sort::Bool),

        Op::Concat => joined(sorts),
        Op::Extract(high, low) => extracted(*high, *low, sorts),
        Op::Repeat(copies) => repeated(*copies, sorts),
        Op::ZeroExtend(by) | Op::SignExtend(by) => extended(*by, sorts),
        Op::BvNot | Op::BvNeg | Op::RotateLeft(_) | Op::RotateRight(_) => {
            sort_as_before(one_vector(sorts))
        }
        Op::BvAnd | Op::BvOr | Op::BvXor | Op::BvAdd | Op::BvMul => vectors(sorts),
        Op::BvSub | Op::BvNand | Op::BvNor | Op::BvXnor => sort_as_before(two_vectors(sorts)),
        Op::BvUdiv | Op::BvUrem | Op::BvSdiv | Op::BvSrem | Op::BvSmod => {
            sort_as_before(two_vectors(sorts))
        }
        Op::BvShl | Op::BvLshr | Op::BvAshr => sort_as_before(two_vectors(sorts)),
        Op::BvComp => sort_by(two_vectors(sorts), Sort::Bits(1)),
        Op::BvUlt | Op::BvUle | Op::BvUgt | Op::BvUge => sort_by(two_vectors(sorts), Sort::Bool),
        Op::BvSlt | Op::BvSle | Op::BvSgt | Op::BvSge => sort_by(two_vectors(sorts), Sort::Bool),
    }
}
