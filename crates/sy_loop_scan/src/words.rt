// Operators on numbers of some bits. A truth value is a number of one bit; a whole number counts by its lowest 64 bits.
use sy_terms::Op;

/// The greatest number of so many bits, at most 64.
pub(crate) fn greatest(bits: u32) -> u64 {
    if bits == 0 || bits >= 64 {
        u64::MAX
    } else {
        u64::MAX >> (64 - bits)
    }
}

/// The lowest 64 bits of a whole number, of two's complement.
pub(crate) fn lowest(number: i128) -> u64 {
    let part = (number.unsigned_abs() % (1 << 64)) as u64;
    if number < 0 {
        0u64.wrapping_sub(part)
    } else {
        part
    }
}

/// The number of `bits` bits, shifted to the left.
pub(crate) fn shifted_left(number: u64, by: u64, bits: u32) -> u64 {
    if by < 64 {
        (number << by) & greatest(bits)
    } else {
        0
    }
}

/// The number, shifted to the right.
pub(crate) fn shifted_right(number: u64, by: u64) -> u64 {
    if by < 64 { number >> by } else { 0 }
}

/// Whether the top bit is set.
pub(crate) fn is_negative(number: u64, bits: u32) -> bool {
    number > greatest(bits) / 2
}

/// The number, with its bits turned where the top one is set.
pub(crate) fn magnitude(number: u64, bits: u32) -> u64 {
    if is_negative(number, bits) {
        number ^ greatest(bits)
    } else {
        number
    }
}

/// The number, shifted to the right under copies of its top bit.
fn shifted_signed(number: u64, by: u64, bits: u32) -> u64 {
    let shifted = shifted_right(magnitude(number, bits), by);
    if is_negative(number, bits) {
        shifted ^ greatest(bits)
    } else {
        shifted
    }
}

/// The distance of a signed number from 0.
pub(crate) fn absolute(number: u64, bits: u32) -> u64 {
    if is_negative(number, bits) {
        0u64.wrapping_sub(number) & greatest(bits)
    } else {
        number
    }
}

/// The lowest 64 bits of the quotient whose remainder isn't negative; 0 by 0.
fn quotient(first: u64, second: u64) -> u64 {
    if second == 0 {
        return 0;
    }
    match first.cast_signed().checked_div_euclid(second.cast_signed()) {
        Some(value) => value.cast_unsigned(),
        None => first,
    }
}

/// The remainder that isn't negative; the first number by 0.
fn remainder(first: u64, second: u64) -> u64 {
    if second == 0 {
        return first;
    }
    match first.cast_signed().checked_rem_euclid(second.cast_signed()) {
        Some(value) => value.cast_unsigned(),
        None => 0,
    }
}

/// The number by which signed numbers compare as others do.
fn lifted(number: u64, bits: u32) -> u64 {
    let most = greatest(bits);
    number ^ most ^ (most / 2)
}

/// The operator's value at a number; `None` where it isn't one that scans know.
pub(crate) fn single_value(operator: &Op, bits: u32, number: u64) -> Option<u64> {
    match operator {
        Op::Not | Op::BvNot => Some(number ^ greatest(bits)),
        Op::Neg | Op::BvNeg => Some(0u64.wrapping_sub(number) & greatest(bits)),
        Op::Abs => Some(absolute(number, bits)),
        _ => None,
    }
}

/// The operator's value at two numbers; `None` where it isn't one that scans know.
pub(crate) fn pair_value(operator: &Op, bits: u32, first: u64, second: u64) -> Option<u64> {
    let most = greatest(bits);
    let value = match operator {
        Op::And | Op::BvAnd => first & second,
        Op::Or | Op::BvOr => first | second,
        Op::Xor | Op::BvXor => first ^ second,
        Op::Implies => (first ^ most) | second,
        Op::BvNand => (first & second) ^ most,
        Op::BvNor => (first | second) ^ most,
        Op::BvXnor => (first ^ second) ^ most,
        Op::Add | Op::BvAdd => first.wrapping_add(second) & most,
        Op::Sub | Op::BvSub => first.wrapping_sub(second) & most,
        Op::BvMul => first.wrapping_mul(second) & most,
        Op::Div => quotient(first, second),
        Op::Mod => remainder(first, second),
        Op::BvUdiv => first.checked_div(second).unwrap_or(most),
        Op::BvUrem => first.checked_rem(second).unwrap_or(first),
        Op::BvShl => shifted_left(first, second, bits),
        Op::BvLshr => shifted_right(first, second),
        Op::BvAshr => shifted_signed(first, second, bits),
        _ => u64::from(compared(operator, bits, first, second)?),
    };
    Some(value)
}

/// Whether the numbers compare so; `None` where the operator isn't a comparison.
fn compared(operator: &Op, bits: u32, first: u64, second: u64) -> Option<bool> {
    let (low, high) = (lifted(first, bits), lifted(second, bits));
    match operator {
        Op::Equal | Op::BvComp => Some(first == second),
        Op::Distinct => Some(first != second),
        Op::BvUlt => Some(first < second),
        Op::BvUle => Some(first <= second),
        Op::BvUgt => Some(first > second),
        Op::BvUge => Some(first >= second),
        Op::Lt | Op::BvSlt => Some(low < high),
        Op::Le | Op::BvSle => Some(low <= high),
        Op::Gt | Op::BvSgt => Some(low > high),
        Op::Ge | Op::BvSge => Some(low >= high),
        _ => None,
    }
}

/// The second number with which the operator has the wanted value at the first; `None` where it can't be turned round.
pub(crate) fn other_part(operator: &Op, bits: u32, first: u64, wanted: u64) -> Option<u64> {
    match operator {
        Op::Xor | Op::BvXor => Some(first ^ wanted),
        Op::BvXnor => Some((first ^ wanted) ^ greatest(bits)),
        Op::Add | Op::BvAdd => Some(wanted.wrapping_sub(first) & greatest(bits)),
        Op::Sub | Op::BvSub => Some(first.wrapping_sub(wanted) & greatest(bits)),
        _ => None,
    }
}
