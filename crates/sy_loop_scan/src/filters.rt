// What one operand has to be where an operator has a wanted value, whatever the other one is.
use crate::words::{absolute, greatest, is_negative, magnitude, shifted_left, shifted_right};
use sy_terms::Op;

/// Whether all bits of `part` are bits of `whole`.
fn has_bits(whole: u64, part: u64) -> bool {
    whole & part == part
}

/// Whether the number becomes the wanted one by a shift to the left.
fn may_go_left(number: u64, wanted: u64, bits: u32) -> bool {
    if wanted == 0 {
        return true;
    }
    let (from, to) = (number.trailing_zeros(), wanted.trailing_zeros());
    from <= to && shifted_left(number, u64::from(to - from), bits) == wanted
}

/// Whether the number becomes the wanted one by a shift to the right.
fn may_go_right(number: u64, wanted: u64) -> bool {
    if wanted == 0 {
        return true;
    }
    let (from, to) = (number.leading_zeros(), wanted.leading_zeros());
    from <= to && shifted_right(number, u64::from(to - from)) == wanted
}

/// Whether a shift to the right by so much leaves bits as high as those of the wanted number.
fn may_shift_right(by: u64, wanted: u64, bits: u32) -> bool {
    let unused = 64u32.saturating_sub(bits);
    wanted == 0 || by <= u64::from(wanted.leading_zeros().saturating_sub(unused))
}

/// Whether the number divides the wanted one, as far as trailing zeros tell.
fn may_be_factor(number: u64, wanted: u64) -> bool {
    wanted == 0 || number.trailing_zeros() <= wanted.trailing_zeros()
}

/// Whether an operator that takes its operands in any order may have the wanted value at the number and another one.
fn may_be_part(operator: &Op, bits: u32, number: u64, wanted: u64) -> bool {
    match operator {
        Op::And | Op::BvAnd => has_bits(number, wanted),
        Op::BvNand => has_bits(number, wanted ^ greatest(bits)),
        Op::Or | Op::BvOr => has_bits(wanted, number),
        Op::BvNor => has_bits(wanted ^ greatest(bits), number),
        Op::BvMul => may_be_factor(number, wanted),
        _ => true,
    }
}

/// Whether the operator may have the wanted value where the first operand is this number.
pub(crate) fn may_be_first(operator: &Op, bits: u32, number: u64, wanted: u64) -> bool {
    match operator {
        Op::BvShl => may_go_left(number, wanted, bits),
        Op::BvLshr => may_go_right(number, wanted),
        Op::BvAshr => {
            is_negative(number, bits) == is_negative(wanted, bits)
                && may_go_right(magnitude(number, bits), magnitude(wanted, bits))
        }
        Op::BvUdiv => wanted == greatest(bits) || number >= wanted,
        Op::BvUrem => number >= wanted,
        _ => may_be_part(operator, bits, number, wanted),
    }
}

/// Whether the operator may have the wanted value where the second operand is this number.
pub(crate) fn may_be_second(operator: &Op, bits: u32, number: u64, wanted: u64) -> bool {
    let most = greatest(bits);
    match operator {
        Op::BvShl => wanted == 0 || number <= u64::from(wanted.trailing_zeros()),
        Op::BvLshr => may_shift_right(number, wanted, bits),
        Op::BvAshr => may_shift_right(number, magnitude(wanted, bits), bits),
        Op::BvUdiv => {
            if wanted == most {
                number <= 1
            } else {
                number != 0
                    && number
                        .checked_mul(wanted)
                        .is_some_and(|product| product <= most)
            }
        }
        Op::BvUrem => number == 0 || number > wanted,
        Op::Mod => number == 0 || (!is_negative(wanted, bits) && absolute(number, bits) > wanted),
        _ => may_be_part(operator, bits, number, wanted),
    }
}
