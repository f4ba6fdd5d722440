// What only calls show of operators, sorts and numbers.
use sy_meaning_words::{BvTheory, Word};
use sy_terms::{Fun, Op, Sort, Sorted, Theory, Value};
use sy_terms_operators::operator_sort;

/// Whether operators and functions are told apart by their indices, and by nothing else.
pub fn are_told_apart() -> bool {
    Op::Repeat(2).equals(&Op::Repeat(2))
        && !Op::Repeat(2).equals(&Op::Repeat(3))
        && !Fun::Defined(0).equals(&Fun::Wanted(0))
}

/// Whether an operator of vectors takes no integers, the difference not one number alone, and a rotation has any index.
pub fn are_found() -> bool {
    let rotated = operator_sort(&Op::RotateLeft(255), &[Sort::Bits(4)]);
    rotated == Sorted::Is(Sort::Bits(4))
        && operator_sort(&Op::BvAdd, &[Sort::Int, Sort::Int]) == Sorted::Mismatch
        && operator_sort(&Op::Sub, &[Sort::Int]) == Sorted::Mismatch
}

/// Whether the word 200 of eight bits is that number, and the sorts have just the numbers that they should.
pub fn are_numbered() -> bool {
    let Some(s) = Word::new(8, 200) else {
        return false;
    };
    BvTheory::value_sort(&Value::Num(s)) == Sort::Bits(8)
        && BvTheory::number(s) == 200
        && BvTheory::of_number(Sort::Bits(8), 200) == Some(s)
        && BvTheory::of_number(Sort::Bits(8), 256).is_none()
        && BvTheory::of_number(Sort::Bits(8), -1).is_none()
        && BvTheory::of_number(Sort::Bool, 1).is_none()
}
