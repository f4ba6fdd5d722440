// The theory of bit vectors.
ghost use Rattle.std.specs.Prelude.{◌≡◌};
ghost use Rattle.sy_terms.specs.Theories as theories;
ghost use Rattle.sy_meaning_words.specs.Vectors.{vector, owned, is_bits};
ghost use Rattle.sy_meaning_words.specs.Laws as law;

use crate::operators::operator_value;
use crate::pairs::apply_pairs;
use crate::word::Word;
use sy_meaning_core::Number;
use sy_terms::{Applied, Op, Sort, Sorted, Theory, Value};
use sy_terms_operators::operator_sort;

/// A word stands for its vector.
impl Number for Word {
    ghost denotes = { vector };

    ghost no_truth = { law.no_truth };

    fn is_same(self, other: Word) -> bool {
        self.width() == other.width() && self.bits() == other.bits()
    }
}

/// SMT-LIB's theories Core and FixedSizeBitVectors, whose vectors of 1 to 64 bits are words.
///
/// `apply` takes no memory, and always answers the operator's value.
#[derive(Clone, Copy, Debug, PartialEq, Eq, PartialOrd, Ord, Hash)]
pub struct BvTheory;

impl Theory for BvTheory {
    type Num = Word;

    ghost denotes = { vector };

    ghost owned = { owned };

    ghost numeric = { is_bits };

    fn owns(op: &Op) -> bool {
        !in_ints(op)
    }

    fn sort_of(op: &Op, args: &[Sort]) -> Sorted {
        operator_sort(op, args)
    }

    fn apply(op: &Op, args: &[Value<Word>]) -> Applied<Word> {
        Applied::Is(operator_value(op, args))
    }

    fn apply_each(op: &Op, values: &mut [Value<Word>], others: &[Value<Word>]) -> Option<usize> {
        apply_pairs(op, values, others);
        None
    }

    fn value_sort(v: &Value<Word>) -> Sort {
        match v {
            Value::Truth(_) => Sort::Bool,
            Value::Num(word) => Sort::Bits(word.width()),
        }
    }

    fn of_number(sort: Sort, n: i128) -> Option<Word> {
        match (sort, u64::try_from(n)) {
            (Sort::Bits(width), Ok(bits)) => Word::new(width, bits),
            _ => None,
        }
    }

    fn number(n: Word) -> i128 {
        i128::from(n.bits())
    }

    ghost one_to_one = { law.one_to_one };

    ghost equal = { law.equal };

    ghost no_truth = { law.no_truth };

    ghost sorted = { law.sorted };

    ghost core = { law.core };

    ghost negation = { law.negation };
}

/// Whether the operator is one of Ints'.
fn in_ints(op: &Op) -> bool
    ensures { result ≡ theories.in_ints op.now }
{
    matches!(
        op,
        Op::Neg
            | Op::Sub
            | Op::Add
            | Op::Mul
            | Op::Div
            | Op::Mod
            | Op::Abs
            | Op::Le
            | Op::Lt
            | Op::Ge
            | Op::Gt
    )
}
