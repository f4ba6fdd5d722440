// What generic code knows of a theory.
use crate::op::Op;
use crate::sort::{Sort, Value};
use crate::sorts::Sorted;
use std::hash::Hash;

/// What an operator gives on a machine's numbers.
#[derive(Clone, Copy, Debug, PartialEq, Eq)]
pub enum Applied<N> {
    /// The value.
    Is(Value<N>),
    /// The value or a partial value lies outside `-2^127` to `2^127 - 1`.
    OutOfRange,
}

/// A theory: its operators, and numbers that each stand for one whole number of a sort.
pub trait Theory {
    /// A number as the machine keeps it.
    type Num: Copy + Eq + Ord + Hash;

    ghost use Rattle.std.specs.Prelude.{◌≡◌, ◌≢◌, ◌↔◌, ◌<◌, IsTrue, Option, List, ℕ, Bool, map, length, IsSome, MatchOption, true, None, if◌then◌else◌};
    ghost use Rattle.std.specs.Option.{option_map};
    ghost use Rattle.sy_terms.specs.Values.{Val, Truth};
    ghost use Rattle.sy_terms.specs.Operators.{op_value};
    ghost use Rattle.sy_terms.specs.Sorts as spec;
    ghost use Rattle.sy_terms.specs.Theories.{sort_of_value, whole_number, value_at, in_core};
    ghost use Rattle.sy_terms.specs.Denoted.{val_of, vals_of, IsSorted, Applies};
    ghost use Rattle.sy_terms.specs.Pairs.{ArePairsSorted, ArePairsApplied, IsFirstUnfit};
    ghost use Rattle.sy_terms.specs.declared.op.Op.{Op};
    ghost use Rattle.sy_terms.specs.declared.op.Op.TheVariants as ops;
    ghost use Rattle.sy_terms.specs.declared.sort.Sort.{Sort};
    ghost use Rattle.sy_terms.specs.declared.sort.Sort.TheVariants as sorts;

    /// What a number stands for.
    ghost denotes: { Self.Num → Val };

    /// The operators of the theory's logic.
    ghost owned: { Op → Bool };

    /// The sorts of the theory's numbers.
    ghost numeric: { Sort → Bool };

    /// Whether the operator belongs to the theory's logic.
    fn owns(op: &Op) -> bool
        ensures { result ≡ owned op.now };

    /// The sort of the operator's value, or what is amiss with the arguments.
    fn sort_of(op: &Op, args: &[Sort]) -> Sorted
        requires { owned op.now ≡ true }
        ensures { result ≡ spec.sort_of op.now args.now };

    /// The operator's value, or `OutOfRange` exactly where it or a partial value doesn't fit 128 bits.
    fn apply(op: &Op, args: &[Value<Self::Num>]) -> Applied<Self::Num>
        requires owned { owned op.now ≡ true }
        requires sorted { IsSorted op.now (map (val_of denotes) args.now) }
        ensures { Applies denotes op.now (map (val_of denotes) args.now) result };

    /// Puts the operator's value at each value and the other of its place into that value's place, up to the first
    /// place where it doesn't fit 128 bits, and answers that place.
    fn apply_each(
        op: &Op,
        values: &mut [Value<Self::Num>],
        others: &[Value<Self::Num>],
    ) -> Option<usize>
        requires owned { (place : ℕ) → place < length values.old → owned op.now ≡ true }
        requires same { length others.now ≡ length values.old }
        requires sorted { ArePairsSorted op.now (vals_of denotes values.old) (vals_of denotes others.now) }
        ensures { MatchOption result (ArePairsApplied op.now
            (vals_of denotes values.old) (vals_of denotes others.now) (vals_of denotes values.new))
            (IsFirstUnfit op.now (vals_of denotes values.old) (vals_of denotes others.now)) };

    /// The value's sort.
    fn value_sort(v: &Value<Self::Num>) -> Sort
        ensures { result ≡ sort_of_value (val_of denotes v.now) };

    /// The number of the sort that stands for `n`, where there is one.
    fn of_number(sort: Sort, n: i128) -> Option<Self::Num>
        ensures { option_map denotes result ≡ (if numeric sort then value_at sort n else None) };

    /// The whole number that `n` stands for.
    fn number(n: Self::Num) -> i128
        ensures { result ≡ whole_number (denotes n) };

    /// No two numbers stand for the same.
    ghost one_to_one: { (m n : Self.Num) → denotes m ≡ denotes n → m ≡ n };

    /// Numbers that compare as equal stand for the same.
    ghost equal: { (m n : Self.Num) → Self.Num.eq m n ≡ true → denotes m ≡ denotes n };

    /// No number stands for a truth value.
    ghost no_truth: { (n : Self.Num) (truth : Bool) → denotes n ≢ Truth truth };

    /// Each number is of a sort of the theory.
    ghost sorted: { (n : Self.Num) → numeric (sort_of_value (denotes n)) ≡ true };

    /// The operators of Core belong to every logic.
    ghost core: { (op : Op) → in_core op ≡ true → owned op ≡ true };

    /// A logic with integers has their negation.
    ghost negation: { numeric sorts.Int ≡ true → owned ops.Neg ≡ true };
}
