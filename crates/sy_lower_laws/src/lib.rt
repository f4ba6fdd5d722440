// The laws of lowering a query of the integers: without division, remainder and absolute value, the same solutions.
#![tactic(auto)]

ghost use Rattle.std.specs.Prelude.{◌≡◌, false};
ghost use Rattle.sy_query_base.specs.Asked.{Query};
ghost use Rattle.sy_lower_laws.specs.Laws.{IsLowering, IsOverIntegers, IsSmall};
ghost use Rattle.sy_lower_laws.specs.Lowering.{has_divisions, lowering};

/// The laws of lowering.
///
/// A query over the integers that fits is satisfied by an assignment exactly where its lowering is by some extension of
/// it. The lowering is at most so much larger than the query's weight. A query without division, remainder and
/// absolute value is its own lowering. That constants are truth values and whole numbers holds of each kept term of the
/// integers (`proofs/Integers`).
pub fn lowerings()
    ensures law { (query : Query) → IsOverIntegers query → IsLowering query (lowering query) }
    ensures bounds { (query : Query) → IsOverIntegers query → IsSmall query (lowering query) }
    ensures own { (query : Query) → has_divisions query.body ≡ false → lowering query ≡ query }
{}
