// Rules over kept terms, and combinations of these.
ghost use Rattle.std.specs.Prelude.{◌≡◌, IfSome, Some, true};
ghost use Rattle.sy_loop_scan.specs.Guesses.{IsGuess, total_size};

use sy_terms::{Op, Sort};

/// A rule that applies an operator to kept terms.
#[derive(Drop)]
pub struct Shape {
    /// The rule's number.
    pub rule: u32,
    /// The operator.
    pub operator: Op,
    /// What the rule adds to the sizes of its parts.
    pub size: u32,
    /// The pool that each part comes from, from left to right.
    pub operands: Vec<u32>,
}

/// Kept terms of one nonterminal, by ascending size.
#[derive(Drop)]
pub struct Pool {
    /// Their sort.
    pub sort: Sort,
    /// The size of each.
    pub sizes: Vec<u32>,
}

/// A combination: the place of a shape, and for each of its operands the place of a kept term in its pool.
#[derive(Drop)]
pub struct Guess {
    pub shape: usize,
    pub parts: Vec<usize>,
}

#[tactic(auto, unfolding(crate::specs::Guesses::total_size, crate::specs::Guesses::added, crate::specs::Guesses::size_in))]
/// The sum of the sizes of the kept terms at these places of the operands' pools. `None` where there are more of the
/// one list than of the other, where a place lies outside, or where the sum needs more than 32 bits.
fn size_of(pools: &[Pool], operands: &[u32], parts: &[usize]) -> Option<u32>
    ensures { IfSome result (λ size. total_size pools.now operands.now parts.now ≡ Some size) }
{
    let Some((operand, operands)) = operands.split_first() else {
        return if parts.is_empty() { Some(0) } else { None };
    };
    let (part, parts) = parts.split_first()?;
    let size = *pools.get(*operand as usize)?.sizes.get(*part)?;
    let rest = size_of(pools, operands, parts)?;
    size.checked_add(rest)
}

/// Whether the combination is of these shapes and pools, and within the bound.
pub(crate) fn is_within(shapes: &[Shape], pools: &[Pool], bound: u32, guess: &Guess) -> bool
    ensures { result ≡ true → IsGuess shapes.now pools.now bound guess.now }
{
    let Some(shape) = shapes.get(guess.shape) else {
        return false;
    };
    match size_of(pools, shape.operands.as_slice(), guess.parts.as_slice()) {
        Some(size) => match shape.size.checked_add(size) {
            Some(total) => total <= bound,
            None => false,
        },
        None => false,
    }
}
