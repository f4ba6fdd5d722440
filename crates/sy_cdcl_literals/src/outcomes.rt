// What becomes of a clause of which one literal's value is still to be looked at.
ghost use Rattle.std.specs.Prelude.{◌≡◌, true};
ghost use Rattle.sy_clauses.specs.Clauses.{Clause};
ghost use Rattle.sy_clauses.specs.New.{Partial};
ghost use Rattle.sy_cdcl_literals.specs.Suiting.{IsTruthOf, IsFalseBut, Suits};

use sy_clauses::Lit;

/// A literal's value.
#[derive(Clone, Copy, Drop)]
pub enum Truth {
    True,
    False,
    Open,
}

/// Two literals of a clause.
#[derive(Clone, Copy, Drop)]
pub struct Pair {
    pub first: Lit,
    pub second: Lit,
}

/// What becomes of a clause where a literal that it watches has become false. A clause that is to watch
/// another has the pair, and the place of the new literal.
#[derive(Clone, Copy, Drop)]
pub enum Outcome {
    Stay,
    Move(Pair, usize),
    Force(Lit),
    Conflict,
}

/// What becomes of a clause that has this literal, and whose others are false, by the literal's value.
pub fn outcome_of(truth: Truth, literal: Lit) -> Outcome
    ensures { (values : Partial) (clause : Clause) → clause literal.var literal.positive ≡ true →
        IsFalseBut values clause literal →
        IsTruthOf values literal truth → Suits values clause literal result }
{
    match truth {
        Truth::True => Outcome::Stay,
        Truth::Open => Outcome::Force(literal),
        Truth::False => Outcome::Conflict,
    }
}
