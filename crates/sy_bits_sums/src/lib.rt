// Sums of products of numbered values, modulo a power of two, in one normal form.
#![tactic(auto)]

mod modular;
mod monomial;
mod sides;
mod sum;

pub use modular::greatest;
pub use monomial::Monomial;
pub use sides::Sides;
pub use sum::Sum;
