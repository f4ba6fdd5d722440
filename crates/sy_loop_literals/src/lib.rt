// Literals over the arguments of a function, with no theory: terms as tokens, sums of integer arguments, comparisons,
// formulas as clauses of literals, and equalities that hold at rows. All are guides to a search: what is made of them
// is proved afterwards.
#![tactic(auto)]

mod comparisons;
mod equalities;
mod formulas;
mod given;
mod sides;
mod sums;
mod table;
mod tokens;
mod vectors;

pub use comparisons::{Compared, NAMELESS, Order, Relation, compared_at, compared_in};
pub use equalities::equalities_at;
pub use formulas::{Both, Formula, connected};
pub use given::Given;
pub use sides::{Sides, Way, ways_of};
pub use sums::{Kind, Sum, WIDTH};
pub use table::{Literal, Table, Traits};
pub use tokens::{Span, Token, part};
pub use vectors::{VectorSum, vector_sum_at};
