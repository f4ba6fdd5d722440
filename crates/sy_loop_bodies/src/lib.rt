// Bodies that are tried one by one: kept terms, and what rules give of them in the order of a scan, each judged and
// then decided for itself.
#![tactic(auto)]

mod aside;
mod assignments;
mod body;
mod columns;
mod guess;
mod judging;
mod kept;
mod mixed;
mod points;
mod retrying;
mod scanning;
mod shapes;
mod trial;
mod tuples;
mod wishes;

pub use aside::Aside;
pub use assignments::copied_assignments;
pub use body::{Effort, Task};
pub use columns::{number, point_of};
pub use guess::{is_small, kept_at};
pub use kept::solve_kept;
pub use mixed::mixed_assignment;
pub use points::points_of;
pub use retrying::solve_aside;
pub use scanning::solve_scanned;
pub use trial::try_term;
pub use tuples::{wished_tuples, wishes_of};
pub use wishes::{Wish, wishes_at};
