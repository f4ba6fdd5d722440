// Verdicts on the replies of others: what judges find of each, and the line that says it.
#![tactic(auto)]

mod judge;
mod line;
mod rechecking;
mod spelling;
mod text;
mod verdicts;
mod verifying;

pub use judge::Judge;
pub use rechecking::Rechecking;
pub use spelling::Spelling;
pub use text::{
    put_accepted, put_budget, put_clauses, put_holds, put_no_clauses, put_not_member, put_refuted,
    put_rejected,
};
pub use verdicts::{Claims, Judged, judge_all};
pub use verifying::Verifying;
