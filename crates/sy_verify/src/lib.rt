// Candidates judged with a proof: whether given bodies solve a problem.
#![tactic(auto)]

mod checked;
mod clause_writer;
mod judge;
mod members;
mod posed;
mod proof_checker;
mod rechecked;
mod spelled;

pub use checked::Checked;
pub use clause_writer::ClauseWriter;
pub use judge::verify;
pub use posed::{Posed, pose};
pub use proof_checker::{Checking, ProofChecker};
pub use rechecked::{Rechecked, recheck};
pub use spelled::{Spelled, spell};
