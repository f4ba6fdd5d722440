// Linear forms, what facts on them and truth values tell of a query, and trees that refute one.
#![tactic(auto)]

mod answer;
mod application;
mod arithmetic;
mod coefficients;
mod comparisons;
mod facts;
mod form;
mod key;
mod number;
mod path;
mod queries;
mod sight;
mod tree;
mod truths;
mod walk;

pub use answer::Known;
pub use form::{Form, FormEnd};
pub use path::{Fact, Path, Test, given};
pub use queries::{is_numbered, known, known_under};
pub use tree::{CheckEnd, Tree};
