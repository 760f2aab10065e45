//! Rows of test vectors: the inputs that a row describes, its call, and the result as a JSON value.
//! `crates/jwt_vectors/README.md` has their form.
//!
//! For the crates of rows (`jwt_rows_values` and `jwt_rows_tokens`), whose functions make the calls,
//! and `jwt_vectors`, which reads the files and compares.
//!
//! A type that a row describes is an [`Input`], as `row.input::<Validation>("validation")`, and a
//! result that a row wants is an [`Output`]. [`trial`] runs a row with its Nth request for memory
//! refused, and finds a call that goes on as if nothing were, or changes a value that it should
//! leave.
#![tactic(auto)]

pub mod answer;
pub mod bytes;
pub mod calls;
pub mod input;
pub mod inputs;
pub mod output;
pub mod row;
pub mod trial;

pub use answer::Answer;
pub use input::Input;
pub use output::{Output, Refuse};
pub use row::Row;
