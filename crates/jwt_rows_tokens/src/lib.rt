//! Rows about keys, signatures and tokens.
//!
//! For `jwt_vectors`, the program of the rows; the other rows are in `jwt_rows_values`, so that the
//! two are proved side by side.
//!
//! Each function makes the calls of one type, or of one group, by their names: a row with
//! `"call":"decode"` is answered by a function of [`tokens`], and one with
//! `"call":"PreparedHmac::add"` by one of [`prepared`]. A new row of a call that is here is a line
//! of a file in `crates/jwt_vectors/data`; a new call is an arm of a `match`.
//!
//! A row's expected result is from a standard, from another implementation, or from this library's
//! own rules, a section of `docs/RULES.md`: its member `from` says which. The README of `jwt_vectors`
//! lists the programs that answer rows without this library.
#![tactic(auto)]

pub mod by_provider;
pub mod external_signature;
pub mod files;
mod issue;
mod jwks;
pub mod kept;
pub mod keys;
pub mod places;
pub mod prepared;
mod providers;
pub mod sizes;
pub mod tokens;
