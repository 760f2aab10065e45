//! Rows about names, errors, JSON values, secrets by which anyone can sign, claims and validations,
//! about the types that have a JSON value (JSON Web Keys, their parameters, headers and their
//! members), and about the arithmetic below RSA and the curves.
//!
//! For `jwt_vectors`, the program of the rows; those about tokens are in `jwt_rows_tokens`, so that
//! the two are proved side by side.
//!
//! Each function makes the calls of one type, of one group, or of one trait, by their names: a row
//! with `"call":"validate"` is answered by a function of [`rules`], and one with
//! `"call":"Header::from_value"` by one of [`headers`]. A new row of a call that is here is a line
//! of a file in `crates/jwt_vectors/data`; a new call is an arm of a `match`.
//!
//! A row's expected result is from a standard, from another implementation, or from this library's
//! own rules, a section of `docs/RULES.md`: its member `from` says which. The README of `jwt_vectors`
//! lists the programs that answer rows without this library.
#![tactic(auto)]

pub mod algorithms;
pub mod arithmetic;
pub mod claims;
pub mod errors;
pub mod extras;
pub mod headers;
pub mod json;
pub mod jwks;
pub mod key_items;
pub mod operations;
pub mod parameters;
pub mod parts;
pub mod rules;
pub mod secrets;
pub mod texts;
pub mod validations;
