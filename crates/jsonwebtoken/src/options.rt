//! Which member keeps a JSON value from being the options of a [`Validation`](crate::Validation),
//! and why, and which of the rules that the options ask for claims break.

pub use jwt_validation::{Form, OptionsFault, Rule, broken_rules, options_fault};
