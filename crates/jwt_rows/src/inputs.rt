//! What rows describe, of each type.

mod errors;
mod headers;
pub mod jwks;
mod keys;
mod names;
mod operations;
mod parameters;
mod plain;
pub mod providers;
