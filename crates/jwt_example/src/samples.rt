//! The samples of the README and of docs/USING.md.

mod finder;
mod key_set;
mod reasons;
mod secret;
mod signature;
mod verdict;

use crate::fault::Fault;
use secret::{TOKEN, verify_with_secret};
use std::rt::Runtime;

/// Prints the result of each sample.
pub fn show_samples<T: Runtime + AllocGlobal>(rt: &T) -> Result<(), Fault> {
    show_with_secret(rt)?;
    key_set::show(rt)?;
    verdict::show(rt)?;
    reasons::show(rt)
}

/// Prints the claims of a token, and the tokens that are issued for them.
fn show_with_secret<T: Runtime + AllocGlobal>(rt: &T) -> Result<(), Fault> {
    let claims = verify_with_secret(rt.alloc(), TOKEN.as_bytes(), 0)?;
    println!(rt; "{claims}")?;
    secret::show(rt, &claims)?;
    signature::show(rt, &claims)
}
