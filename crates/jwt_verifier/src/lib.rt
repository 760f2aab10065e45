//! A verifier, which is made once from keys and options, and then decides many tokens.
//!
//! [`Verifier`] refuses [`Keys`] with which anyone can sign, or that serve nobody ([`KeyProblem`]), and
//! verifies all twelve algorithms. [`Limits`] bounds the length of a token and what is kept
//! prepared. It keeps its keys in a [`KeyRing`]: a finder of keys, each of which is found by an
//! index of `kid` and kept prepared.
//!
//! ```rust
//! match Verifier::with_limits(alloc, keys, validation, limits) {
//!     Ok(verifier) => Ok(verifier),
//!     Err(problem) => Err(status_of_problem(problem)),
//! }
//! ```
#![tactic(auto)]

mod budget;
mod entry;
mod fitness;
mod key_ring;
mod key_verifier;
mod keys;
mod limits;
mod ring_finder;
mod threads;
mod verifier;

pub use entry::Prepared;
pub use fitness::KeyProblem;
pub use key_ring::KeyRing;
pub use key_verifier::KeyVerifier;
pub use keys::Keys;
pub use limits::{Limits, PREPARED_LIMIT, TOKEN_LIMIT};
pub use ring_finder::Found;
pub use threads::sendable;
pub use verifier::{Verifier, VerifierRefusal};
