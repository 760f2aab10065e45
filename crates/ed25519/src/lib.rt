//! Ed25519 signatures (RFC 8032 section 5.1), verified by the bytes of a public key or by a key
//! that is prepared once. Only preparing a key allocates, and nothing runs in constant time: keys,
//! messages and signatures are public.
//!
//! For `jwt_curves`, and for whoever verifies such signatures without tokens: `is_signature(public,
//! message, signature)` of [`verification`] returns whether the 64 bytes are a signature of the
//! message, and `prepare_key` of [`prepared`] a key with its comb, by which a verification is three
//! times as fast.
//!
//! `specs/Ed25519.antt` has the RFC's steps, which the contracts name, without the cofactor; the
//! sums behind them are the group's, by `edwards`.
#![tactic(auto)]

mod base_comb;
mod base_table;
mod comb;
mod constants;
pub mod decoding;
mod encoding;
pub mod field;
pub mod group;
pub mod joint;
pub mod moduli;
pub mod prepared;
pub mod verification;
