//! The parameters of JSON Web Keys (RFC 7517, RFC 7518 section 6, RFC 8037 section 2): the values
//! that are known by their names, those that every key may have, and those of each type of key.
//!
//! For whoever builds or inspects a `Jwk` field by field; to verify with one, take
//! `jsonwebtoken::jwk`, which exports these types.
//!
//! A key is `CommonParameters` ([`common`]), such as `kid`, `alg` and `use`, with
//! [`parameters::AlgorithmParameters`], of which there is a variant for each type of key: RSA, a
//! curve (RFC 7518 section 6.2), an octet key pair (RFC 8037), a secret, and `Other`, which keeps
//! the members of a type that the library doesn't know. Each type is read from a JSON value and
//! written to one, and what is written reads back.
#![tactic(auto)]

pub mod common;
pub mod curves;
pub mod elliptic;
pub mod free_members;
pub mod key_types;
mod members;
pub mod octet;
pub mod octet_pair;
pub mod operations;
pub mod other;
pub mod parameters;
pub mod rsa;
pub mod thumbprints;
pub mod uses;
