//! The base of the tests: providers of signatures that prove the provider laws.
//!
//! For the row crates alone; no library or program of a release uses it. The contract of `decode`
//! holds for every provider that proves the laws of `jwt_keys::provider`, so the rows need more
//! than those that sign and verify: `YesProvider` accepts every signature, `NoProvider` refuses
//! every factory, `LongSecrets` refuses short secrets, and `TableProvider` does what a table says.
//!
//! A row names one by `provider`, as `crates/jwt_vectors/README.md` says. All of them are in
//! [`providers`], and each has the clauses of the trait's calls, which the prover holds it to like
//! any provider of a user.
#![tactic(auto)]

pub mod providers;
