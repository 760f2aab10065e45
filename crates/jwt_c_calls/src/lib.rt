//! The calls for C over slices and results; `jwt_c` exports them.
//!
//! For `jwt_c` alone; a program in C takes `packages/c/include/jwtproved.h`.
//!
//! Each call has a function here that returns what the call leaves in the buffer, or a `CallError`:
//! a text that can't be read, such as options that are no JSON, or the library's own refusal. Its
//! contract is a definition of `specs/Calls.antt`, `specs/BySignature.antt` or a file next to them,
//! over the texts that C passes. [`status_table`] has the numbers and texts of the statuses, with
//! which the header, the packages and RULES are compared.
//!
//! `rules_answer(alloc, claims, options, time)` checks claims by the rules of options, which it reads
//! first.
//!
//! [`handle`] is the struct of a caller that holds keys or verifiers ([`content`]), and
//! [`handle_results`] has what the calls leave in it. [`key_sources`] reads keys of bytes, [`held_keys`]
//! tells what each can do, and [`key_forms`] writes one. [`verifiers`] makes a
//! `jwt_verifier::Verifier` of keys and options, and [`verdicts`] verifies tokens with one or several.
//! [`exact`] has the rule of what is signed byte for byte, and [`as_signed`] that of what is handed out.
//!
//! [`test_numbers`] has the numbers of the tests of a token, and [`texts`] the text of every number.
#![tactic(auto)]

pub mod acceptors;
pub mod answers;
pub mod as_signed;
pub mod asked;
pub mod by_signature;
pub mod claim_rules;
pub mod content;
pub mod exact;
pub mod handle;
pub mod handle_results;
pub mod held_keys;
pub mod inputs;
pub mod issued;
pub mod key_forms;
pub mod key_sources;
pub mod members;
pub mod membership;
pub mod options;
mod raw_box;
pub mod signatures;
pub mod status;
pub mod status_table;
pub mod test_numbers;
pub mod texts;
pub mod unverified;
pub mod verdicts;
pub mod verifiers;
