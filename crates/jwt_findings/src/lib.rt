//! Sentences about a token that is refused, or a file that holds no keys: what was found, and what is
//! accepted instead.
//!
//! For `jwt_command`, whose `explain`, `verify`, `show` and `sign` say it. A [`Finding`] is what a
//! failed test found and what it asks for: "exp 2026-01-31T12:00:00Z, expired 3 h 12 min ago" and
//! "exp at most 1 min 0 s ago (--leeway)". It is found by calls of the library, on the token that
//! the library refused ([`CheckedToken`]), and decides nothing: whether a token is accepted is
//! decided and proved elsewhere.
//!
//! The functions fail for memory alone. Their texts are tested, by the rows of
//! `tests/programs/jwt.jsonl`, and no clause says them. [`escape_unseen`] alone has a contract: what
//! it escapes, and how, is proved.
//!
//! ```rust
//! let order = order(case.loaded.keys.keys());
//! Ok(Answer {
//!     status: 1,
//!     output: refusal_text(alloc, case.checked(), order, validation, reason, form)?,
//!     message: skipped_note(alloc, case.loaded.skipped)?,
//! })
//! ```
#![tactic(auto)]

mod attempts;
mod checked;
mod claim_findings;
mod contents;
mod escapes;
mod explanation;
mod file_kinds;
mod findings;
mod outcomes;
mod pages;
mod part_findings;
mod refusal_lines;
mod refusals;
mod salvage;
mod sentences;
mod signature_findings;
mod times;
mod unsigned;
mod wrappings;

pub use attempts::value_unless_refused;
pub use checked::{CheckedKeys, CheckedToken};
pub use contents::{contents_text, salvage_texts};
pub use escapes::{escape_unseen, is_unseen};
pub use explanation::{ExplanationForm, acceptance_text, refusal_text};
pub use file_kinds::{key_problem, pem_problem, set_problem};
pub use findings::Finding;
pub use refusal_lines::{refusal_json, short_refusal_json};
pub use refusals::{TokenRefusal, token_refusal_line, token_refusal_lines};
pub use unsigned::unsigned_line;
