//! The claim rules of a token (RFC 7519 section 4.1).
//!
//! [`Validation`] has the options, [`validate`] checks claims against them at a given time,
//! [`broken_rules`] lists all rules that fail, and [`claimed_moments`] returns the times that the
//! claims allow. [`options_fault`] says what keeps a JSON value from being options.
//!
//! ```rust
//! let mut validation = Validation::new_strict(alloc, Algorithm::RS256)?;
//! validation.set_issuer(alloc, &["https://login.example"])?;
//! validation.set_audience(alloc, &["my-service"])?;
//! validation.require_configured(alloc)?; // a token without iss or aud is refused
//! ```
#![tactic(auto)]

mod broken;
mod check;
mod claims;
mod clock;
mod fault;
mod from_json;
mod interval;
mod rules;
mod validation;

pub use broken::broken_rules;
pub use check::validate;
pub use clock::{Clock, get_current_timestamp};
pub use fault::{Form, OptionsFault, options_fault};
pub use interval::{Moments, claimed_moments};
pub use rules::Rule;
pub use validation::Validation;
