//! When a session has to be renewed.

ghost use Rattle.std.specs.Prelude.{◌≡◌};
ghost use Rattle.jwt_validation.specs.Claim.{claims_of};
ghost use Rattle.jwt_validation.specs.Moments.{last_moment};
ghost use Rattle.jwt_validation.specs.OptionsOf.{options_of};
ghost use Rattle.jwt_example.specs.Session.{session_value};

use crate::session::Session;
use jsonwebtoken::Validation;

/// Returns the last time at which a token of the session is accepted, by the `moments` of
/// the laws of `decode`. It is the end of the session and the leeway, less the time that must be
/// left.
pub fn last_moment(validation: &Validation, session: &Session) -> u64
    ensures { result ≡ last_moment (options_of validation.now)
        (claims_of (session_value session.now)) }
{
    if !validation.validate_exp {
        return u64::MAX;
    }
    let last = u128::from(session.ends) + u128::from(validation.leeway);
    let left = u128::from(validation.reject_tokens_expiring_in_less_than);
    let last = last.saturating_sub(left);
    if last <= u128::from(u64::MAX) {
        last as u64
    } else {
        u64::MAX
    }
}
