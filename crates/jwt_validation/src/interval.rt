//! The times that the claims of a token allow (RFC 7519 sections 4.1.4 and 4.1.5).

ghost use Rattle.std.specs.Prelude.{◌≡◌, ◌+◌, ◌-◌, min};
ghost use Rattle.serde_json.specs.View.{view};
ghost use Rattle.jwt_validation.specs.Claim.{claims_of};
ghost use Rattle.jwt_validation.specs.Moments.{first_moment, last_moment, end_of_time};
ghost use Rattle.jwt_validation.specs.OptionsOf.{options_of};
ghost use Rattle.jwt_validation.specs.private_clauses.ClaimsSeen.{claims_seen};

use crate::claims::{Claim, SpecClaims};
use crate::validation::Validation;
use serde_json::Value;

/// The times from one to another, both included, in whole seconds since 1970-01-01 00:00:00 UTC.
#[derive(Clone, Copy, Debug, PartialEq, Eq)]
pub struct Moments {
    /// The first time.
    pub first: u64,
    /// The last time; `u64::MAX` stands for all that come after it too.
    pub last: u64,
}

/// Returns the times that the claims `nbf` and `exp` allow, as far as the options check them. If
/// the first lies after the last, they allow none.
///
/// The first time is `nbf` less the leeway, and 0 if that is negative. The last one is `exp` and
/// the leeway, less the time that must be left. Other rules of [`validate`](crate::validate) may
/// refuse the claims at every time.
pub fn claimed_moments(claims: &Value, options: &Validation) -> Moments
    ensures first { result.first ≡ first_moment (options_of options.now)
        (claims_of (view claims.now)) }
    ensures last { result.last ≡ last_moment (options_of options.now)
        (claims_of (view claims.now)) }
{
    let claims = SpecClaims::read(claims);
    Moments {
        first: first_moment(&claims, options),
        last: last_moment(&claims, options),
    }
}

fn first_moment(claims: &SpecClaims, options: &Validation) -> u64
    ensures { result ≡ first_moment (options_of options.now) (claims_seen claims.now) }
{
    match claims.nbf {
        Claim::Value(nbf) if options.validate_nbf => nbf.saturating_sub(options.leeway),
        _ => 0,
    }
}

fn last_moment(claims: &SpecClaims, options: &Validation) -> u64
    ensures { result ≡ last_moment (options_of options.now) (claims_seen claims.now) }
{
    match claims.exp {
        Claim::Value(exp) if options.validate_exp => last_before(
            exp,
            options.leeway,
            options.reject_tokens_expiring_in_less_than,
        ),
        _ => u64::MAX,
    }
}

// Returns the last time from which this much is left until the end and the leeway.
fn last_before(exp: u64, leeway: u64, left: u64) -> u64
    ensures { result ≡ min (exp + leeway - left) end_of_time }
{
    let end = u128::from(exp) + u128::from(leeway);
    let last = end.saturating_sub(u128::from(left));
    if last <= u128::from(u64::MAX) {
        last as u64
    } else {
        u64::MAX
    }
}
