//! The claim rules (RFC 7519 section 4.1), and the time that a clock tells.

use jsonwebtoken::errors::ErrorKind;
use jsonwebtoken::options::broken_rules;
use jsonwebtoken::{Clock, Validation, claimed_moments, get_current_timestamp, validate};
use jwt_rows::row::is_among;
use jwt_rows::{Answer, Row};

/// A clock that stands still.
#[derive(Clone, Copy)]
struct FixedClock(i64);

impl Clock for FixedClock {
    ghost use Rattle.std.specs.Prelude.{◌≡◌};

    ghost tells = { λ clock seconds. seconds ≡ clock.0 };

    fn seconds(&self) -> i64 {
        self.0
    }
}

/// Calls `validate`.
pub fn claims_are_valid(row: &Row<'_>) -> Answer {
    let options = row.input::<Validation>("validation")?;
    let claims = row.json("claims", "claims_json");
    let time = row.number("now");
    row.end(validate(row.begin(), &claims, &options, time))
}

/// Returns whether `validate` refuses with `MissingRequiredClaim` of one of the claims at `among`.
pub fn names_missing(row: &Row<'_>) -> Answer {
    let options = row.input::<Validation>("validation")?;
    let claims = row.json("claims", "claims_json");
    let refusal = validate(row.alloc(), &claims, &options, row.number("now")).err()?;
    let among = row.texts("among");
    row.give(&match refusal.kind() {
        ErrorKind::MissingRequiredClaim(name) => is_among(name.as_str(), among.as_slice()),
        _ => false,
    })
}

/// Calls `broken_rules`.
pub fn broken(row: &Row<'_>) -> Answer {
    let options = row.input::<Validation>("validation")?;
    let claims = row.json("claims", "claims_json");
    let time = row.number("now");
    row.end(broken_rules(row.begin(), &claims, &options, time))
}

/// Calls `claimed_moments`.
pub fn moments(row: &Row<'_>) -> Answer {
    let claims = row.value("claims")?;
    let options = row.input::<Validation>("validation")?;
    row.begin();
    row.give(&claimed_moments(claims, &options))
}

/// Calls `get_current_timestamp`.
pub fn timestamp(row: &Row<'_>) -> Answer {
    let clock = FixedClock(row.read::<i64>("seconds")?);
    row.begin();
    row.end(get_current_timestamp(&clock))
}
