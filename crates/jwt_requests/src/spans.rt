//! Times and spans of time, as arguments give them.

// A number of decimal digits is proved to be its value, and another time or span only to be a
// number, since the kit's `jiff` states nothing of dates and spans.

ghost use Rattle.std.specs.Prelude.{◌≡◌, ℕ, Some};
ghost use Rattle.jwt_base.specs.Decimal.{decimal_value};

use jiff::{SignedDuration, Timestamp};
use jwt_base::decimal::decimal_number;

/// Returns the time of a text, in whole seconds since 1970-01-01 00:00:00 UTC: decimal digits, or
/// a date and time of RFC 3339, whose fraction of a second is left out. `None` stands for another
/// text, and for a time before then.
pub fn parse_time(text: &str) -> Option<u64>
    ensures { (n : ℕ) → decimal_value text.now ≡ Some n → result ≡ Some n }
{
    let number = decimal_number(text);
    if number.is_some() || is_decimal(text) {
        return number;
    }
    let time = text.parse::<Timestamp>().ok()?;
    u64::try_from(time.as_second()).ok()
}

/// Returns the seconds of a span of time, such as `90s`, `15m`, `1h 30m` or `PT15M`; decimal digits
/// alone are seconds. `None` stands for another text, and for a negative span.
pub fn parse_span(text: &str) -> Option<u64>
    ensures { (n : ℕ) → decimal_value text.now ≡ Some n → result ≡ Some n }
{
    let number = decimal_number(text);
    if number.is_some() || is_decimal(text) {
        return number;
    }
    let span = text.parse::<SignedDuration>().ok()?;
    u64::try_from(span.as_secs()).ok()
}

/// Returns whether each character is a decimal digit.
fn is_decimal(text: &str) -> bool {
    text.as_bytes().iter().all(|byte| byte.is_ascii_digit())
}
