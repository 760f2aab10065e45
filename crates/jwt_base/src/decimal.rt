//! Numbers in decimal digits.

ghost use Rattle.std.specs.Prelude.{◌≡◌};
ghost use Rattle.jwt_base.specs.Decimal.{decimal_value};

/// Returns the number that one or more decimal digits stand for, if it has at most 64 bits. A text
/// with a sign has none.
pub fn decimal_number(text: &str) -> Option<u64>
    ensures { result ≡ decimal_value text.now }
{
    if text.starts_with('+') {
        return None;
    }
    text.parse::<u64>().ok()
}
