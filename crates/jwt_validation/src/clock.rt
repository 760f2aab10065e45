//! The time at which a token is checked.

ghost use Rattle.std.specs.Prelude.{◌≡◌, ◌<ℤ◌, ℤ, pos, IfOk, IfErr, MatchResult};
ghost use Rattle.jwt_base.specs.Kind as kind;
ghost use Rattle.jwt_base.specs.KindOf.{kind_of};

use jwt_base::errors::{ErrorKind, Result, new_error};

/// A clock.
pub trait Clock {
    // The times that the clock may return.
    ghost tells: { Self → ℤ → Type 0 };

    /// Returns the whole seconds since 1970-01-01 00:00:00 UTC, negative before then.
    fn seconds(&self) -> i64
        ensures { tells self.now result };
}

/// Returns the whole seconds since 1970-01-01 00:00:00 UTC that the clock tells. A time before
/// then is refused with `ClockBeforeEpoch`.
pub fn get_current_timestamp<C: Clock>(clock: &C) -> Result<u64>
    ensures ok { IfOk result (λ n. C.tells clock.now (pos n)) }
    ensures err { IfErr result (λ e. (kind_of e ≡ kind.ClockBeforeEpoch)
        × ((z : ℤ) × C.tells clock.now z × (z <ℤ pos 0))) }
    ensures one_answer { (z : ℤ) → ((y : ℤ) → C.tells clock.now y → y ≡ z)
        → MatchResult result (λ n. pos n ≡ z) (λ _. z <ℤ pos 0) }
{
    let seconds = clock.seconds();
    if seconds < 0 {
        return Err(new_error(ErrorKind::ClockBeforeEpoch));
    }
    Ok(seconds as u64)
}
