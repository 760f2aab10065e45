//! The time at which tokens are checked.

ghost use Rattle.std.specs.Prelude.{IfOk};
ghost use Rattle.jwt_command.specs.Commands.{IsGiven};

use jwt_requests::Fault;
use std::rt::Clock;
use std::time::{SystemTime, UNIX_EPOCH};

/// Returns the time that is given, or that of the system's clock, in seconds since 1970-01-01
/// 00:00:00 UTC.
pub fn current_time<R: Clock>(rt: &R, given: Option<u64>) -> Result<u64, Fault<'static>>
    ensures { IfOk result (IsGiven given) }
{
    if let Some(time) = given {
        return Ok(time);
    }
    let Ok(time) = SystemTime::now(rt) else {
        return Err(Fault::Clock);
    };
    match time.duration_since(UNIX_EPOCH) {
        Ok(duration) => Ok(duration.as_secs()),
        Err(_) => Err(Fault::Clock),
    }
}
