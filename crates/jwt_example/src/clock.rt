//! The time, from the system's clock.

use std::io;
use std::time::{Clock, SystemTime, UNIX_EPOCH};

/// Returns the time by the system's clock, in whole seconds since 1970-01-01 00:00:00 UTC. A
/// clock that is set before then is a fault.
pub fn current_time(clock: &impl Clock) -> io::Result<u64> {
    let time = SystemTime::now(clock)?;
    match time.duration_since(UNIX_EPOCH) {
        Ok(duration) => Ok(duration.as_secs()),
        Err(_) => Err(io::Error::from(io::ErrorKind::InvalidData)),
    }
}
