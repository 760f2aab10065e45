//! Times as people read them.

use jiff::Timestamp;
use serde_json::Value;
use std::alloc::{AllocError, Global};

/// The claims that are times (RFC 7519 section 4.1, OpenID Connect Core 1.0 sections 2 and 5.1).
const TIME_CLAIMS: [&str; 5] = ["exp", "nbf", "iat", "auth_time", "updated_at"];

/// A time from which on a number of seconds is likely one of milliseconds: the year 5138.
const LIKELY_MILLISECONDS: u64 = 100_000_000_000;

/// Returns whether a time in seconds was likely meant in milliseconds.
pub fn is_likely_milliseconds(seconds: u64) -> bool {
    seconds >= LIKELY_MILLISECONDS
}

/// Returns a span as its two greatest units, such as `3 h 12 min`.
pub fn span_text(alloc: Global, seconds: u64) -> Result<String, AllocError> {
    let minutes = seconds / 60;
    let hours = minutes / 60;
    let days = hours / 24;
    if days > 0 {
        return format!(in alloc; "{days} d {} h", hours % 24);
    }
    if hours > 0 {
        return format!(in alloc; "{hours} h {} min", minutes % 60);
    }
    if minutes > 0 {
        return format!(in alloc; "{minutes} min {} s", seconds % 60);
    }
    format!(in alloc; "{seconds} s")
}

/// Returns a time by RFC 3339, or its number if it is after the year 9999.
pub fn time_text(alloc: Global, seconds: u64) -> Result<String, AllocError> {
    let time = match i64::try_from(seconds) {
        Ok(seconds) => Timestamp::from_second(seconds).ok(),
        Err(_) => None,
    };
    match time {
        Some(time) => format!(in alloc; "{time}"),
        None => format!(in alloc; "{seconds}, after the year 9999"),
    }
}

/// Returns how long a time is away from now, such as `in 5 min 0 s` or `3 h 12 min ago`.
pub fn distance_text(alloc: Global, seconds: u64, time: u64) -> Result<String, AllocError> {
    if seconds >= time {
        format!(in alloc; "in {}", span_text(alloc, seconds - time)?)
    } else {
        format!(in alloc; "{} ago", span_text(alloc, time - seconds)?)
    }
}

/// Returns the lines of the claims that are times.
pub fn claim_lines(alloc: Global, claims: &Value, time: u64) -> Result<String, AllocError> {
    let mut lines = String::new(alloc);
    for name in &TIME_CLAIMS {
        if let Some(line) = claim_line(alloc, claims, name, time)? {
            lines.push_str(line.as_str())?;
        }
    }
    Ok(lines)
}

/// Returns the line of a claim that is a time, if there is one.
fn claim_line(
    alloc: Global,
    claims: &Value,
    name: &str,
    time: u64,
) -> Result<Option<String>, AllocError> {
    match claims.get(name).and_then(Value::as_u64) {
        Some(seconds) => Ok(Some(seconds_line(alloc, name, seconds, time)?)),
        None => Ok(None),
    }
}

/// Returns the line of a claim that is this number of seconds.
fn seconds_line(alloc: Global, name: &str, seconds: u64, time: u64) -> Result<String, AllocError> {
    if is_likely_milliseconds(seconds) {
        let meant = time_text(alloc, seconds / 1000)?;
        return format!(in alloc;
            "{name}: {seconds} looks like milliseconds, {meant}; JWT times are in seconds\n"
        );
    }
    let text = time_text(alloc, seconds)?;
    let distance = distance_text(alloc, seconds, time)?;
    format!(in alloc; "{name}: {text}, {distance}\n")
}
