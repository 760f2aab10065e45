//! Reading files and standard input.

ghost use Rattle.std.specs.Prelude.{◌≤◌, length, IfOk, IfSome};
ghost use Rattle.jwt_command.specs.LineEnd.{IsLessLineEnd};

use jwt_requests::Fault;
use jwt_verifier::TOKEN_LIMIT;
use std::alloc::Global;
use std::fs;
use std::io::{self, ErrorKind, Read};
use std::rt::Files;

/// The greatest number of bytes of a file, and of standard input that is no token: 64 MiB.
const FILE_LIMIT: usize = 67_108_864;

/// Returns the bytes of a file, of which there is at least one and at most 64 MiB.
pub fn file_bytes<'a, R: Files + AllocGlobal>(rt: &R, path: &'a str) -> Result<Vec<u8>, Fault<'a>> {
    match opened_bytes(rt, path) {
        Ok(Some(bytes)) if bytes.is_empty() => Err(Fault::File {
            path,
            problem: "the file is empty",
        }),
        Ok(Some(bytes)) => Ok(bytes),
        Ok(None) => Err(Fault::File {
            path,
            problem: "the file is longer than 64 MiB",
        }),
        Err(error) => Err(file_fault(path, &error)),
    }
}

/// Returns the bytes of standard input, which are at most 64 MiB.
pub fn input_bytes<R: Input + AllocGlobal>(rt: &R) -> Result<Vec<u8>, Fault<'static>> {
    bytes_of_input(rt, FILE_LIMIT, "standard input is longer than 64 MiB")
}

/// Returns the bytes of standard input, which are a token of at most 1 MiB with its line end.
pub fn token_input<R: Input + AllocGlobal>(rt: &R) -> Result<Vec<u8>, Fault<'static>> {
    bytes_of_input(
        rt,
        TOKEN_LIMIT,
        "standard input is longer than 1 MiB, the greatest length of a token",
    )
}

/// Returns the bytes, less one line end: CR LF, or LF.
pub fn strip_line_end(bytes: &[u8]) -> &[u8]
    ensures { IsLessLineEnd bytes.now result.now }
{
    match bytes {
        [front @ .., b'\r', b'\n'] => front,
        [front @ .., b'\n'] => front,
        _ => bytes,
    }
}

/// Returns whether a word on the command line is the name of a file, and no token: it holds a `/`
/// and no part that begins as a header does, or there is a file of that name.
pub fn is_file_name<R: Files>(rt: &R, word: &str) -> bool {
    (word.contains('/') && !word.contains("eyJ")) || matches!(fs::exists(rt, word), Ok(true))
}

/// Returns the bytes of a file, or `None` if it is too long.
fn opened_bytes<R: Files + AllocGlobal>(rt: &R, path: &str) -> io::Result<Option<Vec<u8>>> {
    bytes_within(rt.alloc(), fs::open(rt, path)?, FILE_LIMIT)
}

/// Returns the bytes of standard input, or the fault that says this if they are more than `limit`.
fn bytes_of_input<R: Input + AllocGlobal>(
    rt: &R,
    limit: usize,
    too_long: &'static str,
) -> Result<Vec<u8>, Fault<'static>> {
    match bytes_within(rt.alloc(), rt.reader(), limit) {
        Ok(Some(bytes)) => Ok(bytes),
        Ok(None) => Err(Fault::Input(too_long)),
        Err(error) => Err(input_fault(&error)),
    }
}

/// Returns the bytes that a reader has left, or `None` if they are more than `limit`.
fn bytes_within<R: Read + Drop>(
    alloc: Global,
    reader: R,
    limit: usize,
) -> io::Result<Option<Vec<u8>>>
    ensures { IfOk result (λ read. IfSome read (λ bytes. length bytes.items ≤ limit)) }
{
    let mut bytes = Vec::new(alloc);
    let one_more = (limit as u64).saturating_add(1);
    reader.take(one_more).read_to_end(&mut bytes)?;
    if bytes.len() > limit {
        return Ok(None);
    }
    Ok(Some(bytes))
}

/// Returns the fault of standard input that could not be read.
pub fn input_fault(error: &io::Error) -> Fault<'static> {
    match error.kind() {
        ErrorKind::OutOfMemory => Fault::Memory,
        _ => Fault::Input("standard input could not be read"),
    }
}

fn file_fault<'a>(path: &'a str, error: &io::Error) -> Fault<'a> {
    match error.kind() {
        ErrorKind::OutOfMemory => Fault::Memory,
        kind => Fault::File {
            path,
            problem: problem_of(kind),
        },
    }
}

/// Returns why a file could not be read.
fn problem_of(kind: ErrorKind) -> &'static str {
    match kind {
        ErrorKind::NotFound => "there is no such file",
        ErrorKind::PermissionDenied => "permission to read it is denied",
        ErrorKind::IsADirectory => "this is a folder",
        _ => "the file could not be read",
    }
}
