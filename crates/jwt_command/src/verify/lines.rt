//! The form of `verify` that answers each line of standard input.

// The first line at which memory runs out ends the command with status 3, so that a script that
// reads the status alone does not mistake it for a refusal. A body that leaves a line out would be
// proved; a row of `tests/programs/jwt.jsonl` fails with it.

ghost use Rattle.std.specs.Prelude.{IfOk};
ghost use Rattle.jwt_validation.specs.OptionsOf.{options_of};
ghost use Rattle.jwt_command.specs.Commands.{IsLineStatus, IsLinesStatus};

use crate::answer::Answer;
use crate::clock::current_time;
use crate::files::{input_fault, strip_line_end};
use crate::keys::LoadedKeys;
use crate::verify::case::Case;
use crate::verify::{OutputForm, verify_answer};
use jsonwebtoken::Validation;
use jwt_requests::{Fault, VerifyArgs};
use jwt_verifier::TOKEN_LIMIT;
use memchr::memchr;
use std::io::{self, BufRead, BufReader, BufWriter, ErrorKind, Write};
use std::rt::Clock;

/// The fault of a line that is too long to be a token.
const LONG_LINE: &str =
    "a line of standard input is longer than 1 MiB, the greatest length of a token";

/// The number of the tokens that were answered, and their status.
#[derive(Clone, Copy)]
pub struct Tally {
    /// The status: 0 if every token is accepted, and else the greatest of the tokens' statuses.
    pub status: u8,
    /// The number of tokens that are accepted.
    pub accepted: u64,
    /// The number of tokens that are refused.
    pub refused: u64,
}

/// Answers each line of standard input, which is a token, by a line of JSON on standard output. The
/// answers that are there are written before the program waits for more input. Returns the status
/// of the tokens and their number. That each line is judged, the contract can't say: no contract of
/// the kit says what standard input holds.
pub fn answer_lines<R: Input + Print + Clock + AllocGlobal>(
    rt: &R,
    request: &VerifyArgs<'_, '_>,
    loaded: &LoadedKeys,
    validation: &Validation,
) -> Result<Tally, Fault<'static>>
    ensures { IfOk result (λ tally.
        IsLinesStatus request.entry.now loaded.now (options_of validation.now) tally.status) }
{
    let Ok(mut reader) = BufReader::new(rt.alloc(), rt.reader()) else {
        return Err(Fault::Memory);
    };
    let Ok(mut writer) = BufWriter::new(rt.alloc(), io::writer(rt)) else {
        return Err(Fault::Memory);
    };
    let mut line = Vec::new(rt.alloc());
    let mut status = 0;
    let mut tokens = 0u64;
    let mut refused = 0u64;
    for _ in 0..u64::MAX {
        if reader.buffer().is_empty() {
            flush(&mut writer)?;
        }
        if !read_line(&mut reader, &mut line)? {
            break;
        }
        let answer = line_answer(rt, request, loaded, validation, &line)?;
        write(&mut writer, answer.output.as_str())?;
        status = u8::max(answer.status, status);
        tokens = tokens.saturating_add(1);
        refused = refused.saturating_add(u64::from(answer.status));
    }
    flush(&mut writer)?;
    Ok(Tally {
        status,
        accepted: tokens.saturating_sub(refused),
        refused,
    })
}

fn flush<W: Write>(writer: &mut W) -> Result<(), Fault<'static>> {
    match writer.flush() {
        Ok(()) => Ok(()),
        Err(_) => Err(Fault::Output),
    }
}

/// Reads a line, instead of the one before. Returns whether there was one.
fn read_line<R: BufRead>(reader: &mut R, line: &mut Vec<u8>) -> Result<bool, Fault<'static>> {
    line.clear();
    for _ in 0..u64::MAX {
        if read_part(reader, line)? {
            break;
        }
    }
    Ok(!line.is_empty())
}

/// Reads on, to the end of the line if the reader has it in its buffer. Returns whether the line,
/// or the input, has ended.
fn read_part<R: BufRead>(reader: &mut R, line: &mut Vec<u8>) -> Result<bool, Fault<'static>> {
    let buffer = match reader.fill_buf() {
        Ok(buffer) => buffer,
        Err(error) if error.kind() == ErrorKind::Interrupted => return Ok(false),
        Err(error) => return Err(input_fault(&error)),
    };
    let (count, has_ended) = match memchr(b'\n', buffer) {
        Some(place) => (place + 1, true),
        None => (buffer.len(), buffer.is_empty()),
    };
    line.extend_from_slice(&buffer[..count])?;
    reader.consume(count);
    if line.len() > TOKEN_LIMIT {
        return Err(Fault::Input(LONG_LINE));
    }
    Ok(has_ended)
}

/// Returns the line of JSON for a token, which may have a line end.
fn line_answer<R: Clock + AllocGlobal>(
    rt: &R,
    request: &VerifyArgs<'_, '_>,
    loaded: &LoadedKeys,
    validation: &Validation,
    line: &[u8],
) -> Result<Answer, Fault<'static>>
    ensures { IfOk result (λ a.
        IsLineStatus request.entry.now loaded.now (options_of validation.now) a.status) }
{
    let time = current_time(rt, request.time)?;
    let token = strip_line_end(line);
    let case = Case {
        token,
        loaded,
        typ: request.typ,
        time,
    };
    // named for the proof
    let answer = verify_answer(rt.alloc(), case, validation, OutputForm::Line)?;
    Ok(answer)
}

fn write<W: Write>(writer: &mut W, text: &str) -> Result<(), Fault<'static>> {
    match writer.write_all(text.as_bytes()) {
        Ok(()) => Ok(()),
        Err(_) => Err(Fault::Output),
    }
}
