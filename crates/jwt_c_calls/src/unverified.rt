//! The result of the call for C that reads a part of a token without verifying it.

ghost use Rattle.std.specs.Prelude.{◌≡◌, ◌⊎◌, IfOk, IfErr};
ghost use Rattle.jwt_base.specs.KindOf.{kind_of, IsMemory};
ghost use Rattle.jwt_c_calls.specs.Calls.{Returns, answer_of};
ghost use Rattle.jwt_c_calls.specs.Unverified.{AnswersPart, HasNoBytes, IsBytesOfPart, part_numbered};

use crate::as_signed::show;
use crate::inputs::{CallError, read_claims};
use jsonwebtoken::dangerous::{insecure_header_bytes, insecure_payload_bytes};
use jsonwebtoken::errors::Error;
use std::alloc::Global;
use std::result::Result;

/// A part of a token that is JSON.
#[derive(Clone, Copy)]
pub enum Part {
    Header,
    Payload,
}

/// Returns the part of a number.
pub fn numbered_part(number: u32) -> Option<Part>
    ensures { result ≡ part_numbered number }
{
    match number {
        1 => Some(Part::Header),
        2 => Some(Part::Payload),
        _ => None,
    }
}

/// Returns a part of a token as JSON text. Nothing is verified. A part that is not the JSON of an
/// object is refused with `Json`.
pub fn part_answer(alloc: Global, token: &[u8], part: Part) -> Result<Vec<u8>, CallError>
    ensures ok { IfOk result (λ b. AnswersPart part token.now (Returns b.items)) }
    ensures err { IfErr result (λ r. AnswersPart part token.now (answer_of r)) }
{
    let bytes = part_bytes(alloc, token, part)?;
    let value = read_claims(alloc, bytes.as_slice())?;
    let shown = show(alloc, bytes, &value)?;
    Ok(shown.text)
}

fn part_bytes(alloc: Global, token: &[u8], part: Part) -> Result<Vec<u8>, Error>
    ensures ok { IfOk result (λ b. IsBytesOfPart part token.now b.items) }
    ensures err { IfErr result (λ e. IsMemory e ⊎ HasNoBytes part token.now (kind_of e)) }
{
    match part {
        Part::Header => insecure_header_bytes(alloc, token),
        Part::Payload => insecure_payload_bytes(alloc, token),
    }
}
