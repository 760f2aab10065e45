//! Blocks of text that hold bytes (RFC 7468).

// The text of a block is read in its lax form (RFC 7468 section 3), since keys stand in variables
// of the environment and in other files without their lines: white space anywhere, and lines of any
// width. All else is strict: the labels, the characters, no headers. The first block counts, so that
// no key is searched for past one that was refused.

ghost use Rattle.std.specs.Prelude.{◌≡◌, ◌≢◌, ℕ, ◌≤◌, ◌<◌, List, ◌++◌, IfOk, IfErr, All};
ghost use Rattle.std.specs.Prelude.{MatchOption, IsTrue, length, take, get_or, codes, ◌↔◌};
ghost use Rattle.jwt_base.specs.KindOf.{IsMemory};
ghost use Rattle.jwt_base.specs.Base64Url.{IsStandardText};
ghost use Rattle.jwt_key_files.specs.Pem.{IsLineBreak, is_white, characters_of, StartsLine};
ghost use Rattle.jwt_key_files.specs.Pem.{EndsLine, IsMarked, IsBlock, IsClosed, Begins, IsFirst};
ghost use Rattle.jwt_key_files.specs.private_clauses.Bodies.{IsBodyLength};

use crate::element::next;
use jwt_base::errors::{ErrorKind, Result};
use jwt_base::serialization::standard_bytes;
use std::alloc::Global;

// Returns the bytes after this prefix.
pub(crate) fn after<'a>(prefix: &[u8], bytes: &'a [u8]) -> Option<&'a [u8]>
    ensures { MatchOption result ((rest : List ℕ) → bytes.now ≢ prefix.now ++ rest)
        (λ rest. bytes.now ≡ prefix.now ++ rest.now) }
{
    let Some(rest) = bytes.strip_prefix(prefix) else {
        return None;
    };
    Some(rest)
}

// Returns the text after the first `-----BEGIN ` that a line begins with.
pub(crate) fn first_block(text: &[u8]) -> Option<&[u8]>
    ensures { MatchOption result ((b : List ℕ) → ¬ IsFirst text.now b)
        (λ b. IsFirst text.now b.now) }
{
    for place in 0..text.len() {
        if let Some(block) = block_at(text, place) {
            return Some(block);
        }
    }
    None
}

// Returns the bytes of the block with this label whose text after `-----BEGIN ` this is.
pub(crate) fn block_bytes(alloc: Global, label: &[u8], block: &[u8]) -> Result<Option<Vec<u8>>>
    ensures ok { IfOk result (λ o. MatchOption o ((b : List ℕ) → ¬ IsBlock label.now block.now b)
        (λ b. IsBlock label.now block.now b.items)) }
    ensures err { IfErr result IsMemory }
{
    let Some(text) = opened(label, block) else {
        return Ok(None);
    };
    let (body, end) = text.split_at(body_length(text));
    let characters = characters(alloc, body)?;
    let Some(bytes) = decode(alloc, characters.as_slice())? else {
        return Ok(None);
    };
    if !is_closed(label, end) {
        return Ok(None);
    }
    Ok(Some(bytes))
}

// Returns the text after `-----BEGIN `, if a line begins with it at this place.
fn block_at(text: &[u8], place: usize) -> Option<&[u8]>
    requires { place ≤ length text.now }
    ensures { MatchOption result ((b : List ℕ) → ¬ Begins text.now place b)
        (λ b. Begins text.now place b.now) }
{
    if !starts_line(text, place) {
        return None;
    }
    let (_, rest) = text.split_at(place);
    let Some(block) = after(b"-----BEGIN ", rest) else {
        return None;
    };
    Some(block)
}

// Returns whether a line begins at this place.
fn starts_line(text: &[u8], place: usize) -> bool
    requires { place ≤ length text.now }
    ensures { IsTrue result ↔ StartsLine text.now place }
{
    if place == 0 || is_line_break(text[place - 1]) {
        return true;
    }
    place == 3 && is_marked(text)
}

// Returns whether the text begins with the mark of its byte order.
fn is_marked(text: &[u8]) -> bool
    requires { 3 ≤ length text.now }
    ensures { IsTrue result ↔ IsMarked text.now }
{
    text[0] == 0xef && text[1] == 0xbb && text[2] == 0xbf
}

fn is_line_break(byte: u8) -> bool
    ensures { IsTrue result ↔ IsLineBreak byte }
{
    byte == b'\r' || byte == b'\n'
}

fn is_white(byte: u8) -> bool
    ensures { result ≡ is_white byte }
{
    byte == b' ' || byte == b'\t' || byte == b'\n' || byte == 11 || byte == 12 || byte == b'\r'
}

// Returns the text after the label and `-----`.
fn opened<'a>(label: &[u8], block: &'a [u8]) -> Option<&'a [u8]>
    ensures { MatchOption result ((s : List ℕ) → block.now ≢ label.now ++ (codes "-----" ++ s))
        (λ s. block.now ≡ label.now ++ (codes "-----" ++ s.now)) }
{
    let Some(rest) = after(label, block) else {
        return None;
    };
    let Some(rest) = after(b"-----", rest) else {
        return None;
    };
    Some(rest)
}

// Returns the number of bytes before the first `-`.
fn body_length(text: &[u8]) -> usize
    ensures { IsBodyLength text.now result }
{
    for place in 0..text.len() {
        if text[place] == b'-' {
            return place;
        }
    }
    text.len()
}

// Returns the characters without white space.
fn characters(alloc: Global, body: &[u8]) -> Result<Vec<u8>>
    ensures ok { IfOk result (λ c. c.items ≡ characters_of body.now) }
    ensures err { IfErr result IsMemory }
{
    let mut characters = Vec::new(alloc);
    for byte in body {
        if !is_white(*byte) {
            characters.push(*byte)?;
        }
    }
    Ok(characters)
}

// Returns the bytes that the characters are the base64 text of.
fn decode(alloc: Global, characters: &[u8]) -> Result<Option<Vec<u8>>>
    ensures ok { IfOk result (λ o. MatchOption o ((b : List ℕ) → ¬ IsStandardText characters.now b)
        (λ b. IsStandardText characters.now b.items)) }
    ensures err { IfErr result IsMemory }
{
    match standard_bytes(alloc, characters) {
        Ok(bytes) => Ok(Some(bytes)),
        Err(error) => match error.kind() {
            ErrorKind::OutOfMemory => Err(error),
            _ => Ok(None),
        },
    }
}

// Returns whether the line that the text begins with ends a block with this label.
fn is_closed(label: &[u8], text: &[u8]) -> bool
    ensures { IsTrue result ↔ IsClosed label.now text.now }
{
    let Some(rest) = closing(label, text) else {
        return false;
    };
    ends_line(rest)
}

// Returns the text after `-----END `, this label and `-----`.
fn closing<'a>(label: &[u8], text: &'a [u8]) -> Option<&'a [u8]>
    ensures { MatchOption result
        ((s : List ℕ) → text.now ≢ codes "-----END " ++ (label.now ++ (codes "-----" ++ s)))
        (λ s. text.now ≡ codes "-----END " ++ (label.now ++ (codes "-----" ++ s.now))) }
{
    let Some(rest) = after(b"-----END ", text) else {
        return None;
    };
    let Some(rest) = after(label, rest) else {
        return None;
    };
    let Some(rest) = after(b"-----", rest) else {
        return None;
    };
    Some(rest)
}

// Returns whether the text ends, or white space follows, where the text begins.
fn ends_line(text: &[u8]) -> bool
    ensures { IsTrue result ↔ EndsLine text.now }
{
    match next(text) {
        Some((byte, _)) => is_white(byte),
        None => true,
    }
}
