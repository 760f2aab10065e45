//! What a text is in base64 (RFC 4648), in each form that programs write.

ghost use Rattle.std.specs.Prelude.{◌≡◌, ◌≢◌, ◌+◌, ◌%◌, ◌<◌, ℕ, List, ◌++◌, IfOk, IfErr};
ghost use Rattle.std.specs.Prelude.{MatchOption, length, replicate};
ghost use Rattle.jwt_base.specs.Base64Url.{IsPart};
ghost use Rattle.jwt_base.specs.KindOf.{IsMemory};
ghost use Rattle.jwt_secrets.specs.Base64Texts.{is_white, of_url, characters, unpadded, StandsFor};
ghost use Rattle.jwt_secrets.specs.Base64Texts.{IsBase64};

use jwt_base::errors::{ErrorKind, Result};
use jwt_base::serialization::part_bytes;
use std::alloc::Global;

/// Returns the bytes that a text is base64 of: in the standard or the URL alphabet, with or without
/// padding and white space (RFC 4648 sections 4 and 5). The only refusal is `OutOfMemory`.
pub fn base64_bytes(alloc: Global, text: &[u8]) -> Result<Option<Vec<u8>>>
    ensures ok { IfOk result (λ o. MatchOption o ((b : List ℕ) → ¬ IsBase64 text.now b)
        (λ b. IsBase64 text.now b.items)) }
    ensures err { IfErr result IsMemory }
{
    let characters = characters(alloc, text)?;
    digit_bytes(alloc, trim_padding(characters.as_slice()))
}

fn is_white(byte: u8) -> bool
    ensures { result ≡ is_white byte }
{
    byte == b' ' || byte == b'\t' || byte == b'\n' || byte == b'\r'
}

// Returns the character of the URL alphabet for the value of one of the standard alphabet.
fn of_url(byte: u8) -> u8
    ensures { result ≡ of_url byte }
{
    match byte {
        b'+' => b'-',
        b'/' => b'_',
        other => other,
    }
}

// Returns the text without white space, in the URL alphabet.
fn characters(alloc: Global, text: &[u8]) -> Result<Vec<u8>>
    ensures ok { IfOk result (λ found. found.items ≡ characters text.now) }
    ensures err { IfErr result IsMemory }
{
    let mut found = Vec::new(alloc);
    for byte in text {
        if !is_white(*byte) {
            found.push(of_url(*byte))?;
        }
    }
    Ok(found)
}

// Returns the characters without each `=` at their end.
fn trim_padding(characters: &[u8]) -> &[u8]
    ensures { result.now ≡ unpadded characters.now }
{
    let mut count = characters.len();
    while count > 0 && characters[count - 1] == b'=' {
        count -= 1;
    }
    &characters[..count]
}

// Returns the bytes that the digits stand for.
fn digit_bytes(alloc: Global, digits: &[u8]) -> Result<Option<Vec<u8>>>
    ensures ok { IfOk result (λ o. MatchOption o ((b : List ℕ) → ¬ StandsFor digits.now b)
        (λ b. StandsFor digits.now b.items)) }
    ensures err { IfErr result IsMemory }
{
    let Some(count) = lacking(digits.len()) else {
        return Ok(None);
    };
    let groups = fill(alloc, digits, count)?;
    let Some(mut bytes) = decode(alloc, groups.as_slice())? else {
        return Ok(None);
    };
    bytes.truncate(bytes.len().saturating_sub(count));
    Ok(Some(bytes))
}

// Returns how many digits so many lack to groups of four, which has no answer if three are lacking.
fn lacking(count: usize) -> Option<usize>
    ensures { MatchOption result ((k : ℕ) → k < 3 → (count + k) % 4 ≢ 0)
        (λ k. k < 3 × ((count + k) % 4 ≡ 0)) }
{
    match count % 4 {
        0 => Some(0),
        1 => None,
        2 => Some(2),
        _ => Some(1),
    }
}

// Returns the digits and, after them, so many of the value 0.
fn fill(alloc: Global, digits: &[u8], lacking: usize) -> Result<Vec<u8>>
    ensures ok { IfOk result (λ v. v.items ≡ digits.now ++ replicate lacking 0x41) }
    ensures err { IfErr result IsMemory }
{
    let mut groups = digits.to_vec(alloc)?;
    for _ in 0..lacking {
        groups.push(b'A')?;
    }
    Ok(groups)
}

// Returns the bytes that the groups stand for.
fn decode(alloc: Global, groups: &[u8]) -> Result<Option<Vec<u8>>>
    ensures ok { IfOk result (λ o. MatchOption o ((b : List ℕ) → ¬ IsPart groups.now b)
        (λ b. IsPart groups.now b.items)) }
    ensures err { IfErr result IsMemory }
{
    match part_bytes(alloc, groups) {
        Ok(bytes) => Ok(Some(bytes)),
        Err(error) => match error.kind() {
            ErrorKind::OutOfMemory => Err(error),
            _ => Ok(None),
        },
    }
}
