//! From the arguments and the input to the line.

ghost use Rattle.std.specs.Prelude.{◌≡◌, ◌≢◌, ◌⊎◌, None, false, ◌++◌, ◌∷◌, [], ℕ, List, IfOk};
ghost use Rattle.std.specs.Prelude.{IfErr, IfSome, OnOk, map, string_bytes};
ghost use Rattle.std.specs.Io.KnownBytes.{Appends};
ghost use Rattle.serde_json.specs.View.{view};
ghost use Rattle.serde_json.specs.Written.{has_float};
ghost use Rattle.jwt_base.specs.Kind as kind;
ghost use Rattle.jwt_base.specs.KindOf.{kind_of, IsMemory, RefusesAs};
ghost use Rattle.jwt_keys.specs.declared.jwk.Jwk.{Jwk};
ghost use Rattle.jsonwebtoken.specs.Order.{FailsFirst};
ghost use Rattle.jsonwebtoken.specs.Tests.{header_order, header_call, decode_order, token_tests};
ghost use Rattle.jwt_tool_command.specs.Asked.{asked};
ghost use Rattle.jwt_tool_command.specs.Words.{request_of};
ghost use Rattle.jwt_tool_command.specs.Line.{Answers, RequestAnswer, ValueAnswer, ValueLine};
ghost use Rattle.jwt_tool_command.specs.Line.{IsValueText, IsRefusal, IsHeaderValue, IsClaimsValue};
ghost use Rattle.jwt_tool_command.specs.Line.{hmac_call, IsClaimsValueBySet, HasSetFault};
ghost use Rattle.jwt_tool_command.specs.Line.{IsThumbprint, HasThumbprintFault, ThumbprintLine};
ghost use Rattle.jwt_tool_command.specs.Line.{IsToken, HasTokenFault, TokenLine, IsMemoryLine};
ghost use Rattle.jwt_tool_command.specs.Line.{IsUsage, without_final_newline};

use crate::command::{Command, requested_command};
use crate::fault::ToolFault;
use crate::input::{gather, without_newline};
use jsonwebtoken::crypto::hmac::HmacProvider;
use jsonwebtoken::jwk::{Jwk, JwkSet, ThumbprintHash};
use jsonwebtoken::{
    Algorithm, DecodingKey, EncodingKey, Header, TokenData, Validation, decode, decode_header,
    decode_with_set, encode,
};
use jwt_base::errors::{Error, ErrorKind, Result, new_error};
use jwt_base::json::has_float;
use jwt_base::serialization::json_value;
use serde_json::Value;
use std::alloc::Global;
use std::io::{Read, Write};

/// A line, and the status that goes with it.
#[derive(Drop)]
struct Answer {
    status: u8,
    line: String,
}

/// Prints one line for the arguments and the input, and returns the exit status: 0 for success, 1
/// for a refusal, 2 for arguments that ask for nothing, whose input is not read.
pub fn run<R: Read, W: Write>(
    alloc: Global,
    words: &[String],
    reader: &mut R,
    writer: &mut W,
) -> Result<u8, ToolFault>
    ensures unread { request_of (map string_bytes words.now) ≡ None
        → R.remaining reader.new ≡ R.remaining reader.old }
    ensures answered { IfOk result (λ status. IfSome (R.remaining reader.old) (λ all.
        (line : List ℕ) × Appends (W.contents writer.old) (W.contents writer.new) (line ++ 10 ∷ [])
        × Answers (map string_bytes words.now) (without_final_newline all) status line)) }

    // Whether or not it is known what the reader has left, the answer is that to some input.
    ensures of_some_input { IfOk result (λ status. (input line : List ℕ)
        × Answers (map string_bytes words.now) input status line) }

    // If it fails otherwise than by the writer, nothing was written.
    ensures unwritten { IfErr result (λ e. e ≢ ToolFault.Write
        → W.contents writer.new ≡ W.contents writer.old) }
{
    let answer = answer_to(alloc, words, reader)?;
    write_line(writer, answer.line)?;
    Ok(answer.status)
}

/// Returns the result for the arguments. The input is read only if they ask for it.
fn answer_to<R: Read>(alloc: Global, words: &[String], reader: &mut R) -> Result<Answer, ToolFault>
    ensures unread { request_of (map string_bytes words.now) ≡ None
        → R.remaining reader.new ≡ R.remaining reader.old }
    ensures said { IfOk result (λ a. IfSome (R.remaining reader.old) (λ all.
        Answers (map string_bytes words.now) (without_final_newline all) a.status
        (string_bytes a.line))) }
    ensures of_some_input { IfOk result (λ a. (input : List ℕ)
        × Answers (map string_bytes words.now) input a.status (string_bytes a.line)) }
{
    let Some(command) = requested_command(words) else {
        return usage(alloc);
    };
    let input = gather(alloc, reader)?;
    command_answer(alloc, command, without_newline(&input))
}

fn usage(alloc: Global) -> Result<Answer, ToolFault>
    ensures { IfOk result (λ a. IsUsage a.status (string_bytes a.line)) }
{
    match String::from_str(alloc, "usage") {
        Ok(line) => Ok(Answer { status: 2, line }),
        Err(_) => Err(ToolFault::Memory),
    }
}

/// Writes a text and a newline, at once.
fn write_line<W: Write>(writer: &mut W, mut line: String) -> Result<(), ToolFault>
    ensures written { OnOk result (Appends (W.contents writer.old) (W.contents writer.new)
        (string_bytes line ++ 10 ∷ [])) }
    ensures unwritten { IfErr result (λ e. e ≢ ToolFault.Write
        → W.contents writer.new ≡ W.contents writer.old) }
{
    if line.push('\n').is_err() {
        return Err(ToolFault::Memory);
    }
    if writer.write_all(line.as_bytes()).is_err() || writer.flush().is_err() {
        return Err(ToolFault::Write);
    }
    Ok(())
}

fn command_answer(alloc: Global, command: Command<'_>, input: &[u8]) -> Result<Answer, ToolFault>
    ensures { IfOk result (λ a. RequestAnswer (asked command.entry) input.now a.status
        (string_bytes a.line)) }
{
    match command {
        Command::Header => header_answer(alloc, input),
        Command::Thumbprint { hash } => thumbprint_answer(alloc, hash, input),
        Command::Encode { algorithm, secret } => token_answer(alloc, algorithm, secret, input),
        Command::Decode {
            algorithm,
            secret,
            time,
        } => claims_answer(alloc, algorithm, secret, time, input),
        Command::DecodeWithSet {
            algorithm,
            set,
            time,
        } => set_claims_answer(alloc, algorithm, set, time, input),
    }
}

/// Returns the header's JSON text, or the refusal's text.
fn header_answer(alloc: Global, input: &[u8]) -> Result<Answer, ToolFault>
    ensures { IfOk result (λ a. ValueAnswer IsValueText (IsHeaderValue input.now)
        (λ k. FailsFirst (token_tests (header_call input.now)) header_order k) a.status
        (string_bytes a.line)) }
{
    match header_value(alloc, input) {
        Ok(value) => text_answer(alloc, &value),
        Err(e) => refusal_answer(alloc, &e),
    }
}

/// Returns the key's thumbprint, or the refusal's text.
fn thumbprint_answer(alloc: Global, hash: ThumbprintHash, input: &[u8]) -> Result<Answer, ToolFault>
    ensures { IfOk result (λ a. ThumbprintLine input.now hash a.status (string_bytes a.line)
        ⊎ IsMemoryLine a.status (string_bytes a.line)) }
{
    match key_thumbprint(alloc, hash, input) {
        Ok(line) => Ok(Answer { status: 0, line }),
        Err(e) => refusal_answer(alloc, &e),
    }
}

/// Returns the issued token, or the refusal's text.
fn token_answer(
    alloc: Global,
    algorithm: Algorithm,
    secret: &str,
    input: &[u8],
) -> Result<Answer, ToolFault>
    ensures { IfOk result (λ a. TokenLine input.now algorithm secret.now a.status
        (string_bytes a.line)
        ⊎ IsMemoryLine a.status (string_bytes a.line)) }
{
    match issued_token(alloc, algorithm, secret, input) {
        Ok(line) => Ok(Answer { status: 0, line }),
        Err(e) => refusal_answer(alloc, &e),
    }
}

/// Returns the claims' JSON text, or the refusal's text.
fn claims_answer(
    alloc: Global,
    algorithm: Algorithm,
    secret: &str,
    time: u64,
    input: &[u8],
) -> Result<Answer, ToolFault>
    ensures { IfOk result (λ a. ValueAnswer ValueLine
        (IsClaimsValue input.now algorithm secret.now time)
        (λ k. FailsFirst (token_tests (hmac_call input.now algorithm secret.now time)) decode_order
        k) a.status (string_bytes a.line)) }
{
    match claims_value(alloc, algorithm, secret, time, input) {
        Ok(value) => value_answer(alloc, &value),
        Err(e) => refusal_answer(alloc, &e),
    }
}

/// Returns the claims' JSON text, verified by a key of a set, or the refusal's text. A text that is
/// not that of a set is refused with `Json`.
fn set_claims_answer(
    alloc: Global,
    algorithm: Algorithm,
    set: &str,
    time: u64,
    input: &[u8],
) -> Result<Answer, ToolFault>
    ensures { IfOk result (λ a. ValueAnswer ValueLine
        (IsClaimsValueBySet input.now algorithm set.now time)
        (HasSetFault input.now algorithm set.now time) a.status (string_bytes a.line)) }
{
    match set_claims_value(alloc, algorithm, set, time, input) {
        Ok(value) => value_answer(alloc, &value),
        Err(e) => refusal_answer(alloc, &e),
    }
}

/// Returns the value's compact JSON text. For one that holds a float, it is the text of the error
/// `Json`.
fn value_answer(alloc: Global, value: &Value) -> Result<Answer, ToolFault>
    ensures { IfOk result (λ a. ValueLine (view value.now) a.status (string_bytes a.line)) }
{
    if has_float(value) {
        return refusal_answer(alloc, &new_error(ErrorKind::Json));
    }
    text_answer(alloc, value)
}

/// Returns the compact JSON text of a value without a float.
fn text_answer(alloc: Global, value: &Value) -> Result<Answer, ToolFault>
    requires { has_float (view value.now) ≡ false }
    ensures { IfOk result (λ a. IsValueText (view value.now) a.status (string_bytes a.line)) }
{
    match value.to_string(alloc) {
        Ok(line) => Ok(Answer { status: 0, line }),
        Err(_) => Err(ToolFault::Memory),
    }
}

/// Returns the error's text.
fn refusal_answer(alloc: Global, e: &Error) -> Result<Answer, ToolFault>
    ensures { IfOk result (λ a. IsRefusal (kind_of e.now) a.status (string_bytes a.line)) }
{
    match e.to_string(alloc) {
        Ok(line) => Ok(Answer { status: 1, line }),
        Err(_) => Err(ToolFault::Memory),
    }
}

fn header_value(alloc: Global, input: &[u8]) -> Result<Value>
    ensures ok { IfOk result (λ v. IsHeaderValue input.now (view v)) }
    ensures no_float { IfOk result (λ v. has_float (view v) ≡ false) }
    ensures err { IfErr result (λ e. IsMemory e
        ⊎ FailsFirst (token_tests (header_call input.now)) header_order (kind_of e)) }
{
    let header = decode_header(alloc, input)?;
    let value = header.to_value(alloc);
    // one drop
    drop(header);
    value
}

fn claims_value(
    alloc: Global,
    algorithm: Algorithm,
    secret: &str,
    time: u64,
    input: &[u8],
) -> Result<Value>
    ensures ok { IfOk result (λ v. IsClaimsValue input.now algorithm secret.now time (view v)) }
    ensures err { IfErr result (λ e. IsMemory e
        ⊎ FailsFirst (token_tests (hmac_call input.now algorithm secret.now time)) decode_order
        (kind_of e)) }
{
    let key = DecodingKey::from_secret(alloc, secret.as_bytes())?;
    let validation = Validation::new(alloc, algorithm)?;
    let data: TokenData<Value> = decode(alloc, &HmacProvider, input, &key, &validation, time)?;
    let TokenData { header, claims } = data;
    // one drop
    drop(header);
    Ok(claims)
}

fn set_claims_value(
    alloc: Global,
    algorithm: Algorithm,
    set: &str,
    time: u64,
    input: &[u8],
) -> Result<Value>
    ensures ok { IfOk result (λ v. IsClaimsValueBySet input.now algorithm set.now time (view v)) }
    ensures err { IfErr result (λ e. IsMemory e
        ⊎ HasSetFault input.now algorithm set.now time (kind_of e)) }
{
    let keys = JwkSet::from_slice(alloc, set.as_bytes())?;
    let rules = Validation::new(alloc, algorithm)?;
    let data: TokenData<Value> = decode_with_set(alloc, &HmacProvider, input, &keys, &rules, time)?;
    let TokenData { header, claims } = data;
    drop(header);
    Ok(claims)
}

fn issued_token(alloc: Global, algorithm: Algorithm, secret: &str, input: &[u8]) -> Result<String>
    ensures ok { IfOk result (λ x. IsToken input.now algorithm secret.now (string_bytes x)) }
    ensures err { IfErr result (λ e. IsMemory e
        ⊎ HasTokenFault input.now algorithm secret.now (kind_of e)) }
{
    let claims = json_value(alloc, input)?;
    let key = EncodingKey::from_secret(alloc, secret.as_bytes())?;
    let header = Header::new(alloc, algorithm)?;
    let token = encode(alloc, &HmacProvider, &header, &claims, &key);
    drop(header);
    drop(key);
    drop(claims);
    token
}

/// Returns the thumbprint of the key that the input is the JSON text of.
fn key_thumbprint(alloc: Global, hash: ThumbprintHash, input: &[u8]) -> Result<String>
    ensures ok { IfOk result (λ t. IsThumbprint input.now hash (string_bytes t)) }
    ensures err { IfErr result (λ e. IsMemory e ⊎ HasThumbprintFault input.now (kind_of e)) }
{
    let key = Jwk::from_slice(alloc, input)?;
    let text = key.thumbprint(alloc, &HmacProvider, hash);
    drop(key);
    text
}
