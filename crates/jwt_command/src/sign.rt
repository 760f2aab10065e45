//! The command `sign`.

ghost use Rattle.std.specs.Prelude.{◌≡◌, ◌≢◌, ◌+◌, [], ◌∷◌, ◌++◌, Some, None, IfOk, OnOk};
ghost use Rattle.std.specs.Prelude.{option_map, if◌then◌else◌, codes, string_bytes};
ghost use Rattle.serde_json.specs.Data.{Members, object};
ghost use Rattle.serde_json.specs.View.{view, members_view};
ghost use Rattle.jwt_base.specs.JsonText.{IsJson};
ghost use Rattle.jwt_base.specs.Kind as kind;
ghost use Rattle.jwt_base.specs.KindOf.{kind_of};
ghost use Rattle.jwt_base.specs.Members.{put_some};
ghost use Rattle.jwt_command.specs.Answers.{IsSignAnswer};
ghost use Rattle.jwt_command.specs.Claimed.{header_asked, numeric_date, members_with_times};

pub(crate) mod by_signature;

use crate::answer::Answer;
use jsonwebtoken::errors::Error;
use jsonwebtoken::{EncodingKey, Header, Text, encode};
use jwt_base::serialization::json_value;
use jwt_findings::unsigned_line;
use jwt_requests::{Draft, Fault, fault_of, is_memory};
use jwt_standard::StandardProvider;
use serde_json::{Map, Value};
use std::alloc::Global;

/// Returns the claims of a JSON text, which is that of an object, with the times that the
/// arguments ask for.
pub fn claims(
    alloc: Global,
    text: &[u8],
    draft: &Draft<'_>,
    time: u64,
) -> Result<Value, Fault<'static>>
    ensures { IfOk result (λ v. (members : Members) × IsJson text.now (object members)
        × (view v ≡ object (members_with_times draft.entry.now time members))) }
{
    match json_value(alloc, text) {
        Ok(Value::Object(members)) => {
            let mut members = members;
            put_times(alloc, &mut members, draft, time)?;
            Ok(Value::Object(members))
        }
        Ok(_) => Err(Fault::Usage("the claims have to be a JSON object")),
        Err(error) => Err(fault_of(&error, Fault::Usage("the claims are not JSON"))),
    }
}

/// Returns the answer for claims, under the header that the arguments ask for.
pub fn claims_answer(
    alloc: Global,
    draft: &Draft<'_>,
    claims: &Value,
    secret: &[u8],
) -> Result<Answer, Fault<'static>>
    ensures { IfOk result (λ a. IsSignAnswer (header_asked draft.entry.now) (view claims.now)
        secret.now a.status (string_bytes a.output)) }
{
    match header(alloc, draft) {
        Ok(header) => {
            let answer = sign_answer(alloc, &header, claims, secret);
            // one drop
            drop(header);
            answer
        }
        Err(_) => Err(Fault::Memory),
    }
}

fn text(alloc: Global, given: Option<&str>) -> Result<Option<Text>, Error>
    ensures { IfOk result (λ t. t ≡ option_map (λ s. s.now) given.entry) }
{
    match given {
        Some(given) => Ok(Some(Text::from_str(alloc, given)?)),
        None => Ok(None),
    }
}

/// Puts the times that the arguments ask for among the claims.
fn put_times(
    alloc: Global,
    claims: &mut Map<String, Value>,
    draft: &Draft<'_>,
    time: u64,
) -> Result<(), Fault<'static>>
    ensures { OnOk result (members_view claims.new.entries
        ≡ members_with_times draft.entry.now time (members_view claims.old.entries)) }
{
    put_later(alloc, claims, "exp", time, draft.exp_in)?;
    put_later(alloc, claims, "nbf", time, draft.nbf_in)?;
    // no tail call, for the proof
    put_iat(alloc, claims, time, draft.has_iat)?;
    Ok(())
}

/// Puts the time that is this many seconds later instead of a claim, if there is a number.
fn put_later(
    alloc: Global,
    claims: &mut Map<String, Value>,
    name: &str,
    time: u64,
    seconds: Option<u64>,
) -> Result<(), Fault<'static>>
    ensures { OnOk result (members_view claims.new.entries ≡ put_some name.now
        (option_map (λ seconds. numeric_date (time + seconds)) seconds)
        (members_view claims.old.entries)) }
{
    if let Some(seconds) = seconds {
        let later = later_time(time, seconds)?;
        serde_json::put(claims, alloc, name, Value::from(later))?;
    }
    Ok(())
}

/// Returns the time that is this many seconds later.
fn later_time(time: u64, seconds: u64) -> Result<u64, Fault<'static>>
    ensures { IfOk result (λ later. later ≡ time + seconds) }
{
    match time.checked_add(seconds) {
        Some(later) => Ok(later),
        None => Err(Fault::Usage("the span of --exp-in or --nbf-in is too long")),
    }
}

/// Puts the time of signing as the claim `iat`, if it is asked for.
fn put_iat(
    alloc: Global,
    claims: &mut Map<String, Value>,
    time: u64,
    has_iat: bool,
) -> Result<(), Fault<'static>>
    ensures { OnOk result (members_view claims.new.entries ≡ put_some (codes "iat")
        (if has_iat then Some (numeric_date time) else None) (members_view claims.old.entries)) }
{
    if has_iat {
        serde_json::put(claims, alloc, "iat", Value::from(time))?;
    }
    Ok(())
}

/// Returns the header of a token that is signed as the arguments ask for, of the type `JWT` if they
/// name no other.
pub fn header(alloc: Global, draft: &Draft<'_>) -> Result<Header, Error>
    ensures { IfOk result (λ h. h ≡ header_asked draft.entry.now) }
{
    let kid = text(alloc, draft.kid)?;
    let typ = text(alloc, draft.typ)?;
    let mut header = Header::new(alloc, draft.algorithm)?;
    header.kid = kid;
    if typ.is_some() {
        header.typ = typ;
    }
    Ok(header)
}

/// Returns the answer for claims: status 0 and the token, or status 1 if `encode` refuses.
fn sign_answer(
    alloc: Global,
    header: &Header,
    claims: &Value,
    secret: &[u8],
) -> Result<Answer, Fault<'static>>
    ensures { IfOk result (λ a. IsSignAnswer header.now (view claims.now) secret.now a.status
        (string_bytes a.output)) }
{
    let Ok(key) = EncodingKey::from_secret(alloc, secret) else {
        return Err(Fault::Memory);
    };
    match encode(alloc, &StandardProvider, header, claims, &key) {
        Ok(token) => signed_answer(alloc, token),
        Err(error) => refusal_answer(alloc, error, claims),
    }
}

/// Returns the answer that is a token.
pub fn signed_answer(alloc: Global, token: String) -> Result<Answer, Fault<'static>>
    ensures { IfOk result (λ a. (a.status ≡ 0)
        × (string_bytes a.output ≡ string_bytes token ++ 10 ∷ [])) }
{
    let mut output = token;
    output.push('\n')?;
    Ok(Answer {
        status: 0,
        output,
        message: String::new(alloc),
    })
}

/// Returns the answer for claims that are refused with an error.
pub fn refusal_answer(alloc: Global, error: Error, claims: &Value) -> Result<Answer, Fault<'static>>
    ensures { IfOk result (λ a. (kind_of error ≢ kind.OutOfMemory) × (a.status ≡ 1)
        × (string_bytes a.output ≡ [])) }
{
    if is_memory(&error) {
        drop(error);
        return Err(Fault::Memory);
    }
    let message = unsigned_line(alloc, &error, claims);
    // one drop
    drop(error);
    Ok(Answer {
        status: 1,
        output: String::new(alloc),
        message: message?,
    })
}
