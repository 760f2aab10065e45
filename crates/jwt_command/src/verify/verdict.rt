//! Whether a token is accepted.

ghost use Rattle.std.specs.Prelude.{◌≡◌, ◌⊎◌, ◌↔◌, IsTrue, IfOk, IfErr, IsErrAnd, option_map};
ghost use Rattle.jwt_base.specs.KindOf.{IsMemory};
ghost use Rattle.jwt_validation.specs.Options.{Options};
ghost use Rattle.jwt_validation.specs.OptionsOf.{options_of};
ghost use Rattle.jwt_command.specs.Accepted.{HasType, IsDecoded, IsRefusalIfAny, IsTypedVerdict};
ghost use Rattle.jwt_command.specs.Commands.{ChoosesAlgorithm};

use crate::verify::case::Case;
use crate::verify::options::lists_none;
use jsonwebtoken::{
    Header, Refusal, TokenData, Validation, decode_by_or_refusal, decode_by_own_algorithm,
};
use jwt_findings::TokenRefusal;
use jwt_requests::{Fault, is_memory};
use serde_json::Value;
use std::alloc::Global;

/// Returns header and claims of a token that is accepted, at the time `time`, in seconds since
/// 1970-01-01 00:00:00 UTC, or why it is not. If a type is asked for, the header has to have it. If
/// no algorithm is listed, that of the token's key is accepted.
pub fn verify_with_type(
    alloc: Global,
    case: Case<'_>,
    validation: &Validation,
) -> Result<Result<TokenData<Value>, TokenRefusal>, Fault<'static>>
    ensures ok { let keys = case.entry.loaded.now.keys.keys in let token = case.entry.token.now in
        IfOk result (λ verdict. (settled : Options)
        × ChoosesAlgorithm keys token (options_of validation.now) settled
        × IsTypedVerdict token keys settled case.entry.time (option_map (λ s. s.now) case.entry.typ)
        verdict) }
    ensures err { IfErr result (λ fault. fault ≡ Fault.Memory) }
{
    match decode_token(alloc, case, validation) {
        Ok(contents) => Ok(check_type(contents, case.typ)),
        Err(refusal) => {
            let reason = as_token_refusal(refusal)?;
            Ok(Err(reason))
        }
    }
}

/// Returns why [`verify_with_type`] does not accept a token, or `None` if it does.
pub fn refusal_of(
    alloc: Global,
    case: Case<'_>,
    validation: &Validation,
) -> Result<Option<TokenRefusal>, Fault<'static>>
    ensures ok { let keys = case.entry.loaded.now.keys.keys in let token = case.entry.token.now in
        IfOk result (λ reason. (settled : Options)
        × ChoosesAlgorithm keys token (options_of validation.now) settled
        × IsRefusalIfAny token keys settled case.entry.time
        (option_map (λ s. s.now) case.entry.typ) reason) }
    ensures err { IfErr result (λ fault. fault ≡ Fault.Memory) }
{
    let verdict = verify_with_type(alloc, case, validation)?;
    Ok(verdict.err())
}

/// Returns header and claims of a token that passes each test of `decode`, or of `decode_with_set`
/// if the keys are a set. If no algorithm is listed, that of the token's key is accepted: it is an
/// algorithm of the key and never of the token. The header is read once.
fn decode_token(
    alloc: Global,
    case: Case<'_>,
    validation: &Validation,
) -> Result<TokenData<Value>, Refusal>
    ensures { let keys = case.entry.loaded.now.keys.keys in let token = case.entry.token.now in
        IsErrAnd result (λ refusal. IsMemory refusal.error)
        ⊎ ((settled : Options) × ChoosesAlgorithm keys token (options_of validation.now) settled
        × IsDecoded token keys settled case.entry.time result) }
{
    let keys = &case.loaded.keys;
    if lists_none(validation) {
        return decode_by_own_algorithm(alloc, &keys, case.token, validation, case.time).1;
    }
    decode_by_or_refusal(alloc, &keys, case.token, validation, case.time)
}

/// Returns header and claims, unless the header has another type than the one that is asked for.
fn check_type(
    contents: TokenData<Value>,
    typ: Option<&str>,
) -> Result<TokenData<Value>, TokenRefusal>
    ensures accepted { IfOk result (λ d. (d ≡ contents)
        × HasType (option_map (λ s. s.now) typ.entry) contents.header) }
    ensures other_type { IfErr result (λ reason. (reason ≡ TokenRefusal.OtherType)
        × ¬ HasType (option_map (λ s. s.now) typ.entry) contents.header) }
{
    if !has_type(&contents.header, typ) {
        drop(contents);
        return Err(TokenRefusal::OtherType);
    }
    Ok(contents)
}

/// Returns whether the header has the type that is asked for, if there is one, in letters of either
/// case (RFC 7515 section 4.1.9).
fn has_type(header: &Header, typ: Option<&str>) -> bool
    ensures { IsTrue result ↔ HasType (option_map (λ s. s.now) typ.entry) header.now }
{
    let Some(typ) = typ else {
        return true;
    };
    match &header.typ {
        Some(found) => found.as_str().eq_ignore_ascii_case(typ),
        None => false,
    }
}

/// Returns the refusal of a token, unless memory ran out.
fn as_token_refusal(refusal: Refusal) -> Result<TokenRefusal, Fault<'static>>
    ensures ok { IfOk result (λ reason. (reason ≡ TokenRefusal.Refused refusal)
        × ¬ IsMemory refusal.error) }
    ensures err { IfErr result (λ fault. (fault ≡ Fault.Memory) × IsMemory refusal.error) }
{
    if is_memory(&refusal.error) {
        return Err(Fault::Memory);
    }
    Ok(TokenRefusal::Refused(refusal))
}
