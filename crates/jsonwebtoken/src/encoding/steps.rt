//! The steps that the calls that issue tokens share.

ghost use Rattle.std.specs.Prelude.{◌≡◌, ◌++◌, ◌∷◌, List, ℕ, Option, Some, None, false, IfOk};
ghost use Rattle.std.specs.Prelude.{IfErr, OnOk, option_map, string_bytes};
ghost use Rattle.serde_json.specs.Data.{Data};
ghost use Rattle.serde_json.specs.View.{view};
ghost use Rattle.serde_json.specs.Written.{has_float as holds_float};
ghost use Rattle.jwt_base.specs.Algorithm.{family_of};
ghost use Rattle.jwt_base.specs.Base64Url.{IsPart};
ghost use Rattle.jwt_base.specs.Kind as kind;
ghost use Rattle.jwt_base.specs.KindOf.{IsMemory, Refuses, RefusesAs};
ghost use Rattle.jwt_header.specs.Header.{header_value};
ghost use Rattle.jwt_header.specs.HeaderWritten.{HasNormalForm};
ghost use Rattle.jsonwebtoken.specs.Issue.{WrittenAs, AreWritten, payload_of};
ghost use Rattle.jsonwebtoken.specs.private_clauses.IssueSteps.{AsksFor, IsPartOf, IsPayloadOf};
ghost use Rattle.jsonwebtoken.specs.Tests.{dot};

use crate::known_headers::known_part;
use jwt_base::algorithms::Algorithm;
use jwt_base::errors::{ErrorKind, Result, new_error};
use jwt_base::json::Claims;
use jwt_base::serialization::part_text;
use jwt_header::Header;
use jwt_keys::encoding_key::EncodingKey;
use jwt_keys::provider::JwtSigner;
use serde_json::Value;
use std::alloc::Global;

/// Refuses a key of another family than the algorithm's with `InvalidAlgorithm`.
pub(crate) fn check_family(key: &EncodingKey, algorithm: Algorithm) -> Result<()>
    ensures { AsksFor (key.now.family ≡ family_of algorithm)
        (λ k. k ≡ kind.InvalidAlgorithm) result }
{
    if key.family() == algorithm.family() {
        return Ok(());
    }
    Err(new_error(ErrorKind::InvalidAlgorithm))
}

/// Returns the header part. The part of four headers is known without being written.
pub(crate) fn header_part(alloc: Global, header: &Header) -> Result<String>
    ensures ok { IfOk result (λ t. (d : Data)
        × ((header_value header.now ≡ Some d) × IsPartOf d (string_bytes t))) }
    ensures err { IfErr result (RefusesAs kind.Json (header_value header.now ≡ None)) }
    ensures normal_form { HasNormalForm header.now }
{
    if let Some(part) = known_part(header) {
        return Ok(String::from_str(alloc, part)?);
    }
    let value = header.to_value(alloc)?;
    value_part(alloc, &value)
}

/// Returns the part of the claims. Claims that cannot be written and those with a float in them are
/// refused with `Json`.
pub(crate) fn claims_part<T: Claims>(alloc: Global, claims: &T) -> Result<String>
    ensures ok { IfOk result (λ t. (d : Data)
        × ((T.written claims.now ≡ Some d) × IsPartOf d (string_bytes t))) }
    ensures err { IfErr result (RefusesAs kind.Json
        ((v : Option Data) → ¬ AreWritten (WrittenAs (T.written claims.now)) v)) }
{
    let text = claims.to_text(alloc)?;
    part_text(alloc, text.as_slice())
}

/// Returns the part of the claims, which is empty if there are none.
pub(crate) fn payload_part<T: Claims>(alloc: Global, claims: Option<&T>) -> Result<String>
    ensures ok { IfOk result (λ t. (v : Option Data)
        × (AreWritten (payload_of (option_map (λ c. T.written c.now) claims.entry)) v
        × IsPayloadOf v (string_bytes t))) }
    ensures err { IfErr result (RefusesAs kind.Json
        ((v : Option Data) → ¬ AreWritten (payload_of
        (option_map (λ c. T.written c.now) claims.entry)) v)) }
{
    match claims {
        Some(claims) => claims_part(alloc, claims),
        None => Ok(String::new(alloc)),
    }
}

/// Returns the string, a dot, and the part.
pub(crate) fn with_part(mut text: String, part: &str) -> Result<String>
    ensures ok { IfOk result (λ t. string_bytes t ≡ string_bytes text ++ dot ∷ part.now) }
    ensures err { IfErr result IsMemory }
{
    text.push('.')?;
    text.push_str(part)?;
    Ok(text)
}

/// The message of a token that is signed, and the part of its signature.
#[derive(Drop)]
pub(crate) struct SignedMessage {
    pub(crate) message: String,
    pub(crate) signature: String,
}

/// Returns the header part, a dot and the payload part, with the part of their signature.
pub(crate) fn sign_parts<S: JwtSigner>(
    alloc: Global,
    signer: &S,
    header: String,
    payload: &str,
) -> Result<SignedMessage>
    ensures message { IfOk result (λ s. string_bytes s.message
        ≡ string_bytes header ++ dot ∷ payload.now) }
    ensures signed { IfOk result (λ s. (b : List ℕ) × (IsPart (string_bytes s.signature) b
        × S.signs signer.now (string_bytes header ++ dot ∷ payload.now) b)) }
    ensures ok { OnOk result (S.sign_refusal signer.now (string_bytes header ++ dot ∷ payload.now)
        ≡ None) }
    ensures err { IfErr result (Refuses (S.sign_refusal signer.now
        (string_bytes header ++ dot ∷ payload.now))) }
{
    let message = with_part(header, payload)?;
    let signature = signature_part(alloc, signer, message.as_bytes())?;
    Ok(SignedMessage { message, signature })
}

/// Returns the part that stands for the compact text of a value without floats.
fn value_part(alloc: Global, value: &Value) -> Result<String>
    requires { holds_float (view value.now) ≡ false }
    ensures ok { IfOk result (λ t. IsPartOf (view value.now) (string_bytes t)) }
    ensures err { IfErr result IsMemory }
{
    let text = value.to_vec(alloc)?;
    part_text(alloc, text.as_slice())
}

/// Returns the part of a signature of the message.
fn signature_part<S: JwtSigner>(alloc: Global, signer: &S, message: &[u8]) -> Result<String>
    ensures signed { IfOk result (λ t. (b : List ℕ)
        × (IsPart (string_bytes t) b × S.signs signer.now message.now b)) }
    ensures ok { OnOk result (S.sign_refusal signer.now message.now ≡ None) }
    ensures err { IfErr result (Refuses (S.sign_refusal signer.now message.now)) }
{
    let signature = signer.sign(alloc, message)?;
    part_text(alloc, signature.as_slice())
}
