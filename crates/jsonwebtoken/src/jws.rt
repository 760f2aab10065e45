//! Tokens in parts, as the members of the flattened JSON form (RFC 7515 section 7.2.2).

// One function more, `decode_parts`, borrows the text that `decode_by_steps` joins of the parts.

ghost use Rattle.std.specs.Prelude.{◌≡◌, ◌↔◌, ◌++◌, ◌∷◌, ℕ, List, Some, None, IfOk, IfErr};
ghost use Rattle.std.specs.Prelude.{string_bytes, OnOk};
ghost use Rattle.serde_json.specs.View.{view};
ghost use Rattle.jwt_base.specs.Algorithm.{family_of};
ghost use Rattle.jwt_base.specs.Base64Url.{IsPart};
ghost use Rattle.jwt_base.specs.Kind as kind;
ghost use Rattle.jwt_base.specs.KindOf.{IsMemory, RefusesAs, Refuses};
ghost use Rattle.jwt_base.specs.Members.{text_at};
ghost use Rattle.jwt_keys.specs.Key.{key_family};
ghost use Rattle.jwt_validation.specs.OptionsOf.{options_of};
ghost use Rattle.jsonwebtoken.specs.Calls.{decoding_parts, Carries};
ghost use Rattle.jsonwebtoken.specs.Order.{Passes, Decides};
ghost use Rattle.jsonwebtoken.specs.Issue.{Written, AreIssued, ReadsBack, jws_encode_order};
ghost use Rattle.jsonwebtoken.specs.Issue.{issue_tests};
ghost use Rattle.jsonwebtoken.specs.IssueCalls.{encoding_parts};
ghost use Rattle.jsonwebtoken.specs.private_clauses.IssueSteps.{IssueStep};
ghost use Rattle.jsonwebtoken.specs.Jws.{parts_of, ReadsParts, parts_value};
ghost use Rattle.jsonwebtoken.specs.Laws.{HasLaws, AgreeOn};
ghost use Rattle.jsonwebtoken.specs.Steps.{Step};
ghost use Rattle.jsonwebtoken.specs.private_clauses.Steps.{ShowsNothing, ShowsClaims};
ghost use Rattle.jsonwebtoken.specs.private_clauses.Steps.{parts_in, allowing, with_header};
ghost use Rattle.jsonwebtoken.specs.private_clauses.Steps.{with_opening, whole};
ghost use Rattle.jsonwebtoken.specs.Tests.{dot, Parts, Separate, message_of, text_of_parts};
ghost use Rattle.jsonwebtoken.specs.Tests.{CritIsUnderstood, jws_algorithm_tests, verifying_tests};
ghost use Rattle.jsonwebtoken.specs.Tests.{jws_order, token_tests};

use crate::decoding::crit::check_crit;
use crate::decoding::engine::make_verifier;
use crate::decoding::one_key::OneKey;
use crate::decoding::parts::{Opening, TokenParts};
use crate::decoding::steps::{
    check_families, check_listed, check_some_listed, read_header, verify_and_read_claims,
};
use crate::decoding::{TokenData, token_data};
use crate::encoding::steps::{check_family, header_part, payload_part, sign_parts, with_part};
use crate::refusal::{Refusal, Test, with_test, without_test};
use jwt_base::errors::{ErrorKind, Result, new_error};
use jwt_base::json::Claims;
use jwt_base::json::members::put_text;
use jwt_header::Header;
use jwt_keys::decoding_key::DecodingKey;
use jwt_keys::encoding_key::EncodingKey;
use jwt_keys::provider::{CryptoProvider, JwtSigner};
use jwt_validation::Validation;
use serde_json::{Map, Value};
use std::alloc::Global;
use std::marker::PhantomData;

/// A signed token in parts. `C` is the type of its claims.
#[derive(Debug, Drop)]
pub struct Jws<C> {
    /// The header part.
    pub protected: String,
    /// The payload part.
    pub payload: String,
    /// The signature part.
    pub signature: String,
    /// The type of the claims.
    pub _pd: PhantomData<C>,
}

impl<C> Jws<C> {
    /// Returns the JSON object of the three strings. The only refusal is `OutOfMemory`.
    pub fn to_value(&self, alloc: Global) -> Result<Value>
        ensures ok { IfOk result (λ v. view v ≡ parts_value (parts_of self.now)) }
        ensures reads_back { IfOk result (λ v. ReadsParts (view v) (parts_of self.now)) }
        ensures err { IfErr result IsMemory }
    {
        let mut members = Map::new(alloc);
        put_text(alloc, &mut members, "signature", self.signature.as_str())?;
        put_text(alloc, &mut members, "protected", self.protected.as_str())?;
        put_text(alloc, &mut members, "payload", self.payload.as_str())?;
        Ok(Value::Object(members))
    }

    /// Returns the token of the three strings of a JSON object, whose further members are ignored.
    /// A value that is not an object or lacks one of the strings is refused with `Json`.
    pub fn from_value(alloc: Global, value: &Value) -> Result<Jws<C>>
        ensures ok { IfOk result (λ j. ReadsParts (view value.now) (parts_of j)) }
        ensures err { IfErr result (RefusesAs kind.Json
            ((p : Parts) → ¬ ReadsParts (view value.now) p)) }
    {
        Ok(Jws {
            protected: required_text(alloc, value, "protected")?,
            payload: required_text(alloc, value, "payload")?,
            signature: required_text(alloc, value, "signature")?,
            _pd: PhantomData,
        })
    }

    /// Returns a copy. The only refusal is `OutOfMemory`.
    pub fn clone(&self, alloc: Global) -> Result<Jws<C>>
        ensures ok { IfOk result (λ j. parts_of j ≡ parts_of self.now) }
        ensures err { IfErr result IsMemory }
    {
        Ok(Jws {
            protected: String::from_str(alloc, self.protected.as_str())?,
            payload: String::from_str(alloc, self.payload.as_str())?,
            signature: String::from_str(alloc, self.signature.as_str())?,
            _pd: PhantomData,
        })
    }
}

/// Signs a header and claims with the key, and returns the token in parts. Without claims the
/// payload part is empty.
///
/// The tests are those of [`encode`](crate::encode), but the signer is made after the claims are
/// written. Absent claims are not tested.
pub fn encode<P: CryptoProvider, T: Claims>(
    alloc: Global,
    provider: &P,
    header: &Header,
    claims: Option<&T>,
    key: &EncodingKey,
) -> Result<Jws<T>>
    ensures decided { let issue = encoding_parts P.CryptoProvider T.Claims
        provider.now header.now claims.entry key.now in
        Decides (issue_tests issue) jws_encode_order
        (λ t j. AreIssued issue t (parts_of j)) result }

    // With claims, the text of the parts is read as the header's normal form and the claims' value,
    // and its signature is accepted with each key that accepts the signatures of this key.
    ensures read_back { let issue = encoding_parts P.CryptoProvider T.Claims
        provider.now header.now claims.entry key.now in
        IfOk result (λ j. (t : Written) → Passes (issue_tests issue) jws_encode_order t
        → ReadsBack issue (P.accepts provider.now) t (text_of_parts (parts_of j))) }
{
    encode_by_steps(alloc, provider, header, claims, key)
}

/// Verifies a token in parts with the key, at the time `time`, in whole seconds since 1970-01-01
/// 00:00:00 UTC, and returns its header and its claims. It accepts exactly the parts whose texts,
/// joined by dots, [`decode`](crate::decode) accepts.
///
/// The tests are those of [`decode`](crate::decode) except that of the dots. Those of the
/// algorithms stand in another order: the provider makes a verifier for the header's algorithm and
/// the key, else the provider's kind; `validation` lists an algorithm, else `MissingAlgorithm`;
/// every listed algorithm is of the same family, and the header's is listed, else
/// `InvalidAlgorithm`.
pub fn decode<P: CryptoProvider, T: Claims>(
    alloc: Global,
    provider: &P,
    token: &Jws<T>,
    key: &DecodingKey,
    validation: &Validation,
    time: u64,
) -> Result<TokenData<T>>
    ensures decided { let call = decoding_parts P.CryptoProvider T.Claims
        provider.now (parts_of token.now) key.now validation.now time in
        Decides (token_tests call) jws_order (Carries call) result }

    // The key is of the family of the header's algorithm.
    ensures family { IfOk result (λ r. key_family key.now ≡ family_of r.header.alg) }

    // A token is accepted exactly at the times
    // from the first to the last, and under every looser validation too, with the same header and
    // claims. If the provider accepts at most one signature of each message, the header's and the
    // payload's bytes fix the three parts.
    ensures laws { HasLaws
        (decoding_parts P.CryptoProvider T.Claims provider.now (parts_of token.now) key.now
        validation.now time)
        jws_order Parts Separate (parts_of token.now) }

    // It accepts three parts exactly when `decode` accepts their text, with the same header and
    // claims.
    ensures agrees { (p : Parts) → AgreeOn
        (decoding_parts P.CryptoProvider T.Claims provider.now (parts_of token.now) key.now
        validation.now time) p }
{
    without_test(decode_by_steps(alloc, provider, token, key, validation, time))
}

fn required_text(alloc: Global, value: &Value, name: &str) -> Result<String>
    ensures ok { IfOk result (λ t. text_at name.now (view value.now) ≡ Some (string_bytes t)) }
    ensures err { IfErr result (RefusesAs kind.Json (text_at name.now (view value.now) ≡ None)) }
{
    match value.get(name).and_then(Value::as_str) {
        Some(text) => Ok(String::from_str(alloc, text)?),
        None => Err(new_error(ErrorKind::Json)),
    }
}

fn encode_by_steps<P: CryptoProvider, T: Claims>(
    alloc: Global,
    provider: &P,
    header: &Header,
    claims: Option<&T>,
    key: &EncodingKey,
) -> Result<Jws<T>>
    ensures { let issue = encoding_parts P.CryptoProvider T.Claims
        provider.now header.now claims.entry key.now in
        IssueStep issue jws_encode_order (λ t j. AreIssued issue t (parts_of j)
        × ReadsBack issue (P.accepts provider.now) t (text_of_parts (parts_of j))) result }
{
    let algorithm = header.alg;
    check_family(key, algorithm)?;
    let protected = header_part(alloc, header)?;
    let payload = payload_part(alloc, claims)?;
    let signer = provider.signer_factory(alloc, &algorithm, key)?;
    let signature = sign_texts(alloc, &signer, protected.as_str(), payload.as_str())?;
    Ok(Jws {
        protected,
        payload,
        signature,
        _pd: PhantomData,
    })
}

/// Returns the part of the signature of the header part, a dot and the payload part.
fn sign_texts<S: JwtSigner>(
    alloc: Global,
    signer: &S,
    header: &str,
    payload: &str,
) -> Result<String>
    ensures signed { IfOk result (λ t. (b : List ℕ) × (IsPart (string_bytes t) b
        × S.signs signer.now (header.now ++ dot ∷ payload.now) b)) }
    ensures ok { OnOk result (S.sign_refusal signer.now (header.now ++ dot ∷ payload.now)
        ≡ None) }
    ensures err { IfErr result (Refuses (S.sign_refusal signer.now
        (header.now ++ dot ∷ payload.now))) }
{
    let front = String::from_str(alloc, header)?;
    let signed = sign_parts(alloc, signer, front, payload)?;
    Ok(signed.signature)
}

fn decode_by_steps<P: CryptoProvider, T: Claims>(
    alloc: Global,
    provider: &P,
    token: &Jws<T>,
    key: &DecodingKey,
    validation: &Validation,
    time: u64,
) -> Result<TokenData<T>, Refusal>
    ensures { let call = decoding_parts P.CryptoProvider T.Claims
        provider.now (parts_of token.now) key.now validation.now time in
        Step call jws_order whole (Carries call) result }
{
    let message = with_test(Test::HasThreeParts, signed_message(alloc, token))?;
    let parts = TokenParts {
        message: message.as_bytes(),
        header: token.protected.as_bytes(),
        payload: token.payload.as_bytes(),
        signature: token.signature.as_bytes(),
    };
    // named for the proof
    let data = decode_parts(alloc, provider, &parts, key, validation, time)?;
    Ok(data)
}

/// Returns the message that is signed (RFC 7515 section 5.1).
fn signed_message<T>(alloc: Global, token: &Jws<T>) -> Result<String>
    ensures ok { IfOk result (λ m. string_bytes m ≡ message_of (parts_of token.now)) }
    ensures err { IfErr result IsMemory }
{
    let front = String::from_str(alloc, token.protected.as_str())?;
    with_part(front, token.payload.as_str())
}

fn decode_parts<P: CryptoProvider, T: Claims>(
    alloc: Global,
    provider: &P,
    parts: &TokenParts<'_>,
    key: &DecodingKey,
    validation: &Validation,
    time: u64,
) -> Result<TokenData<T>, Refusal>
    ensures { let call = decoding_parts P.CryptoProvider T.Claims
        provider.now (parts_in parts.now) key.now validation.now time in
        Step call jws_order whole (Carries call) result }
{
    let header = read_header(alloc, parts.header)?;
    let opening = Opening {
        parts,
        header: &header,
    };
    let claims = read_claims_by_key(alloc, provider, &opening, key, validation, time);
    token_data(header, claims)
}

/// Returns the claims of a token that passes, by the key, the tests that follow those of its
/// header.
fn read_claims_by_key<P: CryptoProvider, T: Claims>(
    alloc: Global,
    provider: &P,
    opening: &Opening<'_>,
    key: &DecodingKey,
    validation: &Validation,
    time: u64,
) -> Result<T, Refusal>
    ensures { let call = decoding_parts P.CryptoProvider T.Claims
        provider.now (parts_in opening.now.parts.now) key.now validation.now time in
        Step call (CritIsUnderstood ∷ (jws_algorithm_tests ++ verifying_tests))
        (with_opening (parts_in opening.now.parts.now) opening.now.header.now)
        (ShowsClaims T.reads) result }
{
    check_crit(opening.header, validation)?;
    let verifier = verifier_for(alloc, provider, opening.header, key, validation)?;
    let claims = verify_and_read_claims(alloc, &verifier, opening.parts, validation, time)?;
    Ok(claims)
}

/// Returns the verifier by the key and the header's algorithm, which is among those that are
/// allowed: the tests of the algorithms of [`decode`](crate::decode) in another order.
fn verifier_for<P: CryptoProvider>(
    alloc: Global,
    provider: &P,
    header: &Header,
    key: &DecodingKey,
    validation: &Validation,
) -> Result<P::Verifier, Refusal>
    ensures tests { Step
        (allowing (options_of validation.now) key.now (P.verifier_refusal provider.now))
        jws_algorithm_tests (with_header header.now) ShowsNothing result }
    ensures accepts { IfOk result (λ v. (m s : List ℕ) →
        P.Verifier.accepts v m s ↔ P.accepts provider.now header.now.alg key.now m s) }
{
    let algorithm = header.alg;
    let keys = OneKey { provider, key };
    let verifier = make_verifier(alloc, &keys, &key, algorithm)?;
    let algorithms = validation.algorithms.as_slice();
    check_some_listed(algorithms)?;
    check_families(algorithms, None, algorithm)?;
    check_listed(algorithms, None, algorithm)?;
    Ok(verifier)
}
