//! The command `sign` for a signature that another program makes.

// The second step takes the signing input that the first one printed, and no header and no claims:
// these would have to be the same, with the same times, or the signature would be of another
// message.

ghost use Rattle.std.specs.Prelude.{◌≡◌, ◌≢◌, ◌⊎◌, IfOk, IfErr, option_map, string_bytes};
ghost use Rattle.serde_json.specs.View.{view};
ghost use Rattle.jwt_base.specs.Algorithm.{family_of};
ghost use Rattle.jwt_base.specs.KindOf.{kind_of, IsMemory};
ghost use Rattle.jwt_base.specs.declared.algorithms.AlgorithmFamily.TheVariants.{Hmac};
ghost use Rattle.jwt_validation.specs.OptionsOf.{options_of};
ghost use Rattle.jwt_key_files.specs.EcdsaSignatures.{IsSignatureRefused};
ghost use Rattle.jwt_command.specs.BySignature.{IsAttached, IsChecked, IsDataAnswer, IsInputAnswer};
ghost use Rattle.jwt_command.specs.BySignature.{IsNotTokenOf, IsSignatureIn, IsTokenAnswer, IsTokenOf};
ghost use Rattle.jwt_command.specs.BySignature.{IsUnsigned, numbers_length, signature_options};
ghost use Rattle.jwt_command.specs.Claimed.{header_asked};

use crate::answer::Answer;
use crate::keys::LoadedKeys;
use crate::sign::{header, refusal_answer, signed_answer};
use crate::verify::case::Case;
use crate::verify::verdict::refusal_of;
use jsonwebtoken::crypto::signature::SignatureProvider;
use jsonwebtoken::dangerous::insecure_decode;
use jsonwebtoken::errors::Error;
use jsonwebtoken::{Algorithm, Header, TokenData, Validation, encode_by_signature, signing_input};
use jwt_findings::{TokenRefusal, token_refusal_line};
use jwt_key_files::signature::ecdsa_signature;
use jwt_requests::{Draft, Fault, fault_of, is_of_secret};
use serde_json::Value;
use std::alloc::Global;

/// Returns what another program has to sign for claims, under the header that the arguments ask
/// for. No line end follows it, since a program that signs its input would sign that too.
pub fn input_answer(
    alloc: Global,
    draft: &Draft<'_>,
    claims: &Value,
) -> Result<Answer, Fault<'static>>
    ensures { IfOk result (λ a. IsInputAnswer (header_asked draft.entry.now) (view claims.now)
        a.status (string_bytes a.output)) }
{
    match header(alloc, draft) {
        Ok(header) => {
            let answer = message_answer(alloc, &header, claims);
            // one drop
            drop(header);
            answer
        }
        Err(_) => Err(Fault::Memory),
    }
}

/// Returns the token of a signing input and of the signature in a file. With keys, it has to be
/// accepted by them.
pub fn attached_answer(
    alloc: Global,
    input: &[u8],
    file: &[u8],
    loaded: Option<&LoadedKeys>,
) -> Result<Answer, Fault<'static>>
    ensures { IfOk result (λ a. IsAttached input.now file.now
        (option_map (λ l. l.now.keys.keys) loaded.entry) a.status (string_bytes a.output)) }
{
    let contents = unsigned(alloc, input)?;
    let answer = contents_answer(alloc, &contents, input, file, loaded);
    // one drop
    drop(contents);
    answer
}

fn message_answer(alloc: Global, header: &Header, claims: &Value) -> Result<Answer, Fault<'static>>
    ensures { IfOk result (λ a. IsInputAnswer header.now (view claims.now) a.status
        (string_bytes a.output)) }
{
    match signing_input(alloc, header, claims) {
        Ok(input) => Ok(Answer {
            status: 0,
            output: input.message,
            message: String::new(alloc),
        }),
        Err(error) => refusal_answer(alloc, error, claims),
    }
}

/// Returns header and claims of a signing input, whose algorithm is not one of a secret.
fn unsigned(alloc: Global, input: &[u8]) -> Result<TokenData<Value>, Fault<'static>>
    ensures { IfOk result (λ d. IsUnsigned input.now d.header (view d.claims)) }
{
    let mut token = input.to_vec(alloc)?;
    token.push(b'.')?;
    match insecure_decode(alloc, &token) {
        Ok(contents) => unless_of_secret(contents),
        Err(error) => Err(fault_of(
            &error,
            Fault::Usage("standard input is not what 'jwt sign --signing-input' prints"),
        )),
    }
}

/// Returns header and claims, unless a secret signs with the algorithm.
fn unless_of_secret(contents: TokenData<Value>) -> Result<TokenData<Value>, Fault<'static>>
    ensures { IfOk result (λ d. (d ≡ contents) × (family_of contents.header.alg ≢ Hmac)) }
{
    if is_of_secret(contents.header.alg) {
        drop(contents);
        return Err(Fault::Usage(
            "the signing input names an algorithm of a secret; --secret-file signs with one",
        ));
    }
    Ok(contents)
}

fn contents_answer(
    alloc: Global,
    contents: &TokenData<Value>,
    input: &[u8],
    file: &[u8],
    loaded: Option<&LoadedKeys>,
) -> Result<Answer, Fault<'static>>
    ensures { IfOk result (λ a. IsDataAnswer (option_map (λ l. l.now.keys.keys) loaded.entry)
        contents.now.header (view contents.now.claims) input.now file.now a.status
        (string_bytes a.output)) }
{
    match token_of(alloc, contents, input, file) {
        Ok(token) => token_answer(alloc, token, contents.header.alg, loaded),
        Err(error) => refusal_answer(alloc, error, &contents.claims),
    }
}

/// Returns the token of a signing input, of its header and claims, and of the signature in a file.
fn token_of(
    alloc: Global,
    contents: &TokenData<Value>,
    input: &[u8],
    file: &[u8],
) -> Result<String, Error>
    ensures ok { IfOk result (λ token. IsTokenOf contents.now.header (view contents.now.claims) input.now
        file.now (string_bytes token)) }
    ensures err { IfErr result (λ e. IsMemory e ⊎ IsNotTokenOf contents.now.header
        (view contents.now.claims) input.now file.now (kind_of e)) }
{
    let algorithm = contents.header.alg;
    let signature = signature_in(alloc, algorithm, file)?;
    let given = SignatureProvider::new(algorithm, input, &signature);
    // named for the proof
    let token = encode_by_signature(alloc, &contents.header, &contents.claims, &given)?;
    Ok(token)
}

/// Returns the signature in a file: with ECDSA, bytes of another length than both numbers have are
/// read as DER.
fn signature_in(alloc: Global, algorithm: Algorithm, file: &[u8]) -> Result<Vec<u8>, Error>
    ensures ok { IfOk result (λ s. IsSignatureIn algorithm file.now s.items) }
    ensures err { IfErr result (λ e. IsMemory e
        ⊎ IsSignatureRefused algorithm file.now (kind_of e)) }
{
    let Some(both) = length_of_numbers(algorithm) else {
        return Ok(file.to_vec(alloc)?);
    };
    if file.len() == both {
        return Ok(file.to_vec(alloc)?);
    }
    // named for the proof
    let signature = ecdsa_signature(alloc, file, algorithm)?;
    Ok(signature)
}

/// Returns the length of both numbers of a signature by ECDSA.
fn length_of_numbers(algorithm: Algorithm) -> Option<usize>
    ensures { result ≡ numbers_length algorithm }
{
    match algorithm {
        Algorithm::ES256 => Some(64),
        Algorithm::ES384 => Some(96),
        _ => None,
    }
}

/// Returns the answer to a token of this algorithm, which keys have to accept if there are any.
fn token_answer(
    alloc: Global,
    token: String,
    algorithm: Algorithm,
    loaded: Option<&LoadedKeys>,
) -> Result<Answer, Fault<'static>>
    ensures { IfOk result (λ a. IsTokenAnswer (option_map (λ l. l.now.keys.keys) loaded.entry) algorithm
        (string_bytes token) a.status (string_bytes a.output)) }
{
    let reason = refusal_by_key(alloc, token.as_str(), algorithm, loaded)?;
    match reason {
        None => signed_answer(alloc, token),
        Some(reason) => Ok(Answer {
            status: 1,
            output: String::new(alloc),
            message: token_refusal_line(alloc, &reason)?,
        }),
    }
}

/// Returns why the keys refuse the signature of a token, or `None` if they accept it or there are no
/// keys.
fn refusal_by_key<'c>(
    alloc: Global,
    token: &'c str,
    algorithm: Algorithm,
    loaded: Option<&'c LoadedKeys>,
) -> Result<Option<TokenRefusal>, Fault<'static>>
    ensures { IfOk result (IsChecked (option_map (λ l. l.now.keys.keys) loaded.entry) algorithm
        token.now) }
{
    let Some(loaded) = loaded else {
        return Ok(None);
    };
    let validation = signature_validation(alloc, algorithm)?;
    let case = Case {
        token: token.as_bytes(),
        loaded,
        typ: None,
        time: 0,
    };
    let reason = refusal_of(alloc, case, &validation);
    // one drop
    drop(validation);
    reason
}

/// Returns options of which the algorithm alone is tested, and no claim.
fn signature_validation(alloc: Global, algorithm: Algorithm) -> Result<Validation, Fault<'static>>
    ensures { IfOk result (λ v. options_of v ≡ signature_options algorithm) }
{
    let Ok(mut validation) = Validation::new(alloc, algorithm) else {
        return Err(Fault::Memory);
    };
    let Ok(()) = validation.set_required_spec_claims(alloc, &[]) else {
        return Err(Fault::Memory);
    };
    validation.validate_exp = false;
    validation.validate_aud = false;
    Ok(validation)
}
