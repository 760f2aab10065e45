//! The results of the calls for C that issue tokens whose signature is made elsewhere.

ghost use Rattle.std.specs.Prelude.{◌≡◌, ◌⊎◌, Err, IfErr, IfOk, MatchResult, None, Ok, OnOk, Some};
ghost use Rattle.jwt_base.specs.KindOf.{IsMemory};
ghost use Rattle.jwt_crypto.specs.GivenSignature.{HasLength};
ghost use Rattle.jwt_c_calls.specs.BySignature.{AnswersEcdsa, HasExactParts, IsAttachable, IsAttached, IsAttachedBy};
ghost use Rattle.jwt_c_calls.specs.BySignature.{IsAttachedIn, IsUnattachable, IsUnattachedBy};
ghost use Rattle.jwt_c_calls.specs.BySignature.{IsUnattachedIn};
ghost use Rattle.jwt_c_calls.specs.Calls.{Returns, answer_of};
ghost use Rattle.jwt_c_calls.specs.Exact.{IsTokenOf};
ghost use Rattle.jwt_c_calls.specs.Status.{algorithm_numbered};
ghost use Rattle.jwt_base.specs.declared.algorithms.Algorithm.{Algorithm as AlgorithmValue};

use crate::content::Content;
use crate::exact::{check_payload, exact_header};
use crate::handle::Handle;
use crate::inputs::{CallError, is_memory};
use crate::signatures::{OneKey, check, one_key};
use crate::status::numbered_algorithm;
use crate::status_table::{OUT_OF_MEMORY, SIGNING};
use jsonwebtoken::Algorithm;
use jsonwebtoken::crypto::signature::SignatureProvider;
use jsonwebtoken::crypto::{CryptoProvider, JwtSigner};
use jsonwebtoken::dangerous::{insecure_header_bytes, insecure_payload_bytes};
use jsonwebtoken::errors::{Error, ErrorKind, new_error};
use jwt_base::serialization::part_text;
use jwt_key_files::signature::ecdsa_signature;
use std::alloc::Global;
use std::result::Result;

/// A token, and the algorithm of its header.
#[derive(Drop)]
pub struct Attached {
    pub token: Vec<u8>,
    pub algorithm: Algorithm,
}

/// Returns the token of a message and its signature, which the one key of the verifier that a handle
/// holds accepts, or the status of the refusal. With a handle that holds nothing the length of the
/// signature is tested alone.
pub fn attach_in(
    alloc: Global,
    verifier: &mut Handle,
    message: &[u8],
    signature: &[u8],
) -> Result<Vec<u8>, u32>
    ensures held { verifier.new.held ≡ verifier.old.held }
    ensures ok { IfOk result (λ t. IsAttachedIn verifier.old.held message.now signature.now t.items) }
    ensures err { IfErr result (IsUnattachedIn verifier.old.held message.now signature.now) }
{
    match verifier.take(alloc) {
        Some(held) => {
            let token = attach_by_content(alloc, &*held, message, signature);
            *verifier = Handle::of(held);
            token
        }
        None => Ok(attach(alloc, message, signature)?.token),
    }
}

fn attach_by_content(
    alloc: Global,
    content: &Content,
    message: &[u8],
    signature: &[u8],
) -> Result<Vec<u8>, u32>
    ensures ok { IfOk result (λ t. IsAttachedIn (Some content.now) message.now signature.now
        t.items) }
    ensures err { IfErr result (IsUnattachedIn (Some content.now) message.now signature.now) }
{
    let one = one_key(content)?;
    attach_by(alloc, &one, message, signature)
}

fn attach_by(
    alloc: Global,
    one: &OneKey<'_>,
    message: &[u8],
    signature: &[u8],
) -> Result<Vec<u8>, u32>
    ensures ok { IfOk result (λ t. IsAttachedBy
        (record { key = one.now.key.now; algorithms = one.now.algorithms.now }) message.now signature.now
        t.items) }
    ensures err { IfErr result (IsUnattachedBy
        (record { key = one.now.key.now; algorithms = one.now.algorithms.now }) message.now signature.now) }
{
    let attached = attach(alloc, message, signature)?;
    check(alloc, one, attached.algorithm, message, signature)?;
    Ok(attached.token)
}

// Returns the token of a message and a signature that has a length of the header's algorithm.
fn attach(alloc: Global, message: &[u8], signature: &[u8]) -> Result<Attached, u32>
    ensures ok { IfOk result (λ a. IsAttached message.now signature.now a.algorithm a.token.items) }
    ensures err { IfErr result (IsUnattachable message.now signature.now) }
{
    match attached_or_error(alloc, message, signature) {
        Ok(attached) => Ok(attached),
        Err(refused) => {
            if is_memory(&refused) {
                Err(OUT_OF_MEMORY.0)
            } else {
                Err(SIGNING.0)
            }
        }
    }
}

fn attached_or_error(alloc: Global, message: &[u8], signature: &[u8]) -> Result<Attached, Error>
    ensures ok { IfOk result (λ a. IsAttached message.now signature.now a.algorithm a.token.items) }
    ensures err { (a : AlgorithmValue) → IsAttachable message.now signature.now a
        → IfErr result IsMemory }
{
    let token = token_with(alloc, message, signature)?;
    let algorithm = token_algorithm(alloc, token.as_slice())?;
    check_length(alloc, algorithm, message, signature)?;
    Ok(Attached { token, algorithm })
}

/// Returns the message, a dot, and the part of the signature.
pub fn token_with(alloc: Global, message: &[u8], signature: &[u8]) -> Result<Vec<u8>, Error>
    ensures ok { IfOk result (λ t. IsTokenOf message.now signature.now t.items) }
    ensures err { IfErr result IsMemory }
{
    let part = part_text(alloc, signature)?;
    let mut token = message.to_vec(alloc)?;
    token.push(b'.')?;
    token.extend_from_slice(part.as_bytes())?;
    Ok(token)
}

// Returns the algorithm of a token whose header and payload have no name twice.
fn token_algorithm(alloc: Global, token: &[u8]) -> Result<Algorithm, Error>
    ensures ok { IfOk result (HasExactParts token.now) }
    ensures err { (a : AlgorithmValue) → HasExactParts token.now a → IfErr result IsMemory }
{
    let header = insecure_header_bytes(alloc, token)?;
    let payload = insecure_payload_bytes(alloc, token)?;
    let algorithm = exact_header(alloc, header.as_slice())?;
    check_payload(alloc, payload.as_slice())?;
    Ok(algorithm)
}

// Refuses a signature that does not have a length of the algorithm.
fn check_length(
    alloc: Global,
    algorithm: Algorithm,
    message: &[u8],
    signature: &[u8],
) -> Result<(), Error>
    ensures ok { OnOk result (HasLength algorithm signature.now) }
    ensures err { HasLength algorithm signature.now → IfErr result IsMemory }
{
    let given = SignatureProvider::new(algorithm, message, signature);
    let key = given.key(alloc)?;
    let signer = given.signer_factory(alloc, &algorithm, &key)?;
    drop(signer.sign(alloc, message)?);
    Ok(())
}

/// Returns the two numbers of a signature in DER, by the algorithm of ECDSA with this number.
pub fn ecdsa_answer(alloc: Global, der: &[u8], algorithm: u32) -> Result<Vec<u8>, CallError>
    ensures ok { IfOk result (λ b. AnswersEcdsa (algorithm_numbered algorithm) der.now
        (Returns b.items)) }
    ensures err { IfErr result (λ r. AnswersEcdsa (algorithm_numbered algorithm) der.now
        (answer_of r)) }
{
    match numbered_algorithm(algorithm) {
        Some(by) => Ok(ecdsa_signature(alloc, der, by)?),
        None => Err(CallError::Token(new_error(ErrorKind::InvalidAlgorithmName))),
    }
}
