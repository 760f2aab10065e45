//! The result of the call for C that verifies one signature of a message.

// A signature alone says nothing of a token's header and claims: the call is for what is signed in
// other forms, such as a detached payload.

ghost use Rattle.std.specs.Prelude.{◌≡◌, ◌⊎◌, ◌↔◌, Contains, Err, IfErr, IsTrue, MatchResult, Ok, OnOk};
ghost use Rattle.jwt_base.specs.Kind.{Kind};
ghost use Rattle.jwt_base.specs.KindOf.{kind_of, IsMemory};
ghost use Rattle.jwt_c_calls.specs.Contents.{acceptors_in};
ghost use Rattle.jwt_c_calls.specs.Signatures.{ChecksSignature, IsAcceptedBy, IsChecked, IsRefusedBy};
ghost use Rattle.jwt_c_calls.specs.Signatures.{IsUnchecked, LeavesCheck, one_key_in, OneKey as OneKeyValue};
ghost use Rattle.jwt_c_calls.specs.Status.{algorithm_numbered, number};

use crate::content::Content;
use crate::handle::Handle;
use crate::status::{number_of, numbered_algorithm};
use crate::status_table::{INVALID_ALGORITHM, INVALID_ALGORITHM_NAME, NO_VERIFIER, OK, UNFIT_KEY};
use jsonwebtoken::crypto::{CryptoProvider, JwtVerifier};
use jsonwebtoken::errors::{Error, ErrorKind, new_error};
use jsonwebtoken::{Algorithm, DecodingKey};
use jwt_standard::StandardProvider;
use jwt_verifier::Keys;
use std::alloc::Global;
use std::result::Result;

/// The one key of a verifier, and the algorithms that it accepts.
#[derive(Clone, Copy)]
pub struct OneKey<'a> {
    pub key: &'a DecodingKey,
    pub algorithms: &'a [Algorithm],
}

/// Returns the status of a signature of a message that is verified with the one key of the verifier
/// that a handle holds, by the algorithm of this number.
pub fn check_in(
    alloc: Global,
    verifier: &mut Handle,
    number: u32,
    message: &[u8],
    signature: &[u8],
) -> u32
    ensures held { verifier.new.held ≡ verifier.old.held }
    ensures check { LeavesCheck verifier.old.held (algorithm_numbered number) message.now
        signature.now result }
{
    match verifier.take(alloc) {
        Some(held) => {
            let status = check_of(alloc, &*held, number, message, signature);
            *verifier = Handle::of(held);
            status
        }
        None => NO_VERIFIER.0,
    }
}

fn check_of(alloc: Global, content: &Content, number: u32, message: &[u8], signature: &[u8]) -> u32
    ensures { LeavesCheck (Some content.now) (algorithm_numbered number) message.now signature.now
        result }
{
    match one_key(content) {
        Ok(key) => check_number(alloc, &key, number, message, signature),
        Err(status) => status,
    }
}

/// Returns the one key of the verifier that a handle holds, or the status of the reason for which
/// there is none.
pub fn one_key(content: &Content) -> Result<OneKey<'_>, u32>
    ensures { MatchResult result (λ k. one_key_in (acceptors_in (Some content.now))
        ≡ Ok (record { key = k.key.now; algorithms = k.algorithms.now }))
        (λ status. one_key_in (acceptors_in (Some content.now)) ≡ Err status) }
{
    match content {
        Content::Keys(_) => Err(NO_VERIFIER.0),
        Content::Verifier(first, others) => {
            if !others.is_empty() {
                return Err(UNFIT_KEY.0);
            }
            match first.verifier.keys.keys() {
                Keys::One(key) => Ok(OneKey {
                    key,
                    algorithms: first.verifier.validation.algorithms.as_slice(),
                }),
                Keys::Set(_) => Err(UNFIT_KEY.0),
            }
        }
    }
}

fn check_number(
    alloc: Global,
    one: &OneKey<'_>,
    number: u32,
    message: &[u8],
    signature: &[u8],
) -> u32
    ensures { ChecksSignature (algorithm_numbered number)
        (record { key = one.now.key.now; algorithms = one.now.algorithms.now }) message.now signature.now
        result }
{
    match numbered_algorithm(number) {
        Some(algorithm) => match check(alloc, one, algorithm, message, signature) {
            Ok(()) => OK.0,
            Err(status) => status,
        },
        None => INVALID_ALGORITHM_NAME.0,
    }
}

/// Verifies a signature of a message with the one key of a verifier, or returns the status of the
/// refusal.
pub fn check(
    alloc: Global,
    one: &OneKey<'_>,
    algorithm: Algorithm,
    message: &[u8],
    signature: &[u8],
) -> Result<(), u32>
    ensures ok { OnOk result (IsChecked
        (record { key = one.now.key.now; algorithms = one.now.algorithms.now }) algorithm message.now
        signature.now) }
    ensures err { IfErr result (λ status. (k : Kind) × IsUnchecked
        (record { key = one.now.key.now; algorithms = one.now.algorithms.now }) algorithm message.now
        signature.now k × (status ≡ number k)) }
{
    if !is_listed(one.algorithms, algorithm) {
        return Err(INVALID_ALGORITHM.0);
    }
    match verify_by_key(alloc, message, signature, one.key, algorithm) {
        Ok(()) => Ok(()),
        Err(refused) => Err(number_of(refused.kind())),
    }
}

fn is_listed(algorithms: &[Algorithm], algorithm: Algorithm) -> bool
    ensures { IsTrue result ↔ Contains algorithms.now algorithm }
{
    algorithms.contains(&algorithm)
}

fn verify_by_key(
    alloc: Global,
    message: &[u8],
    signature: &[u8],
    key: &DecodingKey,
    algorithm: Algorithm,
) -> Result<(), Error>
    ensures ok { OnOk result (IsAcceptedBy algorithm key.now message.now signature.now) }
    ensures err { IfErr result (λ e. IsMemory e
        ⊎ IsRefusedBy algorithm key.now message.now signature.now (kind_of e)) }
{
    let verifier = StandardProvider.verifier_factory(alloc, &algorithm, key)?;
    let verdict = verifier.verify(alloc, message, signature);
    drop(verifier);
    if verdict? {
        Ok(())
    } else {
        Err(new_error(ErrorKind::InvalidSignature))
    }
}
