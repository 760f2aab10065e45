//! The result of the call for C that signs with a secret.

ghost use Rattle.std.specs.Prelude.{◌≡◌, ◌⊎◌, IfErr, IfOk, Some, string_bytes};
ghost use Rattle.jwt_base.specs.Algorithm.{family_of};
ghost use Rattle.jwt_base.specs.KindOf.{kind_of, IsMemory};
ghost use Rattle.jwt_base.specs.declared.algorithms.AlgorithmFamily.TheVariants.{Hmac};
ghost use Rattle.jwt_crypto.specs.HmacKeys.{HmacSigns};
ghost use Rattle.jwt_keys.specs.KeyOfJwk.{IsKeyOf};
ghost use Rattle.jwt_c_calls.specs.Calls.{Returns, answer_of};
ghost use Rattle.jwt_c_calls.specs.Contents.{keys_in};
ghost use Rattle.jwt_c_calls.specs.Issued.{AnswersSign, IsSignedBy, IsUnsignedBy, LeavesToken};

use crate::by_signature::token_with;
use crate::content::Content;
use crate::exact::input_answer;
use crate::handle::Handle;
use crate::inputs::CallError;
use crate::status::leave;
use crate::status_table::{NO_KEYS, UNFIT_KEY};
use crate::verifiers::agrees;
use jsonwebtoken::crypto::hmac::HmacProvider;
use jsonwebtoken::crypto::{CryptoProvider, JwtSigner};
use jsonwebtoken::errors::{Error, ErrorKind, new_error};
use jsonwebtoken::{Algorithm, AlgorithmFamily, DecodingKey, EncodingKey};
use jwt_keys::jwk::Jwk;
use std::alloc::Global;
use std::result::Result;

/// Leaves the token of a header and a payload that are signed with the one key of a handle.
pub fn leave_signed(
    alloc: Global,
    keys: &mut Handle,
    header: &[u8],
    payload: &[u8],
    room: &mut [u8],
    len: &mut usize,
) -> u32
    ensures held { keys.new.held ≡ keys.old.held }
    ensures token { LeavesToken (keys_in keys.old.held) header.now payload.now result len.new
        room.old room.new }
{
    match keys.take(alloc) {
        Some(held) => {
            let status = leave_signed_by(alloc, &*held, header, payload, room, len);
            *keys = Handle::of(held);
            status
        }
        None => {
            *len = 0;
            NO_KEYS.0
        }
    }
}

fn leave_signed_by(
    alloc: Global,
    content: &Content,
    header: &[u8],
    payload: &[u8],
    room: &mut [u8],
    len: &mut usize,
) -> u32
    ensures { LeavesToken (keys_in (Some content.now)) header.now payload.now result len.new
        room.old room.new }
{
    let Content::Keys(keys) = content else {
        *len = 0;
        return NO_KEYS.0;
    };
    match keys.lone() {
        Some(jwk) => {
            let answer = sign_answer(alloc, jwk, header, payload);
            leave(answer, room, len)
        }
        None => {
            *len = 0;
            UNFIT_KEY.0
        }
    }
}

/// Returns the token of a header and a payload that are signed with a key.
pub fn sign_answer(
    alloc: Global,
    jwk: &Jwk,
    header: &[u8],
    payload: &[u8],
) -> Result<Vec<u8>, CallError>
    ensures ok { IfOk result (λ b. AnswersSign jwk.now header.now payload.now (Returns b.items)) }
    ensures err { IfErr result (λ r. AnswersSign jwk.now header.now payload.now (answer_of r)) }
{
    let input = input_answer(alloc, header, payload)?;
    let signature = sign_by_jwk(alloc, jwk, input.algorithm, input.message.as_bytes())?;
    Ok(token_with(alloc, input.message.as_bytes(), signature.as_slice())?)
}

fn sign_by_jwk(
    alloc: Global,
    jwk: &Jwk,
    algorithm: Algorithm,
    message: &[u8],
) -> Result<Vec<u8>, Error>
    ensures ok { IfOk result (λ s. IsSignedBy jwk.now algorithm message.now s.items) }
    ensures err { IfErr result (λ e. IsMemory e ⊎ IsUnsignedBy jwk.now algorithm (kind_of e)) }
{
    let key = DecodingKey::from_jwk(alloc, jwk)?;
    let signature = sign_by_key(alloc, &key, jwk, algorithm, message);
    drop(key);
    signature
}

fn sign_by_key(
    alloc: Global,
    key: &DecodingKey,
    jwk: &Jwk,
    algorithm: Algorithm,
    message: &[u8],
) -> Result<Vec<u8>, Error>
    requires { IsKeyOf jwk.now.algorithm key.now }
    ensures ok { IfOk result (λ s. IsSignedBy jwk.now algorithm message.now s.items) }
    ensures err { IfErr result (λ e. IsMemory e ⊎ IsUnsignedBy jwk.now algorithm (kind_of e)) }
{
    if key.family() != AlgorithmFamily::Hmac {
        return Err(new_error(ErrorKind::InvalidKeyFormat));
    }
    if algorithm.family() != AlgorithmFamily::Hmac || !agrees(jwk, algorithm) {
        return Err(new_error(ErrorKind::InvalidAlgorithm));
    }
    let secret = key.try_get_as_bytes()?;
    sign_by_secret(alloc, secret, algorithm, message)
}

fn sign_by_secret(
    alloc: Global,
    secret: &[u8],
    algorithm: Algorithm,
    message: &[u8],
) -> Result<Vec<u8>, Error>
    requires { family_of algorithm ≡ Hmac }
    ensures ok { IfOk result (λ s. HmacSigns algorithm (record { family = Hmac; bytes = secret.now })
        message.now s.items) }
    ensures err { IfErr result IsMemory }
{
    let key = EncodingKey::from_secret(alloc, secret)?;
    let signer = HmacProvider.signer_factory(alloc, &algorithm, &key)?;
    signer.sign(alloc, message)
}
