//! The bytes of keys, and refusals of keys and algorithms.

ghost use Rattle.std.specs.Prelude.{◌≡◌, ◌≢◌, ℕ, List, IfOk, IfErr, MatchOption, false, true};
ghost use Rattle.jwt_base.specs.Kind as kind;
ghost use Rattle.jwt_base.specs.KindOf.{kind_of};
ghost use Rattle.jwt_keys.specs.Key.{Plain};
ghost use Rattle.ed25519.specs.Ed25519.{is_public_key};
ghost use Rattle.ecdsa.specs.Curves.{is_p256_key, is_p384_key};

use ecdsa::curves::{is_p256_key, is_p384_key};
use ed25519::verification::is_public_key;
use jwt_base::algorithms::AlgorithmFamily;
use jwt_base::errors::{Error, ErrorKind, Result, new_error};
use jwt_keys::decoding_key::DecodingKey;

pub(crate) fn unfit_key() -> Error
    ensures { kind_of result ≡ kind.InvalidKeyFormat }
{
    new_error(ErrorKind::InvalidKeyFormat)
}

// Returns the bytes of a key of this family.
pub(crate) fn bytes_of_family(key: &DecodingKey, family: AlgorithmFamily) -> Result<&[u8]>
    ensures ok { IfOk result (λ b. key.now ≡ Plain family b.now) }
    ensures err { IfErr result (λ e. (kind_of e ≡ kind.InvalidKeyFormat)
        × ((b : List ℕ) → key.now ≢ Plain family b)) }
{
    if key.family() != family {
        return Err(unfit_key());
    }
    key.try_get_as_bytes()
}

// Returns the bytes, if they are a public key of Ed25519.
pub(crate) fn ed25519_key(bytes: &[u8]) -> Option<[u8; 32]>
    ensures { MatchOption result (is_public_key bytes.now ≡ false)
        (λ k. (k ≡ bytes.now) × (is_public_key bytes.now ≡ true)) }
{
    if !is_public_key(bytes) {
        return None;
    }
    let mut public = [0u8; 32];
    public.copy_from_slice(bytes);
    Some(public)
}

// Returns the bytes, if they are a public key on P-256.
pub(crate) fn p256_key(bytes: &[u8]) -> Option<[u8; 65]>
    ensures { MatchOption result (is_p256_key bytes.now ≡ false)
        (λ k. (k ≡ bytes.now) × (is_p256_key bytes.now ≡ true)) }
{
    if !is_p256_key(bytes) {
        return None;
    }
    let mut public = [0u8; 65];
    public.copy_from_slice(bytes);
    Some(public)
}

// Returns the bytes, if they are a public key on P-384.
pub(crate) fn p384_key(bytes: &[u8]) -> Option<[u8; 97]>
    ensures { MatchOption result (is_p384_key bytes.now ≡ false)
        (λ k. (k ≡ bytes.now) × (is_p384_key bytes.now ≡ true)) }
{
    if !is_p384_key(bytes) {
        return None;
    }
    let mut public = [0u8; 97];
    public.copy_from_slice(bytes);
    Some(public)
}
