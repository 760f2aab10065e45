//! Public keys, read from DER.

// A key is refused with the kinds that other calls use for keys: `InvalidKeyFormat`, and
// `UnsupportedAlgorithm` if only its algorithm is another. A private key is known by the version
// that it begins with, or by its label in PEM, and refused with `Provider`, the kind that holds any
// string: whoever gives the wrong file of a pair learns which it was. It is not decoded.

ghost use Rattle.std.specs.Prelude.{◌≡◌, ◌⊎◌, ◌≤◌, Some, None, IfOk, IfErr, MatchOption};
ghost use Rattle.jwt_base.specs.Kind as kind;
ghost use Rattle.jwt_base.specs.KindOf.{kind_of, IsMemory, RefusesAs};
ghost use Rattle.jwt_keys.specs.Key.{Key, Components};
ghost use Rattle.jwt_key_files.specs.PublicKeys.{IsRsaKey, IsPoint, IsEdwardsKey, IsKeyOf};
ghost use Rattle.jwt_key_files.specs.PublicKeys.{IsPublicKey, IsRefused, IsPrivateOrMalformed};
ghost use Rattle.jwt_key_files.specs.PublicKeys.{private_key_text};
ghost use Rattle.jwt_key_files.specs.RsaComponents.{rsa_components};

use crate::scheme::{Scheme, read_identifier};
use crate::structures::{is_private, read_info, read_rsa};
use jwt_base::errors::{Error, ErrorKind, Result, new_error};
use jwt_keys::decoding_key::DecodingKey;
use std::alloc::Global;

pub(crate) fn invalid_key() -> Error
    ensures { kind_of result ≡ kind.InvalidKeyFormat }
{
    new_error(ErrorKind::InvalidKeyFormat)
}

// Returns the error that refuses a private key.
pub(crate) fn private_key(alloc: Global) -> Result<Error>
    ensures ok { IfOk result (λ e. kind_of e ≡ kind.Provider private_key_text) }
    ensures err { IfErr result IsMemory }
{
    let text = String::from_str(alloc, "a private key is not read as a public key")?;
    Ok(new_error(ErrorKind::Provider(text)))
}

// Returns the key of an RSAPublicKey.
pub(crate) fn rsa_key(alloc: Global, der: &[u8]) -> Result<DecodingKey>
    ensures ok { IfOk result (IsRsaKey der.now) }
    ensures err { IfErr result (RefusesAs kind.InvalidKeyFormat
        ((k : Key) → ¬ IsRsaKey der.now k)) }
{
    let Some((modulus, exponent)) = read_rsa(der) else {
        return Err(invalid_key());
    };
    // named for the proof
    let key = DecodingKey::from_rsa_raw_components(alloc, modulus, exponent)?;
    Ok(key)
}

/// Returns the public key that the bytes are, in DER (ITU-T X.690 section 10): a
/// SubjectPublicKeyInfo (RFC 5280 section 4.1) of an RSA key (RFC 3279 section 2.3.1), of an
/// uncompressed point of P-256 or P-384 (RFC 5480 section 2) or of a key of Ed25519 (RFC 8410
/// section 4), or an RSAPublicKey (RFC 8017 appendix A.1.1). An RSA key has its modulus and
/// exponent, with no leading 0; an elliptic curve key is the octet 4 and the two coordinates, and
/// one of Ed25519 32 octets, as `from_jwk` returns them. Whether the point is on its curve, and how
/// long a modulus is, is left to the provider that verifies.
///
/// A SubjectPublicKeyInfo whose algorithm identifier is another one, is refused with
/// `UnsupportedAlgorithm`. A SEQUENCE that begins with the INTEGER 0 or 1, as each private key
/// does, is refused with `Provider` and a string that says so. Any other bytes are refused with
/// `InvalidKeyFormat`: a length or a number in more octets than it needs, unused bits, bytes after
/// the end.
pub fn public_key_from_der(alloc: Global, der: &[u8]) -> Result<DecodingKey>
    ensures ok { IfOk result (IsPublicKey der.now) }
    ensures only { IfOk result (λ key. (k : Key) → IsPublicKey der.now k → k ≡ key) }
    ensures err { IfErr result (λ e. IsMemory e ⊎ IsRefused der.now (kind_of e)) }
{
    let Some((algorithm, octets)) = read_info(der) else {
        let key = bare_key(alloc, der)?;
        return Ok(key);
    };
    let Some(scheme) = read_identifier(algorithm) else {
        return Err(new_error(ErrorKind::UnsupportedAlgorithm));
    };
    let key = key_of(alloc, scheme, octets)?;
    Ok(key)
}

/// Returns the modulus and the exponent of the RSA key whose RSAPublicKey the bytes are (RFC 8017
/// appendix A.1.1), in DER (ITU-T X.690 section 10): each as the octets of its number, the most
/// significant first, with no leading 0. How long they are, and whether a signature can be verified
/// with them, is left to the caller. Returns `None` of any other bytes: of a SubjectPublicKeyInfo,
/// of a private key, and of an RSAPublicKey with a byte after its end.
pub fn rsa_components_from_der(der: &[u8]) -> Option<(&[u8], &[u8])>
    ensures key { MatchOption result ((k : Key) → ¬ IsRsaKey der.now k)
        (λ p. IsRsaKey der.now (Components p.0.now p.1.now)) }
    ensures components { MatchOption result (rsa_components der.now ≡ None)
        (λ p. rsa_components der.now ≡ Some (p.0.now, p.1.now)) }
{
    let Some((modulus, exponent)) = read_rsa(der) else {
        return None;
    };
    Some((modulus, exponent))
}

// Returns the key of an RSAPublicKey, and refuses a private key as such.
fn bare_key(alloc: Global, der: &[u8]) -> Result<DecodingKey>
    ensures ok { IfOk result (IsRsaKey der.now) }
    ensures err { IfErr result (λ e. IsMemory e
        ⊎ (((k : Key) → ¬ IsRsaKey der.now k) × IsPrivateOrMalformed der.now (kind_of e))) }
{
    let Some(_) = read_rsa(der) else {
        let error = refusal(alloc, der)?;
        return Err(error);
    };
    let key = rsa_key(alloc, der)?;
    Ok(key)
}

// Returns the error that refuses bytes that are no public key.
fn refusal(alloc: Global, der: &[u8]) -> Result<Error>
    ensures ok { IfOk result (λ e. IsPrivateOrMalformed der.now (kind_of e)) }
    ensures err { IfErr result IsMemory }
{
    if is_private(der) {
        let error = private_key(alloc)?;
        return Ok(error);
    }
    Ok(invalid_key())
}

// Returns the key of this algorithm that the octets are.
fn key_of(alloc: Global, scheme: Scheme, octets: &[u8]) -> Result<DecodingKey>
    ensures ok { IfOk result (IsKeyOf scheme octets.now) }
    ensures err { IfErr result (RefusesAs kind.InvalidKeyFormat
        ((k : Key) → ¬ IsKeyOf scheme octets.now k)) }
{
    match scheme {
        Scheme::Rsa => rsa_key(alloc, octets),
        Scheme::P256 => point_key(alloc, 32, octets),
        Scheme::P384 => point_key(alloc, 48, octets),
        Scheme::Ed25519 => edwards_key(alloc, octets),
    }
}

// Returns the key of an uncompressed point, whose coordinates have this many octets.
fn point_key(alloc: Global, size: usize, octets: &[u8]) -> Result<DecodingKey>
    requires { size ≤ 48 }
    ensures ok { IfOk result (IsPoint size octets.now) }
    ensures err { IfErr result (RefusesAs kind.InvalidKeyFormat
        ((k : Key) → ¬ IsPoint size octets.now k)) }
{
    if octets.len() != 1 + size + size || octets[0] != 4 {
        return Err(invalid_key());
    }
    let key = DecodingKey::from_ec_der(alloc, octets)?;
    Ok(key)
}

// Returns the key of Ed25519 of these octets.
fn edwards_key(alloc: Global, octets: &[u8]) -> Result<DecodingKey>
    ensures ok { IfOk result (IsEdwardsKey octets.now) }
    ensures err { IfErr result (RefusesAs kind.InvalidKeyFormat
        ((k : Key) → ¬ IsEdwardsKey octets.now k)) }
{
    if octets.len() != 32 {
        return Err(invalid_key());
    }
    let key = DecodingKey::from_ed_der(alloc, octets)?;
    Ok(key)
}
