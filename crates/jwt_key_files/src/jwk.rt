//! JSON Web Keys of public keys in PEM and DER, and of certificates in PEM.

// The JSON Web Key of a key in PEM needs no provider, since the key has its numbers;
// `HmacProvider`, which reads no keys, stands in.

ghost use Rattle.std.specs.Prelude.{◌≡◌, ◌⊎◌, IfOk, IfErr};
ghost use Rattle.jwt_base.specs.KindOf.{kind_of, IsMemory};
ghost use Rattle.jwt_keys.specs.Key.{Key};
ghost use Rattle.jwt_keys.specs.JwkOfKey.{StandsFor};
ghost use Rattle.jwt_key_files.specs.PemKeys.{IsPemOf, IsPemRefused};
ghost use Rattle.jwt_key_files.specs.JwksOfPem.{IsRead, IsJwkOf, IsJwkOfPem, IsWritable};
ghost use Rattle.jwt_key_files.specs.JwksOfPem.{IsJwkOfCertificatePem};
ghost use Rattle.jwt_key_files.specs.Certificates.{IsCertificatePemRefused};
ghost use Rattle.jwt_key_files.specs.Files.{IsFileOf, IsFileRefused, IsJwkOfFile};

use crate::block::first_block;
use crate::certificate::unverified_key_from_certificate_pem;
use crate::pem::public_key_from_pem;
use crate::public_key::public_key_from_der;
use jwt_base::errors::Result;
use jwt_crypto::HmacProvider;
use jwt_keys::decoding_key::DecodingKey;
use jwt_keys::jwk::Jwk;
use std::alloc::Global;

/// Returns the JSON Web Key of the public key that the first block of a PEM text holds, without
/// `alg` and other common members. `from_jwk` returns the key that `public_key_from_pem` returns,
/// and `to_text` does not refuse this one with `Json`. The refusals are those of
/// `public_key_from_pem`.
pub fn jwk_from_pem(alloc: Global, pem: &[u8]) -> Result<Jwk>
    ensures ok { IfOk result (IsJwkOfPem pem.now) }
    ensures way_back { IfOk result (λ jwk. (key : Key) → IsPemOf pem.now key
        → StandsFor jwk.algorithm key) }
    ensures writable { IfOk result IsWritable }
    ensures err { IfErr result (λ e. IsMemory e ⊎ IsPemRefused pem.now (kind_of e)) }
{
    let key = public_key_from_pem(alloc, pem)?;
    // named for the proof
    let jwk = jwk_of(alloc, &key)?;
    Ok(jwk)
}

/// Returns the JSON Web Key of the public key of a file, as `jwk_from_pem` does. Bytes with a line
/// that begins with `-----BEGIN ` are read as PEM, and all others as DER. The refusals are those of
/// `public_key_from_pem` and of `public_key_from_der`.
pub fn jwk_from_file(alloc: Global, bytes: &[u8]) -> Result<Jwk>
    ensures ok { IfOk result (IsJwkOfFile bytes.now) }
    ensures writable { IfOk result IsWritable }
    ensures err { IfErr result (λ e. IsMemory e ⊎ IsFileRefused bytes.now (kind_of e)) }
{
    let key = file_key(alloc, bytes)?;
    let jwk = jwk_of(alloc, &key)?;
    Ok(jwk)
}

// Returns the public key of a file.
fn file_key(alloc: Global, bytes: &[u8]) -> Result<DecodingKey>
    ensures ok { IfOk result (IsFileOf bytes.now) }
    ensures err { IfErr result (λ e. IsMemory e ⊎ IsFileRefused bytes.now (kind_of e)) }
{
    match first_block(bytes) {
        Some(_) => public_key_from_pem(alloc, bytes),
        None => public_key_from_der(alloc, bytes),
    }
}

/// Returns the JSON Web Key of the public key of the X.509 certificate that the first block of a PEM
/// text holds, as `jwk_from_pem` does of a key. As by `unverified_key_from_certificate_pem`, NOTHING
/// IS VERIFIED, and the refusals are those of that call.
pub fn unverified_jwk_from_certificate_pem(alloc: Global, pem: &[u8]) -> Result<Jwk>
    ensures ok { IfOk result (IsJwkOfCertificatePem pem.now) }
    ensures writable { IfOk result IsWritable }
    ensures err { IfErr result (λ e. IsMemory e ⊎ IsCertificatePemRefused pem.now (kind_of e)) }
{
    let key = unverified_key_from_certificate_pem(alloc, pem)?;
    let jwk = jwk_of(alloc, &key)?;
    Ok(jwk)
}

// Returns the JSON Web Key of a key that was read. A provider is asked for other keys alone.
fn jwk_of(alloc: Global, key: &DecodingKey) -> Result<Jwk>
    requires { IsRead key.now }
    ensures ok { IfOk result (IsJwkOf key.now) }
    ensures way_back { IfOk result (λ jwk. StandsFor jwk.algorithm key.now) }
    ensures err { IfErr result IsMemory }
{
    let jwk = Jwk::from_decoding_key(alloc, &HmacProvider, key, None)?;
    Ok(jwk)
}
