//! Public keys, read from X.509 certificates.

// A chain, its dates and its uses are another library's work; who has verified them, or pins the
// certificate, needs the key alone.

ghost use Rattle.std.specs.Prelude.{◌≡◌, ◌≢◌, ◌⊎◌, ◌↔◌, ℕ, List, [], ◌∷◌, ◌++◌, IfOk, IfErr};
ghost use Rattle.std.specs.Prelude.{IsTrue, MatchOption};
ghost use Rattle.jwt_base.specs.KindOf.{kind_of, IsMemory};
ghost use Rattle.jwt_keys.specs.Key.{Key};
ghost use Rattle.jwt_key_files.specs.Der.{element};
ghost use Rattle.jwt_key_files.specs.Certificates.{IsAfter, serial_to_subject, IsToBeSigned};
ghost use Rattle.jwt_key_files.specs.Certificates.{IsCertificate, IsCertificateOf};
ghost use Rattle.jwt_key_files.specs.Certificates.{IsCertificateRefused, HoldsCertificate};
ghost use Rattle.jwt_key_files.specs.Certificates.{IsCertificatePemOf, IsCertificatePemRefused};
ghost use Rattle.jwt_key_files.specs.Files.{IsLabelledCertificate};

use crate::block::{block_bytes, first_block};
use crate::element::{read, read_all};
use crate::pem::{info_key, is_labelled};
use crate::public_key::invalid_key;
use jwt_base::errors::Result;
use jwt_keys::decoding_key::DecodingKey;
use std::alloc::Global;

/// Returns the public key of an X.509 certificate in DER (RFC 5280 section 4.1). NOTHING IS
/// VERIFIED: not the signature, not the issuer, not the dates, not what the key may be used for.
/// Anyone can write such a certificate; the key is only as good as the way by which the certificate
/// came. The key is that which `public_key_from_der` reads of the SubjectPublicKeyInfo.
///
/// Of the certificate's other elements only the tags are looked at, and of its extensions nothing.
/// A key of another algorithm is refused with `UnsupportedAlgorithm`, and bytes that are no
/// certificate, or whose key is malformed, with `InvalidKeyFormat`.
pub fn unverified_key_from_certificate(alloc: Global, der: &[u8]) -> Result<DecodingKey>
    ensures ok { IfOk result (IsCertificateOf der.now) }
    ensures only { IfOk result (λ key. (k : Key) → IsCertificateOf der.now k → k ≡ key) }
    ensures err { IfErr result (λ e. IsMemory e ⊎ IsCertificateRefused der.now (kind_of e)) }
{
    let Some(info) = read_certificate(der) else {
        return Err(invalid_key());
    };
    // named for the proof
    let key = info_key(alloc, info)?;
    Ok(key)
}

/// Returns the public key of the X.509 certificate that the first block of a PEM text holds, under
/// the label `CERTIFICATE` (RFC 7468 section 5). As by `unverified_key_from_certificate`, NOTHING
/// IS VERIFIED. The text is as `public_key_from_pem` reads it.
///
/// A key of another algorithm is refused with `UnsupportedAlgorithm`, and any other text with
/// `InvalidKeyFormat`.
pub fn unverified_key_from_certificate_pem(alloc: Global, pem: &[u8]) -> Result<DecodingKey>
    ensures ok { IfOk result (IsCertificatePemOf pem.now) }
    ensures only { IfOk result (λ key. (k : Key) → IsCertificatePemOf pem.now k → k ≡ key) }
    ensures err { IfErr result (λ e. IsMemory e ⊎ IsCertificatePemRefused pem.now (kind_of e)) }
{
    let Some(der) = certificate_bytes(alloc, pem)? else {
        return Err(invalid_key());
    };
    let key = unverified_key_from_certificate(alloc, der.as_slice())?;
    Ok(key)
}

/// Returns whether the first block of a text in PEM is labelled as a certificate (RFC 7468 section
/// 5). The block is not decoded.
pub fn is_certificate(bytes: &[u8]) -> bool
    ensures { IsTrue result ↔ IsLabelledCertificate bytes.now }
{
    let Some(block) = first_block(bytes) else {
        return false;
    };
    is_labelled(b"CERTIFICATE", block)
}

// Returns the SubjectPublicKeyInfo of a certificate.
fn read_certificate(der: &[u8]) -> Option<&[u8]>
    ensures { MatchOption result ((info : List ℕ) → ¬ IsCertificate der.now info)
        (λ info. IsCertificate der.now info.now) }
{
    let Some(whole) = read_all(0x30, der) else {
        return None;
    };
    let Some((content, signed)) = read(0x30, whole) else {
        return None;
    };
    let Some(end) = skip(&[0x30, 3], signed) else {
        return None;
    };
    if end.len() > 0 {
        return None;
    }
    let Some(info) = key_info(content) else {
        return None;
    };
    Some(info)
}

// Returns the bytes after elements of these tags.
fn skip<'a>(tags: &[u8], bytes: &'a [u8]) -> Option<&'a [u8]>
    ensures { MatchOption result ((rest : List ℕ) → ¬ IsAfter tags.now bytes.now rest)
        (λ rest. IsAfter tags.now bytes.now rest.now) }
{
    let mut rest = bytes;
    for tag in tags {
        let Some((_, more)) = read(*tag, rest) else {
            return None;
        };
        rest = more;
    }
    Some(rest)
}

// Returns the SubjectPublicKeyInfo of a TBSCertificate with this content.
fn key_info(content: &[u8]) -> Option<&[u8]>
    ensures { MatchOption result ((info : List ℕ) → ¬ IsToBeSigned content.now info)
        (λ info. IsToBeSigned content.now info.now) }
{
    let Some(rest) = from_key(content) else {
        return None;
    };
    let Some((info, _)) = first_element(0x30, rest) else {
        return None;
    };
    Some(info)
}

// Returns the fields of a TBSCertificate from the key on.
fn from_key(content: &[u8]) -> Option<&[u8]>
    ensures { MatchOption result
        ((rest : List ℕ) → ¬ (IsAfter (0xa0 ∷ serial_to_subject) content.now rest
        ⊎ IsAfter serial_to_subject content.now rest))
        (λ rest. IsAfter (0xa0 ∷ serial_to_subject) content.now rest.now
        ⊎ IsAfter serial_to_subject content.now rest.now) }
{
    if let Some(rest) = skip(&[0xa0, 2, 0x30, 0x30, 0x30, 0x30], content) {
        return Some(rest);
    }
    if let Some(rest) = skip(&[2, 0x30, 0x30, 0x30, 0x30], content) {
        return Some(rest);
    }
    None
}

// Returns the element of this tag that the bytes begin with, and the bytes after it.
fn first_element(tag: u8, bytes: &[u8]) -> Option<(&[u8], &[u8])>
    ensures { MatchOption result ((content : List ℕ) (rest : List ℕ)
        → bytes.now ≢ element tag content ++ rest)
        (λ p. ((content : List ℕ) × (p.0.now ≡ element tag content))
        × (bytes.now ≡ p.0.now ++ p.1.now)) }
{
    let Some((_, rest)) = read(tag, bytes) else {
        return None;
    };
    Some(bytes.split_at(bytes.len() - rest.len()))
}

// Returns the bytes of the first block of the text, if its label is that of a certificate.
fn certificate_bytes(alloc: Global, pem: &[u8]) -> Result<Option<Vec<u8>>>
    ensures ok { IfOk result (λ o. MatchOption o ((der : List ℕ) → ¬ HoldsCertificate pem.now der)
        (λ der. HoldsCertificate pem.now der.items)) }
    ensures err { IfErr result IsMemory }
{
    let Some(block) = first_block(pem) else {
        return Ok(None);
    };
    let Some(der) = block_bytes(alloc, b"CERTIFICATE", block)? else {
        return Ok(None);
    };
    Ok(Some(der))
}
