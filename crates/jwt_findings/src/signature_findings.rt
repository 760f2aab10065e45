//! Findings about the signature of a token: its number of bytes and that of a signature by the
//! key.

use crate::attempts::value_unless_refused;
use crate::checked::{CheckedKeys, CheckedToken};
use crate::findings::Finding;
use crate::part_findings::Parts;
use jsonwebtoken::{
    Algorithm, AlgorithmFamily, DecodingKey, DecodingKeyKind, Header, decode_header,
};
use jwt_base::serialization::part_bytes;
use std::alloc::{AllocError, Global};

/// The number of bytes of which the usual sizes of RSA keys are multiples.
const RSA_STEP: u64 = 64;

/// The number of bytes of the smallest RSA key in use.
const RSA_LEAST: u64 = 128;

/// The number of bytes of a signature, and that of one by the key.
#[derive(Clone, Copy)]
struct Lengths {
    algorithm: Algorithm,
    found: u64,
    made: u64,
}

/// Returns the finding of a signature whose length is not that of one by the key, if it is not.
pub fn length_finding(
    alloc: Global,
    token: CheckedToken<'_>,
    parts: Parts<'_>,
) -> Result<Option<Finding>, AllocError> {
    let Some(lengths) = lengths_of(alloc, token, parts)? else {
        return Ok(None);
    };
    if lengths.found == lengths.made {
        return Ok(None);
    }
    if is_der(alloc, parts.signature, lengths.algorithm)? {
        return Ok(Some(Finding::new(
            alloc,
            "a signature in DER, as OpenSSL writes it",
            "its two numbers one after the other, at full length (RFC 7518 section 3.4)",
        )?));
    }
    if is_hexadecimal(parts.signature, lengths.made) {
        return Ok(Some(Finding::new(
            alloc,
            "a signature in hexadecimal",
            "its bytes in base64url (RFC 7515 section 2)",
        )?));
    }
    Ok(Some(Finding {
        found: found_length(alloc, lengths)?,
        wanted: String::from_str(alloc, "the whole token, as it was issued for this key")?,
    }))
}

fn lengths_of(
    alloc: Global,
    token: CheckedToken<'_>,
    parts: Parts<'_>,
) -> Result<Option<Lengths>, AllocError> {
    let Some(header) = value_unless_refused(decode_header(alloc, token.text))? else {
        return Ok(None);
    };
    let algorithm = header.alg;
    let made = length_for(alloc, &header, token.keys);
    // one drop
    drop(header);
    Ok(made?.map(|made| Lengths {
        algorithm,
        found: byte_count(parts.signature.len()),
        made,
    }))
}

fn length_for(
    alloc: Global,
    header: &Header,
    keys: CheckedKeys<'_>,
) -> Result<Option<u64>, AllocError> {
    match keys {
        CheckedKeys::One(key) => Ok(length_by(header.alg, key)),
        CheckedKeys::Set(_) => length_by_set(alloc, header, keys),
    }
}

/// Returns the number of bytes of a signature with this algorithm by a key (RFC 7518 section 3, RFC
/// 8037 section 3.1).
fn length_by(algorithm: Algorithm, key: &DecodingKey) -> Option<u64> {
    match algorithm {
        Algorithm::HS256 => Some(32),
        Algorithm::HS384 => Some(48),
        Algorithm::HS512 | Algorithm::ES256 | Algorithm::EdDSA => Some(64),
        Algorithm::ES384 => Some(96),
        _ => modulus_length(key),
    }
}

/// Returns the number of bytes of a signature by an RSA key: that of its modulus (RFC 8017 section
/// 8).
fn modulus_length(key: &DecodingKey) -> Option<u64> {
    match key.kind() {
        DecodingKeyKind::RsaModulusExponent { n, e: _ } => {
            Some(n.iter().skip_while(|byte| **byte == 0).count() as u64)
        }
        DecodingKeyKind::SecretOrDer(_) => None,
    }
}

/// Does likewise for the key of a set that a header names.
fn length_by_set(
    alloc: Global,
    header: &Header,
    keys: CheckedKeys<'_>,
) -> Result<Option<u64>, AllocError> {
    let (Some(kid), CheckedKeys::Set(set)) = (&header.kid, keys) else {
        return Ok(None);
    };
    let Some(jwk) = set.find(kid.as_str()) else {
        return Ok(None);
    };
    match value_unless_refused(DecodingKey::from_jwk(alloc, jwk))? {
        Some(key) => {
            let length = length_by(header.alg, &key);
            drop(key);
            Ok(length)
        }
        None => Ok(None),
    }
}

/// Returns the number of whole bytes that characters of base64url stand for.
fn byte_count(characters: usize) -> u64 {
    let characters = characters as u64;
    characters / 4 * 3 + characters % 4 * 3 / 4
}

/// Returns whether a signature is two hexadecimal digits for each of this number of bytes.
fn is_hexadecimal(signature: &[u8], count: u64) -> bool {
    signature.len() as u64 / 2 == count
        && signature.len() % 2 == 0
        && signature.iter().all(|byte| byte.is_ascii_hexdigit())
}

/// Returns whether a signature looks like one of an elliptic curve in DER: a sequence of two
/// numbers.
fn is_der(alloc: Global, signature: &[u8], algorithm: Algorithm) -> Result<bool, AllocError> {
    if !matches!(algorithm, Algorithm::ES256 | Algorithm::ES384) {
        return Ok(false);
    }
    match value_unless_refused(part_bytes(alloc, signature))? {
        Some(bytes) => Ok(matches!(bytes.as_slice(), [0x30, length, 0x02, ..]
            if *length as usize + 2 == bytes.len())),
        None => Ok(false),
    }
}

fn found_length(alloc: Global, lengths: Lengths) -> Result<String, AllocError> {
    let reason = length_reason(lengths);
    let unit = if lengths.found == 1 { "byte" } else { "bytes" };
    format!(in alloc;
        "a signature of {} {unit}, and this key makes {}: {reason}",
        lengths.found, lengths.made
    )
}

/// Returns whether keys of the same family make signatures of this length.
fn is_of_other_size(lengths: Lengths) -> bool {
    match lengths.algorithm.family() {
        AlgorithmFamily::Rsa => lengths.found >= RSA_LEAST && lengths.found % RSA_STEP == 0,
        // P-256, P-384 and P-521 (RFC 7518 section 3.4)
        AlgorithmFamily::Ec => matches!(lengths.found, 64 | 96 | 132),
        _ => false,
    }
}

/// Returns why a signature has another length than the key makes.
fn length_reason(lengths: Lengths) -> &'static str {
    if lengths.found == 0 {
        "the token is not signed, or cut"
    } else if is_of_other_size(lengths) {
        "it is from a key of another size"
    } else if lengths.found < lengths.made {
        "the token is cut"
    } else {
        "text was added to the token"
    }
}
