//! The structures that hold public keys, in DER.

ghost use Rattle.std.specs.Prelude.{◌≡◌, ◌≢◌, ℕ, List, ◌++◌, MatchOption, IsTrue, ◌↔◌};
ghost use Rattle.jwt_key_files.specs.Der.{signed, integer, IsPositive};
ghost use Rattle.jwt_key_files.specs.PublicKeys.{rsa_public_key, subject_public_key_info};
ghost use Rattle.jwt_key_files.specs.PublicKeys.{IsPrivateKey};

use crate::element::{next, read, read_all};

// Returns the modulus and the exponent of an RSAPublicKey.
pub(crate) fn read_rsa(der: &[u8]) -> Option<(&[u8], &[u8])>
    ensures { MatchOption result
        ((n : List ℕ) (e : List ℕ) → IsPositive n → IsPositive e → der.now ≢ rsa_public_key n e)
        (λ p. IsPositive p.0.now × IsPositive p.1.now
        × (der.now ≡ rsa_public_key p.0.now p.1.now)) }
{
    let Some(content) = read_all(0x30, der) else {
        return None;
    };
    let Some((modulus, after)) = read_integer(content) else {
        return None;
    };
    let Some((exponent, rest)) = read_integer(after) else {
        return None;
    };
    if rest.len() > 0 {
        return None;
    }
    Some((modulus, exponent))
}

// Returns the content of the algorithm identifier and the key's octets of a SubjectPublicKeyInfo.
pub(crate) fn read_info(der: &[u8]) -> Option<(&[u8], &[u8])>
    ensures { MatchOption result
        ((algorithm : List ℕ) (key : List ℕ) → der.now ≢ subject_public_key_info algorithm key)
        (λ p. der.now ≡ subject_public_key_info p.0.now p.1.now) }
{
    let Some(content) = read_all(0x30, der) else {
        return None;
    };
    let Some((algorithm, after)) = read(0x30, content) else {
        return None;
    };
    let Some(bits) = read_all(3, after) else {
        return None;
    };
    let Some((unused, key)) = next(bits) else {
        return None;
    };
    if unused != 0 {
        return None;
    }
    Some((algorithm, key))
}

// Returns whether the bytes begin as a private key does.
pub(crate) fn is_private(der: &[u8]) -> bool
    ensures { IsTrue result ↔ IsPrivateKey der.now }
{
    let Some(content) = read_all(0x30, der) else {
        return false;
    };
    let Some((version, _)) = read(2, content) else {
        return false;
    };
    let Some((number, more)) = next(version) else {
        return false;
    };
    if number > 1 {
        return false;
    }
    if more.len() > 0 {
        return false;
    }
    true
}

// Returns the octets of the positive INTEGER that the bytes begin with, and the bytes after it.
fn read_integer(bytes: &[u8]) -> Option<(&[u8], &[u8])>
    ensures { MatchOption result ((n : List ℕ) (rest : List ℕ) → IsPositive n
        → bytes.now ≢ integer n ++ rest)
        (λ p. IsPositive p.0.now × (bytes.now ≡ integer p.0.now ++ p.1.now)) }
{
    let Some((content, rest)) = read(2, bytes) else {
        return None;
    };
    let Some(octets) = unsigned_octets(content) else {
        return None;
    };
    Some((octets, rest))
}

// Returns the octets of the positive number that an INTEGER with this content is.
fn unsigned_octets(content: &[u8]) -> Option<&[u8]>
    ensures { MatchOption result ((n : List ℕ) → IsPositive n → content.now ≢ signed n)
        (λ n. IsPositive n.now × (content.now ≡ signed n.now)) }
{
    let Some((first, rest)) = next(content) else {
        return None;
    };
    if first >= 0x80 {
        return None;
    }
    if first > 0 {
        return Some(content);
    }
    let Some((second, _)) = next(rest) else {
        return None;
    };
    if second < 0x80 {
        return None;
    }
    Some(rest)
}
