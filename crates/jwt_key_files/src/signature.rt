//! ECDSA signatures, from DER.

ghost use Rattle.std.specs.Prelude.{◌≡◌, ◌≢◌, ◌⊎◌, ℕ, ◌≤◌, List, ◌++◌, IfOk, IfErr, MatchOption};
ghost use Rattle.std.specs.Prelude.{length};
ghost use Rattle.jwt_base.specs.Kind as kind;
ghost use Rattle.jwt_base.specs.KindOf.{kind_of, IsMemory, RefusesAs};
ghost use Rattle.jwt_key_files.specs.Der.{IsPositive};
ghost use Rattle.jwt_key_files.specs.EcdsaSignatures.{ecdsa_sig_value, number_length, filled};
ghost use Rattle.jwt_key_files.specs.EcdsaSignatures.{AreNumbersOf, IsSignatureOf};
ghost use Rattle.jwt_key_files.specs.EcdsaSignatures.{IsSignatureRefused};

use crate::structures::read_rsa;
use jwt_base::algorithms::Algorithm;
use jwt_base::errors::{ErrorKind, Result, new_error};
use std::alloc::Global;

/// Returns the signature of a token from an ECDSA signature in DER, as a KMS or OpenSSL makes it:
/// of an ECDSA-Sig-Value, a SEQUENCE of the INTEGERs r and s (RFC 3279 section 2.2.3), the two
/// numbers, the most significant octet first, in 32 octets each for ES256 and 48 for ES384 (RFC
/// 7518 section 3.4).
///
/// An algorithm other than ES256 and ES384 is refused with `InvalidAlgorithm`. Bytes that are not
/// the distinguished encoding (ITU-T X.690 section 10) of two positive numbers that fit are refused
/// with `InvalidSignature`: a length or a number in more octets than it needs, bytes after the end.
/// Whether it is a signature of some message is left to those who verify it.
pub fn ecdsa_signature(alloc: Global, der: &[u8], algorithm: Algorithm) -> Result<Vec<u8>>
    ensures ok { IfOk result (λ signature. IsSignatureOf algorithm der.now signature.items) }
    ensures only { IfOk result (λ signature. (s : List ℕ) → IsSignatureOf algorithm der.now s
        → s ≡ signature.items) }
    ensures err { IfErr result (λ e. IsMemory e
        ⊎ IsSignatureRefused algorithm der.now (kind_of e)) }

    // No other DER has these numbers.
    ensures one_der { IfOk result (λ signature. (d : List ℕ)
        → IsSignatureOf algorithm d signature.items → d ≡ der.now) }
{
    let Some(size) = size_of(algorithm) else {
        return Err(new_error(ErrorKind::InvalidAlgorithm));
    };
    // named for the proof
    let signature = numbers(alloc, size, der)?;
    Ok(signature)
}

// Returns how many octets each of the two numbers has.
fn size_of(algorithm: Algorithm) -> Option<usize>
    ensures { result ≡ number_length algorithm }
{
    match algorithm {
        Algorithm::ES256 => Some(32),
        Algorithm::ES384 => Some(48),
        _ => None,
    }
}

// Returns the two numbers of an ECDSA-Sig-Value, in `size` octets each.
fn numbers(alloc: Global, size: usize, der: &[u8]) -> Result<Vec<u8>>
    ensures ok { IfOk result (λ signature. AreNumbersOf size der.now signature.items) }
    ensures err { IfErr result (RefusesAs kind.InvalidSignature
        ((signature : List ℕ) → ¬ AreNumbersOf size der.now signature)) }
{
    let Some((r, s)) = read_sig_value(der) else {
        return Err(new_error(ErrorKind::InvalidSignature));
    };
    if r.len() > size || s.len() > size {
        return Err(new_error(ErrorKind::InvalidSignature));
    }
    let signature = join(alloc, size, r, s)?;
    Ok(signature)
}

// Returns the octets of both numbers of an ECDSA-Sig-Value. As an RSAPublicKey it is a SEQUENCE of
// two INTEGERs.
fn read_sig_value(der: &[u8]) -> Option<(&[u8], &[u8])>
    ensures { MatchOption result
        ((r : List ℕ) (s : List ℕ) → IsPositive r → IsPositive s → der.now ≢ ecdsa_sig_value r s)
        (λ p. IsPositive p.0.now × IsPositive p.1.now
        × (der.now ≡ ecdsa_sig_value p.0.now p.1.now)) }
{
    read_rsa(der)
}

// Returns both numbers, in `size` octets each.
fn join(alloc: Global, size: usize, r: &[u8], s: &[u8]) -> Result<Vec<u8>>
    requires r { length r.now ≤ size }
    requires s { length s.now ≤ size }
    ensures ok { IfOk result (λ bytes. bytes.items ≡ filled size r.now ++ filled size s.now) }
    ensures err { IfErr result IsMemory }
{
    let mut signature = fill(alloc, size, r)?;
    let second = fill(alloc, size, s)?;
    signature.extend_from_slice(second.as_slice())?;
    Ok(signature)
}

// Returns the octets after so many zeros that there are `size` of them.
fn fill(alloc: Global, size: usize, octets: &[u8]) -> Result<Vec<u8>>
    requires { length octets.now ≤ size }
    ensures ok { IfOk result (λ bytes. bytes.items ≡ filled size octets.now) }
    ensures err { IfErr result IsMemory }
{
    let mut bytes = vec![in alloc; 0u8; size - octets.len()]?;
    bytes.extend_from_slice(octets)?;
    Ok(bytes)
}
