//! Public keys, read from PEM.

ghost use Rattle.std.specs.Prelude.{◌≡◌, ◌⊎◌, ◌↔◌, ℕ, List, IfOk, IfErr, IsTrue};
ghost use Rattle.jwt_base.specs.KindOf.{kind_of, IsMemory};
ghost use Rattle.jwt_keys.specs.Key.{Key};
ghost use Rattle.jwt_key_files.specs.PublicKeys.{IsInfoOf};
ghost use Rattle.jwt_key_files.specs.PemKeys.{IsBlockOf, IsPemOf, IsLabelled, NamesPrivate};
ghost use Rattle.jwt_key_files.specs.PemKeys.{IsBlockRefused, IsPemRefused, IsInfoRefused};

use crate::block::{after, block_bytes, first_block};
use crate::public_key::{invalid_key, private_key, public_key_from_der, rsa_key};
use crate::structures::read_info;
use jwt_base::errors::Result;
use jwt_keys::decoding_key::DecodingKey;
use std::alloc::Global;

// Returns the key of a SubjectPublicKeyInfo.
pub(crate) fn info_key(alloc: Global, der: &[u8]) -> Result<DecodingKey>
    ensures ok { IfOk result (IsInfoOf der.now) }
    ensures err { IfErr result (λ e. IsMemory e ⊎ IsInfoRefused der.now (kind_of e)) }
{
    let Some(_) = read_info(der) else {
        return Err(invalid_key());
    };
    // named for the proof
    let key = public_key_from_der(alloc, der)?;
    Ok(key)
}

/// Returns the public key that the first block of a PEM text holds (RFC 7468 section 3, the base64
/// text in its lax form): text before it, a line that begins with `-----BEGIN PUBLIC KEY-----`, the
/// base64 text of a SubjectPublicKeyInfo, `-----END PUBLIC KEY-----`, and the text's end or white
/// space, and then any text. The label `RSA PUBLIC KEY` stands for an RSAPublicKey. White space may
/// stand anywhere between the labels, so lines may have any width and any ends; and one byte order
/// mark in UTF-8 before a block that the text begins with. The key is that of
/// `public_key_from_der`.
///
/// A private key, by its label, is refused with `Provider` and a string that says so, and is not
/// decoded. A SubjectPublicKeyInfo of another algorithm is refused with `UnsupportedAlgorithm`, and
/// any other text with `InvalidKeyFormat`: another label, labels that differ, headers, any other
/// character, padding that lacks or stands elsewhere, base64 with a spare bit set, bytes that are
/// not DER.
pub fn public_key_from_pem(alloc: Global, pem: &[u8]) -> Result<DecodingKey>
    ensures ok { IfOk result (IsPemOf pem.now) }
    ensures only { IfOk result (λ key. (k : Key) → IsPemOf pem.now k → k ≡ key) }
    ensures err { IfErr result (λ e. IsMemory e ⊎ IsPemRefused pem.now (kind_of e)) }
{
    let Some(block) = first_block(pem) else {
        return Err(invalid_key());
    };
    let key = key_of_block(alloc, block)?;
    Ok(key)
}

// Returns the key of the block whose text after `-----BEGIN ` this is.
fn key_of_block(alloc: Global, block: &[u8]) -> Result<DecodingKey>
    ensures ok { IfOk result (λ key. (der : List ℕ) × IsBlockOf block.now der key) }
    ensures err { IfErr result (λ e. IsMemory e ⊎ IsBlockRefused block.now (kind_of e)) }
{
    if let Some(der) = block_bytes(alloc, b"PUBLIC KEY", block)? {
        let key = info_key(alloc, der.as_slice())?;
        return Ok(key);
    }
    if let Some(der) = block_bytes(alloc, b"RSA PUBLIC KEY", block)? {
        let key = rsa_key(alloc, der.as_slice())?;
        return Ok(key);
    }
    if names_private(block) {
        let error = private_key(alloc)?;
        return Err(error);
    }
    Err(invalid_key())
}

// Returns whether the block is labelled as a private key.
fn names_private(block: &[u8]) -> bool
    ensures { IsTrue result ↔ NamesPrivate block.now }
{
    is_labelled(b"PRIVATE KEY", block)
        || is_labelled(b"ENCRYPTED PRIVATE KEY", block)
        || is_labelled(b"RSA PRIVATE KEY", block)
        || is_labelled(b"EC PRIVATE KEY", block)
}

// Returns whether the block has this label.
pub(crate) fn is_labelled(label: &[u8], block: &[u8]) -> bool
    ensures { IsTrue result ↔ IsLabelled label.now block.now }
{
    let Some(rest) = after(label, block) else {
        return false;
    };
    let Some(_) = after(b"-----", rest) else {
        return false;
    };
    true
}
