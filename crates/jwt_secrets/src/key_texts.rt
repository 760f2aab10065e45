//! Secrets that are the text of a key of another kind: of SSH, in PEM, in DER or in JSON, or base64
//! of one of these.
//!
//! A public key is known, so that anyone could sign with its text as a secret of HMAC (RFC 8725
//! sections 2.1 and 3.1).

// A secret is the text of a key by the marks of its form, and need not be one that the library
// reads: a key of another curve, or one in PEM that was cut, is as well known. Only DER is known by
// the tags in it, since it has no mark.

ghost use Rattle.std.specs.Prelude.{◌≡◌, ◌≢◌, ◌↔◌, ◌++◌, ℕ, List, IfOk, IfErr, MatchOption, IsTrue};
ghost use Rattle.std.specs.Prelude.{map};
ghost use Rattle.std.specs.List.{Any};
ghost use Rattle.serde_json.specs.View.{view};
ghost use Rattle.jwt_base.specs.KindOf.{IsMemory};
ghost use Rattle.jwt_base.specs.declared.algorithms.AlgorithmFamily.TheVariants.{Hmac};
ghost use Rattle.jwt_keys.specs.Key.{Plain};
ghost use Rattle.jwt_secrets.specs.KeyTexts.{marks, byte_order_mark, all_tags, first_tags, Has};
ghost use Rattle.jwt_secrets.specs.KeyTexts.{IsMarked, IsKeyObject, ReadsKeyObject, IsKeyInJson};
ghost use Rattle.jwt_secrets.specs.KeyTexts.{HasElements, AreElements, BeginWithElements};
ghost use Rattle.jwt_secrets.specs.KeyTexts.{IsKeyContent, IsKeyInDer, IsKey, IsKeyText};
ghost use Rattle.jwt_secrets.specs.KeyTexts.{HasKeyText, JwkHasKeyText, SetHasKeyText};

use crate::base64_texts::base64_bytes;
use jwt_base::algorithms::AlgorithmFamily;
use jwt_base::errors::{ErrorKind, Result};
use jwt_base::serialization::json_value;
use jwt_key_files::element::{read, read_all};
use jwt_keys::decoding_key::{DecodingKey, DecodingKeyKind};
use jwt_keys::jwk::Jwk;
use jwt_keys::jwk_set::JwkSet;
use memchr::memmem;
use serde_json::Value;
use std::alloc::Global;

/// Returns whether a secret is the text of a key of another kind, or base64 of one: of SSH (RFC
/// 4253, RFC 4716), in PEM (RFC 7468), a JSON Web Key or a set of them (RFC 7517), or in DER, by
/// the tags of its elements. The only refusal is `OutOfMemory`.
pub fn is_key_text(alloc: Global, secret: &[u8]) -> Result<bool>
    ensures ok { IfOk result (λ is. IsTrue is ↔ IsKeyText secret.now) }
    ensures err { IfErr result IsMemory }
{
    if is_key(alloc, secret)? {
        return Ok(true);
    }
    match base64_bytes(alloc, secret)? {
        Some(bytes) => is_key(alloc, bytes.as_slice()),
        None => Ok(false),
    }
}

/// Returns whether a key is one for HMAC whose secret [is the text of a key](is_key_text) of
/// another kind. The only refusal is `OutOfMemory`.
pub fn has_key_text(alloc: Global, key: &DecodingKey) -> Result<bool>
    ensures ok { IfOk result (λ has. IsTrue has ↔ HasKeyText key.now) }
    ensures err { IfErr result IsMemory }
{
    match hmac_secret(key) {
        Some(secret) => is_key_text(alloc, secret),
        None => Ok(false),
    }
}

/// Returns whether the key that a JSON Web Key stands for (RFC 7518 section 6) [is such a
/// key](has_key_text). One that stands for no key is not. The only refusal is `OutOfMemory`.
pub fn jwk_has_key_text(alloc: Global, jwk: &Jwk) -> Result<bool>
    ensures ok { IfOk result (λ has. IsTrue has ↔ JwkHasKeyText jwk.now) }
    ensures err { IfErr result IsMemory }
{
    match DecodingKey::from_jwk(alloc, jwk) {
        Ok(key) => has_key_text(alloc, &key),
        Err(refused) => match refused.kind() {
            ErrorKind::OutOfMemory => Err(refused),
            _ => Ok(false),
        },
    }
}

/// Returns whether a set (RFC 7517 section 5) has [such a key](jwk_has_key_text). The only refusal
/// is `OutOfMemory`.
pub fn set_has_key_text(alloc: Global, set: &JwkSet) -> Result<bool>
    ensures ok { IfOk result (λ has. IsTrue has ↔ SetHasKeyText set.now.keys.items) }
    ensures err { IfErr result IsMemory }
{
    for jwk in &set.keys {
        if jwk_has_key_text(alloc, jwk)? {
            return Ok(true);
        }
    }
    Ok(false)
}

fn marks() -> [&'static str; 11]
    ensures { map (λ s. s.now) result ≡ marks }
{
    [
        "ssh-rsa",
        "ssh-dss",
        "ssh-ed25519",
        "ssh-ed448",
        "ssh-xmss",
        "ecdsa-sha2-nistp",
        "sk-ssh-ed25519@openssh.com",
        "sk-ecdsa-sha2-nistp256@openssh.com",
        "-cert-v01@openssh.com",
        "---- BEGIN ",
        "-----BEGIN ",
    ]
}

fn all_tags() -> [&'static [u8]; 5]
    ensures { map (λ t. t.now) result ≡ all_tags }
{
    [
        b"\x30\x03".as_slice(),
        b"\x30\x30\x03".as_slice(),
        b"\x30\x04".as_slice(),
        b"\x02\x02".as_slice(),
        b"\x02\x02\x02\x02\x02\x02\x02\x02\x02".as_slice(),
    ]
}

fn first_tags() -> [&'static [u8]; 2]
    ensures { map (λ t. t.now) result ≡ first_tags }
{
    [b"\x02\x30\x04".as_slice(), b"\x02\x04".as_slice()]
}

fn is_key(alloc: Global, text: &[u8]) -> Result<bool>
    ensures ok { IfOk result (λ is. IsTrue is ↔ IsKey text.now) }
    ensures err { IfErr result IsMemory }
{
    if is_marked(text) || is_key_in_der(text) {
        return Ok(true);
    }
    is_key_in_json(alloc, text)
}

fn is_marked(text: &[u8]) -> bool
    ensures { IsTrue result ↔ IsMarked text.now }
{
    for mark in marks() {
        if has(text, mark) {
            return true;
        }
    }
    false
}

fn has(text: &[u8], mark: &str) -> bool
    ensures { IsTrue result ↔ Has text.now mark.now }
{
    match memmem::find(text, mark.as_bytes()) {
        Some(_) => true,
        None => false,
    }
}

fn is_key_in_der(bytes: &[u8]) -> bool
    ensures { IsTrue result ↔ IsKeyInDer bytes.now }
{
    match read_all(0x30, bytes) {
        Some(content) => is_whole_key(content) || begins_key(content),
        None => false,
    }
}

fn is_whole_key(content: &[u8]) -> bool
    ensures { IsTrue result ↔ Any (AreElements content.now) all_tags }
{
    for tags in all_tags() {
        if are_elements(tags, content) {
            return true;
        }
    }
    false
}

fn are_elements(tags: &[u8], bytes: &[u8]) -> bool
    ensures { IsTrue result ↔ AreElements bytes.now tags.now }
{
    match after_elements(tags, bytes) {
        Some(rest) => rest.len() == 0,
        None => false,
    }
}

// Returns the bytes after the elements with these tags that the bytes begin with.
fn after_elements<'a>(tags: &[u8], bytes: &'a [u8]) -> Option<&'a [u8]>
    ensures { MatchOption result ((rest : List ℕ) → ¬ HasElements tags.now bytes.now rest)
        (λ rest. HasElements tags.now bytes.now rest.now) }
{
    let mut rest = bytes;
    for tag in tags {
        let Some((_, after)) = read(*tag, rest) else {
            return None;
        };
        rest = after;
    }
    Some(rest)
}

fn begins_key(content: &[u8]) -> bool
    ensures { IsTrue result ↔ Any (BeginWithElements content.now) first_tags }
{
    for tags in first_tags() {
        if begin_with_elements(tags, content) {
            return true;
        }
    }
    false
}

fn begin_with_elements(tags: &[u8], bytes: &[u8]) -> bool
    ensures { IsTrue result ↔ BeginWithElements bytes.now tags.now }
{
    match after_elements(tags, bytes) {
        Some(_) => true,
        None => false,
    }
}

fn is_key_in_json(alloc: Global, text: &[u8]) -> Result<bool>
    ensures ok { IfOk result (λ is. IsTrue is ↔ IsKeyInJson text.now) }
    ensures err { IfErr result IsMemory }
{
    if reads_key_object(alloc, text)? {
        return Ok(true);
    }
    match after_mark(text) {
        Some(json) => reads_key_object(alloc, json),
        None => Ok(false),
    }
}

fn reads_key_object(alloc: Global, json: &[u8]) -> Result<bool>
    ensures ok { IfOk result (λ is. IsTrue is ↔ ReadsKeyObject json.now) }
    ensures err { IfErr result IsMemory }
{
    match json_value(alloc, json) {
        Ok(value) => Ok(is_key_object(&value)),
        Err(refused) => match refused.kind() {
            ErrorKind::OutOfMemory => Err(refused),
            _ => Ok(false),
        },
    }
}

fn is_key_object(value: &Value) -> bool
    ensures { IsTrue result ↔ IsKeyObject (view value.now) }
{
    value.get("kty").is_some() || value.get("keys").is_some()
}

// Returns the text after the byte order mark that it begins with.
fn after_mark(text: &[u8]) -> Option<&[u8]>
    ensures { MatchOption result ((json : List ℕ) → text.now ≢ byte_order_mark ++ json)
        (λ json. text.now ≡ byte_order_mark ++ json.now) }
{
    let Some(json) = text.strip_prefix(b"\xef\xbb\xbf") else {
        return None;
    };
    Some(json)
}

// Returns the secret of a key for HMAC.
fn hmac_secret(key: &DecodingKey) -> Option<&[u8]>
    ensures { MatchOption result ((secret : List ℕ) → key.now ≢ Plain Hmac secret)
        (λ secret. key.now ≡ Plain Hmac secret.now) }
{
    match (key.family(), key.kind()) {
        (AlgorithmFamily::Hmac, DecodingKeyKind::SecretOrDer(secret)) => Some(secret.as_slice()),
        _ => None,
    }
}
