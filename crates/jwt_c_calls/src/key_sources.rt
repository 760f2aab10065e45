//! Keys, read from bytes.

// A text names its kind, so that the bytes of a public key never serve as a secret (RFC 8725 section
// 2.1). The key of a secret is a JSON Web Key too: each key is judged by the same rule.

ghost use Rattle.std.specs.Prelude.{◌≡◌, ◌⊎◌, IfOk, IfErr};
ghost use Rattle.serde_json.specs.View.{view};
ghost use Rattle.jwt_base.specs.KindOf.{IsMemory, kind_held};
ghost use Rattle.jwt_key_files.specs.Files.{IsJwkOfFile};
ghost use Rattle.jwt_keys.specs.Jwk.{ReadsKey};
ghost use Rattle.jwt_c_calls.specs.KeyLists.{keys_of};
ghost use Rattle.jwt_c_calls.specs.KeySources.{AreKeysOf, AreRefused, IsAlone, IsJwkOfSecret};
ghost use Rattle.jwt_c_calls.specs.KeySources.{IsNotRead, IsOneOf, IsSkippedAs, of_one};
ghost use Rattle.jwt_c_calls.specs.KeySources.{AreNoneOfValue, AreOfValue, IsKeyOfValue, IsNoFile};
ghost use Rattle.jwt_c_calls.specs.KeySources.{IsNoKeyOfValue, file_status, source_numbered};
ghost use Rattle.jwt_c_calls.specs.declared.key_sources.Source.TheVariants as source;

use crate::held_keys::{HeldKeys, reason_status};
use crate::inputs::is_memory;
use crate::status::number_of;
use crate::status_table::{BAD_KEY, IS_CERTIFICATE, OUT_OF_MEMORY};
use jsonwebtoken::DecodingKey;
use jsonwebtoken::crypto::hmac::HmacProvider;
use jsonwebtoken::errors::{ErrorKind, Result as Checked};
use jwt_base::serialization::json_value;
use jwt_key_files::certificate::is_certificate;
use jwt_key_files::jwk::{jwk_from_file, unverified_jwk_from_certificate_pem};
use jwt_key_items::{Item, KeyItems, Usage, usage_of};
use jwt_keys::jwk::Jwk;
use serde_json::Value;
use std::alloc::Global;
use std::result::Result;

/// What bytes are: `enum jwt_source` of `packages/c/include/jwtproved.h`.
#[derive(Clone, Copy)]
pub enum Source {
    Text,
    Secret,
    Certificate,
    Set,
}

/// Returns the source of a number.
pub fn numbered_source(number: u32) -> Option<Source>
    ensures { result ≡ source_numbered number }
{
    match number {
        1 => Some(Source::Text),
        2 => Some(Source::Secret),
        3 => Some(Source::Certificate),
        4 => Some(Source::Set),
        _ => None,
    }
}

/// Returns the keys that some bytes are, or the status of the reason for which they are none.
pub fn read_keys(alloc: Global, source: Source, bytes: &[u8]) -> Result<HeldKeys, u32>
    ensures ok { IfOk result (λ k. AreKeysOf source bytes.now (keys_of k)) }
    ensures err { IfErr result (AreRefused source bytes.now) }
{
    match source {
        Source::Text => text_keys(alloc, bytes),
        Source::Secret => secret_key(alloc, bytes),
        Source::Certificate => certificate_key(alloc, bytes),
        Source::Set => set_keys(alloc, bytes),
    }
}

fn text_keys(alloc: Global, bytes: &[u8]) -> Result<HeldKeys, u32>
    ensures ok { IfOk result (λ k. AreKeysOf source.Text bytes.now (keys_of k)) }
    ensures err { IfErr result (AreRefused source.Text bytes.now) }
{
    match json_value(alloc, bytes) {
        Ok(value) => json_keys(alloc, &value),
        Err(refused) => {
            if is_memory(&refused) {
                Err(OUT_OF_MEMORY.0)
            } else {
                file_key(alloc, bytes)
            }
        }
    }
}

fn set_keys(alloc: Global, bytes: &[u8]) -> Result<HeldKeys, u32>
    ensures ok { IfOk result (λ k. AreKeysOf source.Set bytes.now (keys_of k)) }
    ensures err { IfErr result (AreRefused source.Set bytes.now) }
{
    match KeyItems::from_slice(alloc, bytes) {
        Ok(set) => Ok(HeldKeys {
            items: set.items,
            is_set: true,
        }),
        Err(refused) => {
            if is_memory(&refused) {
                Err(OUT_OF_MEMORY.0)
            } else {
                Err(BAD_KEY.0)
            }
        }
    }
}

// Returns the keys that a JSON value describes: a set of them, or one.
fn json_keys(alloc: Global, value: &Value) -> Result<HeldKeys, u32>
    ensures ok { IfOk result (λ k. AreOfValue (view value.now) (keys_of k)) }
    ensures err { IfErr result (IsNotRead (IsKeyOfValue (view value.now))
        (AreNoneOfValue (view value.now))) }
{
    match KeyItems::from_value(alloc, value) {
        Ok(set) => Ok(HeldKeys {
            items: set.items,
            is_set: true,
        }),
        Err(refused) => {
            if is_memory(&refused) {
                Err(OUT_OF_MEMORY.0)
            } else {
                json_key(alloc, value)
            }
        }
    }
}

fn json_key(alloc: Global, value: &Value) -> Result<HeldKeys, u32>
    ensures ok { IfOk result (λ k. IsOneOf (ReadsKey (view value.now)) (keys_of k)) }
    ensures err { IfErr result (IsNotRead (ReadsKey (view value.now))
        (IsNoKeyOfValue (view value.now))) }
{
    match Jwk::from_value(alloc, value) {
        Ok(jwk) => one_key(alloc, jwk),
        Err(refused) => {
            if is_memory(&refused) {
                Err(OUT_OF_MEMORY.0)
            } else {
                Err(BAD_KEY.0)
            }
        }
    }
}

// Returns the public key of a file.
fn file_key(alloc: Global, bytes: &[u8]) -> Result<HeldKeys, u32>
    ensures ok { IfOk result (λ k. IsOneOf (IsJwkOfFile bytes.now) (keys_of k)) }
    ensures err { IfErr result (IsNotRead (IsJwkOfFile bytes.now) (IsNoFile bytes.now)) }
{
    if is_certificate(bytes) {
        return Err(IS_CERTIFICATE.0);
    }
    match jwk_from_file(alloc, bytes) {
        Ok(jwk) => one_key(alloc, jwk),
        Err(refused) => Err(file_status(refused.kind())),
    }
}

fn certificate_key(alloc: Global, pem: &[u8]) -> Result<HeldKeys, u32>
    ensures ok { IfOk result (λ k. AreKeysOf source.Certificate pem.now (keys_of k)) }
    ensures err { IfErr result (AreRefused source.Certificate pem.now) }
{
    match unverified_jwk_from_certificate_pem(alloc, pem) {
        Ok(jwk) => one_key(alloc, jwk),
        Err(refused) => Err(file_status(refused.kind())),
    }
}

fn secret_key(alloc: Global, secret: &[u8]) -> Result<HeldKeys, u32>
    ensures ok { IfOk result (λ k. AreKeysOf source.Secret secret.now (keys_of k)) }
    ensures err { IfErr result (AreRefused source.Secret secret.now) }
{
    match secret_jwk(alloc, secret) {
        Ok(jwk) => one_key(alloc, jwk),
        Err(_) => Err(OUT_OF_MEMORY.0),
    }
}

// Returns the JSON Web Key of a secret.
fn secret_jwk(alloc: Global, secret: &[u8]) -> Checked<Jwk>
    ensures ok { IfOk result (IsJwkOfSecret secret.now) }
    ensures err { IfErr result IsMemory }
{
    let key = DecodingKey::from_secret(alloc, secret)?;
    // named for the proof
    let jwk = Jwk::from_decoding_key(alloc, &HmacProvider, &key, None)?;
    Ok(jwk)
}

// Returns one key that is not in a set, if the library verifies with it.
fn one_key(alloc: Global, jwk: Jwk) -> Result<HeldKeys, u32>
    ensures ok { IfOk result (λ k. IsAlone jwk (keys_of k)) }
    ensures err { IfErr result (λ status. (status ≡ 22) ⊎ IsSkippedAs jwk status) }
{
    match usage_of(alloc, &jwk) {
        Ok(Usage::Kept(bits)) => match alone(alloc, jwk, Usage::Kept(bits)) {
            Ok(keys) => Ok(keys),
            Err(_) => Err(OUT_OF_MEMORY.0),
        },
        Ok(Usage::Skipped(why)) => Err(reason_status(why)),
        Err(_) => Err(OUT_OF_MEMORY.0),
    }
}

fn alone(alloc: Global, jwk: Jwk, usage: Usage) -> Checked<HeldKeys>
    ensures { IfOk result (λ k. keys_of k ≡ of_one jwk usage) }
{
    let mut items = Vec::new(alloc);
    items.push(Item {
        key: Some(jwk),
        usage,
    })?;
    Ok(HeldKeys {
        items,
        is_set: false,
    })
}

// Returns the status of a refusal of the file of a key.
fn file_status(kind: &ErrorKind) -> u32
    ensures { result ≡ file_status (kind_held kind.now) }
{
    match kind {
        ErrorKind::InvalidKeyFormat => BAD_KEY.0,
        _ => number_of(kind),
    }
}
