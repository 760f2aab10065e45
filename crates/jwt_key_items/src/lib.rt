//! Reads key sets item by item: keeps the usable keys, and skips every other item (RFC 7517 section
//! 5).
//!
//! A key server may add keys that this library does not support, and keys for encryption. Use
//! [`KeyItems::from_slice`] to read a set all the same, and to learn why an item is skipped.
//! `JwkSet::from_slice` refuses the whole set if one item is not a key.

#![tactic(auto)]

ghost use Rattle.std.specs.Prelude.{◌≡◌, ◌↔◌, ◌≤◌, List, Some, None, IsTrue, IfOk, IfErr};
ghost use Rattle.std.specs.Prelude.{MatchOption};
ghost use Rattle.serde_json.specs.View.{view, items_view};
ghost use Rattle.jwt_base.specs.JsonText.{ReadsText};
ghost use Rattle.jwt_base.specs.Kind as kind;
ghost use Rattle.jwt_base.specs.KindOf.{IsMemory, RefusesAs};
ghost use Rattle.jwt_keys.specs.JwkSet.{ReadsSet};
ghost use Rattle.jwt_keys.specs.KeyOfJwk.{IsKeyOf};
ghost use Rattle.jwt_standard.specs.StandardKeys.{verifier_refusal};
ghost use Rattle.jwt_key_items.specs.declared.Item.{Item};
ghost use Rattle.jwt_key_items.specs.KeyItems.{ArePointTexts, HasNamedCurve, IsEdwardsText};
ghost use Rattle.jwt_key_items.specs.KeyItems.{IsForSignatures, AgreesWith, VerifiesWith, IsBit};
ghost use Rattle.jwt_key_items.specs.KeyItems.{AreBitsOf, IsUsage, IsItem, AreItems, ReadsItems};
ghost use Rattle.jwt_key_items.specs.KeyItems.{kept_key, kept_of, AreAllKept};

use jwt_base::algorithms::{Algorithm, KeyAlgorithm};
use jwt_base::errors::{ErrorKind, Result, new_error};
use jwt_base::serialization::json_value;
use jwt_keys::decoding_key::DecodingKey;
use jwt_keys::jwk::Jwk;
use jwt_keys::jwk_set::JwkSet;
use jwt_keys::provider::CryptoProvider;
use jwt_params::curves::EllipticCurve;
use jwt_params::parameters::AlgorithmParameters;
use jwt_params::uses::PublicKeyUse;
use jwt_secrets::is_blank_key;
use jwt_secrets::key_texts::has_key_text;
use jwt_standard::StandardProvider;
use serde_json::Value;
use std::alloc::Global;

/// Why an item of a key set is skipped: the first of these that applies.
#[derive(Debug, Clone, Copy, PartialEq, Eq)]
pub enum Reason {
    /// The item is not a JSON object, or a parameter that all types of keys have is malformed, such
    /// as a `kid` that is a number (RFC 7517 section 4).
    NotAKey,
    /// The `kty` is unknown, or a member of the type is missing (RFC 7518 section 6).
    Unsupported,
    /// A member of the type is not base64url (RFC 7518 section 6).
    Base64,
    /// The `use` is other than `sig` (RFC 7517 section 4.2).
    NotForSignatures,
    /// None of the twelve algorithms verifies with the key: it is too short, or not on its curve, or
    /// its `crv` names another curve (RFC 7518 section 6.2.1), or its `alg` is for another key or
    /// unknown (section 3.1).
    Unfit,
    /// The secret is empty or all zeros (RFC 2104 section 2).
    AllZero,
    /// The secret is the text of a key of another kind (RFC 8725 section 2.1).
    KeyText,
}

/// Whether a key is kept.
#[derive(Debug, Clone, Copy, PartialEq, Eq)]
pub enum Usage {
    /// The key verifies with some algorithms. Each has the bit `1 << number`, where `HS256` has the
    /// number 1, and the others follow in the order of `Algorithm`.
    Kept(u32),
    /// The key is ignored.
    Skipped(Reason),
}

/// An item of the list `keys` of a key set.
#[derive(Debug, Drop)]
pub struct Item {
    /// The key, if the item reads as one. A key that is skipped is here too.
    pub key: Option<Jwk>,
    /// Whether the key is kept.
    pub usage: Usage,
}

impl Item {
    /// Returns the key, if it is kept.
    pub fn kept(&self) -> Option<&Jwk>
        ensures { MatchOption result (kept_key self.now ≡ None)
            (λ jwk. kept_key self.now ≡ Some jwk.now) }
    {
        match self.usage {
            Usage::Kept(_) => self.key.as_ref(),
            Usage::Skipped(_) => None,
        }
    }

    /// Returns a copy. The only refusal is `OutOfMemory`.
    pub fn clone(&self, alloc: Global) -> Result<Item>
        ensures ok { IfOk result (λ i. i ≡ self.now) }
        ensures err { IfErr result IsMemory }
    {
        let key = match &self.key {
            Some(key) => Some(key.clone(alloc)?),
            None => None,
        };
        Ok(Item {
            key,
            usage: self.usage,
        })
    }

    /// Returns the key, if it is kept.
    pub fn into_kept(self) -> Option<Jwk>
        ensures { result ≡ kept_key self }
    {
        let Item { key, usage } = self;
        match usage {
            Usage::Kept(_) => key,
            Usage::Skipped(_) => None,
        }
    }
}

/// The items of a key set, in order.
#[derive(Debug, Drop)]
pub struct KeyItems {
    /// One item for each element of `keys` (RFC 7517 section 5.1).
    pub items: Vec<Item>,
}

impl KeyItems {
    /// Returns the items of a key set in JSON: an object with the list `keys` (RFC 7517 section 5).
    /// Use it to verify with the usable keys of a set, and to report why another item is skipped.
    ///
    /// Errors: `Json` if the text is not such an object, or nests deeper than 127 levels.
    pub fn from_slice(alloc: Global, text: &[u8]) -> Result<KeyItems>
        ensures ok { IfOk result (λ k. ReadsText ReadsItems text.now k.items.items) }
        ensures whole { IfOk result (λ k. AreAllKept k.items.items
            → ReadsText ReadsSet text.now (kept_of k.items.items)) }
        ensures err { IfErr result (RefusesAs kind.Json
            ((items : List Item) → ¬ ReadsText ReadsItems text.now items)) }
    {
        let value = json_value(alloc, text)?;
        KeyItems::from_value(alloc, &value)
    }

    /// Returns the items of a key set, as [`from_slice`](KeyItems::from_slice) does.
    ///
    /// Errors: `Json` if the value is not an object with the list `keys`.
    pub fn from_value(alloc: Global, value: &Value) -> Result<KeyItems>
        ensures ok { IfOk result (λ k. ReadsItems (view value.now) k.items.items) }
        ensures err { IfErr result (RefusesAs kind.Json
            ((items : List Item) → ¬ ReadsItems (view value.now) items)) }
    {
        let Some(member) = value.get("keys") else {
            return Err(new_error(ErrorKind::Json));
        };
        let Some(values) = member.as_array() else {
            return Err(new_error(ErrorKind::Json));
        };
        let items = read_items(alloc, values)?;
        Ok(KeyItems { items })
    }

    /// Returns the set of the kept keys, in order: make a verifier of it.
    ///
    /// Errors: none but `OutOfMemory`.
    pub fn kept(self, alloc: Global) -> Result<JwkSet>
        ensures ok { IfOk result (λ set. set.keys.items ≡ kept_of self.items.items) }
        ensures err { IfErr result IsMemory }
    {
        let keys = self
            .items
            .into_iter()
            .filter_map(|item| item.into_kept())
            .collect::<Vec<Jwk>>(alloc)?;
        Ok(JwkSet { keys })
    }
}

fn read_items(alloc: Global, values: &[Value]) -> Result<Vec<Item>>
    ensures ok { IfOk result (λ items. AreItems (items_view values.now) items.items) }
    ensures err { IfErr result IsMemory }
{
    let mut items = Vec::new(alloc);
    for value in values {
        items.push(item_of(alloc, value)?)?;
    }
    Ok(items)
}

fn item_of(alloc: Global, value: &Value) -> Result<Item>
    ensures ok { IfOk result (IsItem (view value.now)) }
    ensures err { IfErr result IsMemory }
{
    match Jwk::from_value(alloc, value) {
        Ok(key) => item_with(alloc, key),
        Err(refused) => match refused.kind() {
            ErrorKind::OutOfMemory => Err(refused),
            _ => Ok(Item {
                key: None,
                usage: Usage::Skipped(Reason::NotAKey),
            }),
        },
    }
}

fn item_with(alloc: Global, key: Jwk) -> Result<Item>
    ensures ok { IfOk result (λ i. (i.key ≡ Some key) × IsUsage key i.usage) }
    ensures err { IfErr result IsMemory }
{
    let usage = usage_of(alloc, &key)?;
    Ok(Item {
        key: Some(key),
        usage,
    })
}

/// Returns whether a JSON Web Key is kept in a set.
///
/// Errors: none but `OutOfMemory`.
pub fn usage_of(alloc: Global, jwk: &Jwk) -> Result<Usage>
    ensures ok { IfOk result (IsUsage jwk.now) }
    ensures err { IfErr result IsMemory }
{
    match DecodingKey::from_jwk(alloc, jwk) {
        Ok(key) => usage_with(alloc, jwk, &key),
        Err(refused) => match refused.kind() {
            ErrorKind::OutOfMemory => Err(refused),
            ErrorKind::UnsupportedAlgorithm => Ok(Usage::Skipped(Reason::Unsupported)),
            _ => Ok(Usage::Skipped(Reason::Base64)),
        },
    }
}

// Returns whether a JSON Web Key that stands for this key is kept.
fn usage_with(alloc: Global, jwk: &Jwk, key: &DecodingKey) -> Result<Usage>
    requires { IsKeyOf jwk.now.algorithm key.now }
    ensures ok { IfOk result (IsUsage jwk.now) }
    ensures err { IfErr result IsMemory }
{
    if !is_for_signatures(jwk) {
        return Ok(Usage::Skipped(Reason::NotForSignatures));
    }
    let bits = bits_of(alloc, jwk, key)?;
    if bits == 0 {
        return Ok(Usage::Skipped(Reason::Unfit));
    }
    if is_blank_key(key) {
        return Ok(Usage::Skipped(Reason::AllZero));
    }
    if has_key_text(alloc, key)? {
        return Ok(Usage::Skipped(Reason::KeyText));
    }
    Ok(Usage::Kept(bits))
}

fn is_for_signatures(jwk: &Jwk) -> bool
    ensures { IsTrue result ↔ IsForSignatures jwk.now }
{
    match &jwk.common.public_key_use {
        Some(PublicKeyUse::Signature) => true,
        Some(_) => false,
        None => true,
    }
}

// Returns the bits of the algorithms that verify with a JSON Web Key, which stands for this key.
fn bits_of(alloc: Global, jwk: &Jwk, key: &DecodingKey) -> Result<u32>
    requires { IsKeyOf jwk.now.algorithm key.now }
    ensures ok { IfOk result (AreBitsOf jwk.now) }
    ensures err { IfErr result IsMemory }
{
    let hs256 = bit_of(alloc, jwk, key, Algorithm::HS256, 2)?;
    let hs384 = bit_of(alloc, jwk, key, Algorithm::HS384, 4)?;
    let hs512 = bit_of(alloc, jwk, key, Algorithm::HS512, 8)?;
    let rs256 = bit_of(alloc, jwk, key, Algorithm::RS256, 16)?;
    let rs384 = bit_of(alloc, jwk, key, Algorithm::RS384, 32)?;
    let rs512 = bit_of(alloc, jwk, key, Algorithm::RS512, 64)?;
    let ps256 = bit_of(alloc, jwk, key, Algorithm::PS256, 128)?;
    let ps384 = bit_of(alloc, jwk, key, Algorithm::PS384, 256)?;
    let ps512 = bit_of(alloc, jwk, key, Algorithm::PS512, 512)?;
    let es256 = bit_of(alloc, jwk, key, Algorithm::ES256, 1024)?;
    let es384 = bit_of(alloc, jwk, key, Algorithm::ES384, 2048)?;
    let eddsa = bit_of(alloc, jwk, key, Algorithm::EdDSA, 4096)?;
    let hmac = hs256 + hs384 + hs512;
    let rsa = rs256 + rs384 + rs512 + ps256 + ps384 + ps512;
    Ok(hmac + rsa + es256 + es384 + eddsa)
}

// Returns the bit, if the algorithm verifies with a JSON Web Key, which stands for this key, and
// otherwise 0.
fn bit_of(
    alloc: Global,
    jwk: &Jwk,
    key: &DecodingKey,
    algorithm: Algorithm,
    bit: u32,
) -> Result<u32>
    requires { IsKeyOf jwk.now.algorithm key.now }
    ensures ok { IfOk result (IsBit (VerifiesWith jwk.now algorithm) bit) }
    ensures within { IfOk result (λ given. given ≤ bit) }
    ensures err { IfErr result IsMemory }
{
    if agrees(jwk, algorithm) && has_named_curve(&jwk.algorithm) && serves(alloc, key, algorithm)? {
        Ok(bit)
    } else {
        Ok(0)
    }
}

fn agrees(jwk: &Jwk, algorithm: Algorithm) -> bool
    ensures { IsTrue result ↔ AgreesWith algorithm jwk.now }
{
    match jwk.common.key_algorithm {
        Some(named) => named == KeyAlgorithm::from(algorithm),
        None => true,
    }
}

// Returns whether the coordinates of a key have the length of the curve that its `crv` names.
fn has_named_curve(parameters: &AlgorithmParameters) -> bool
    ensures { IsTrue result ↔ HasNamedCurve parameters.now }
{
    match parameters {
        AlgorithmParameters::EllipticCurve(key) => {
            is_point(&key.curve, key.x.as_str().len(), key.y.as_str().len())
        }
        AlgorithmParameters::OctetKeyPair(key) => {
            is_edwards_key(&key.curve, key.x.as_str().len())
        }
        _ => true,
    }
}

fn is_point(curve: &EllipticCurve, x: usize, y: usize) -> bool
    ensures { IsTrue result ↔ ArePointTexts curve.now x y }
{
    match curve {
        EllipticCurve::P256 => x == 43 && y == 43,
        EllipticCurve::P384 => x == 64 && y == 64,
        _ => false,
    }
}

fn is_edwards_key(curve: &EllipticCurve, x: usize) -> bool
    ensures { IsTrue result ↔ IsEdwardsText curve.now x }
{
    match curve {
        EllipticCurve::Ed25519 => x == 43,
        _ => false,
    }
}

fn serves(alloc: Global, key: &DecodingKey, algorithm: Algorithm) -> Result<bool>
    ensures ok { IfOk result (λ yes. IsTrue yes ↔ (verifier_refusal algorithm key.now ≡ None)) }
    ensures err { IfErr result IsMemory }
{
    match StandardProvider.verifier_factory(alloc, &algorithm, key) {
        Ok(_) => Ok(true),
        Err(refused) => match refused.kind() {
            ErrorKind::OutOfMemory => Err(refused),
            _ => Ok(false),
        },
    }
}
