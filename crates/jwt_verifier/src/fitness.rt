//! Whether a verifier can be made of keys, for algorithms.

// Unusable keys and all-zero secrets are refused here, so that a service fails when it starts, and not
// at its first token. Tests allow all-zero secrets by a named argument.

ghost use Rattle.std.specs.Prelude.{◌≡◌, ◌⊎◌, ◌↔◌, None, IfOk, IfErr, OnOk, IsTrue};
ghost use Rattle.jwt_base.specs.KindOf.{IsMemory};
ghost use Rattle.jwt_standard.specs.StandardKeys.{verifier_refusal};
ghost use Rattle.jsonwebtoken.specs.Tests.{AgreesWith};
ghost use Rattle.jwt_verifier.specs.Fitness.{AreFit, AreSafe, CanServe, HasBlank, ServesAs};
ghost use Rattle.jwt_verifier.specs.Fitness.{IsKeyProblem, JwkServes, Serves};
ghost use Rattle.std.specs.List.{Any};

use crate::keys::Keys;
use jsonwebtoken::crypto::CryptoProvider;
use jsonwebtoken::errors::{Error, ErrorKind, Result as Checked};
use jsonwebtoken::jwk::KeyAlgorithm;
use jsonwebtoken::{Algorithm, DecodingKey};
use jwt_keys::jwk::Jwk;
use jwt_keys::jwk_set::JwkSet;
use jwt_secrets::{has_blank_key, is_blank_key};
use jwt_standard::StandardProvider;
use std::alloc::Global;
use std::result::Result;

/// The reason for which no verifier is made of keys.
#[derive(Debug, Clone, Copy)]
pub enum KeyProblem {
    /// The secret, or a secret of the set, is empty or all zeros, so that anyone can sign with it.
    AllZero,
    /// No key fits an algorithm that the options list. A key of a set fits only if it has a `kid`, and
    /// if its `alg`, if it has one, is that algorithm.
    NoUsableKey,
    /// Memory ran out.
    Memory,
}

impl From<Error> for KeyProblem {
    ghost use Rattle.jwt_verifier.specs.declared.fitness.KeyProblem.TheVariants as problem;

    ghost from_gives = { λ _ why. why ≡ problem.Memory };

    fn from(_refused: Error) -> KeyProblem {
        KeyProblem::Memory
    }
}

/// Refuses keys of which no verifier can be made for these algorithms: all-zero secrets, unless they
/// are allowed, and then keys of which none fits an algorithm.
pub(crate) fn check_keys(
    alloc: Global,
    keys: &Keys,
    algorithms: &[Algorithm],
    allows_blank: bool,
) -> Result<(), KeyProblem>
    ensures ok { OnOk result (AreFit allows_blank algorithms.now keys.now) }
    ensures err { IfErr result (IsKeyProblem allows_blank algorithms.now keys.now) }
{
    check_safe(alloc, keys, allows_blank)?;
    check_served(alloc, keys, algorithms)?;
    Ok(())
}

fn check_safe(alloc: Global, keys: &Keys, allows_blank: bool) -> Result<(), KeyProblem>
    ensures ok { OnOk result (AreSafe allows_blank keys.now) }
    ensures err { IfErr result (λ why. (why ≡ KeyProblem.Memory)
        ⊎ ((why ≡ KeyProblem.AllZero) × (¬ IsTrue allows_blank) × HasBlank keys.now)) }
{
    if allows_blank {
        return Ok(());
    }
    if have_blank(alloc, keys)? {
        return Err(KeyProblem::AllZero);
    }
    Ok(())
}

fn have_blank(alloc: Global, keys: &Keys) -> Checked<bool>
    ensures ok { IfOk result (λ yes. IsTrue yes ↔ HasBlank keys.now) }
    ensures err { IfErr result IsMemory }
{
    match keys {
        Keys::One(key) => Ok(is_blank_key(key)),
        Keys::Set(set) => has_blank_key(alloc, set),
    }
}

fn check_served(alloc: Global, keys: &Keys, algorithms: &[Algorithm]) -> Result<(), KeyProblem>
    ensures ok { OnOk result (CanServe algorithms.now keys.now) }
    ensures err { IfErr result (λ why. (why ≡ KeyProblem.Memory)
        ⊎ ((why ≡ KeyProblem.NoUsableKey) × (¬ CanServe algorithms.now keys.now))) }
{
    if keys_serve(alloc, keys, algorithms)? {
        Ok(())
    } else {
        Err(KeyProblem::NoUsableKey)
    }
}

fn keys_serve(alloc: Global, keys: &Keys, algorithms: &[Algorithm]) -> Checked<bool>
    ensures ok { IfOk result (λ yes. IsTrue yes ↔ CanServe algorithms.now keys.now) }
    ensures err { IfErr result IsMemory }
{
    match keys {
        Keys::One(key) => key_serves(alloc, key, algorithms),
        Keys::Set(set) => set_serves(alloc, set, algorithms),
    }
}

fn key_serves(alloc: Global, key: &DecodingKey, algorithms: &[Algorithm]) -> Checked<bool>
    ensures ok { IfOk result (λ yes. IsTrue yes ↔ Serves algorithms.now key.now) }
    ensures err { IfErr result IsMemory }
{
    for algorithm in algorithms {
        if serves_one(alloc, key, algorithm)? {
            return Ok(true);
        }
    }
    Ok(false)
}

fn serves_one(alloc: Global, key: &DecodingKey, algorithm: &Algorithm) -> Checked<bool>
    ensures ok { IfOk result (λ yes. IsTrue yes
        ↔ (verifier_refusal algorithm.now key.now ≡ None)) }
    ensures err { IfErr result IsMemory }
{
    match StandardProvider.verifier_factory(alloc, algorithm, key) {
        Ok(_) => Ok(true),
        Err(refused) => match refused.kind() {
            ErrorKind::OutOfMemory => Err(refused),
            _ => Ok(false),
        },
    }
}

fn set_serves(alloc: Global, set: &JwkSet, algorithms: &[Algorithm]) -> Checked<bool>
    ensures ok { IfOk result (λ yes. IsTrue yes
        ↔ Any (JwkServes algorithms.now) set.now.keys.items) }
    ensures err { IfErr result IsMemory }
{
    for jwk in &set.keys {
        if jwk_serves(alloc, jwk, algorithms)? {
            return Ok(true);
        }
    }
    Ok(false)
}

// A JSON Web Key that stands for no key does not serve, nor does one without a `kid`, which no
// token can name.
fn jwk_serves(alloc: Global, jwk: &Jwk, algorithms: &[Algorithm]) -> Checked<bool>
    ensures ok { IfOk result (λ yes. IsTrue yes ↔ JwkServes algorithms.now jwk.now) }
    ensures err { IfErr result IsMemory }
{
    if jwk.common.key_id.is_none() {
        return Ok(false);
    }
    match DecodingKey::from_jwk(alloc, jwk) {
        Ok(key) => {
            // named for the proof
            let serves = serves_as(alloc, jwk, &key, algorithms)?;
            Ok(serves)
        }
        Err(refused) => match refused.kind() {
            ErrorKind::OutOfMemory => Err(refused),
            _ => Ok(false),
        },
    }
}

fn serves_as(alloc: Global, jwk: &Jwk, key: &DecodingKey, algorithms: &[Algorithm]) -> Checked<bool>
    ensures ok { IfOk result (λ yes. IsTrue yes ↔ ServesAs algorithms.now jwk.now key.now) }
    ensures err { IfErr result IsMemory }
{
    for algorithm in algorithms {
        if fits(alloc, jwk, key, algorithm)? {
            return Ok(true);
        }
    }
    Ok(false)
}

fn fits(alloc: Global, jwk: &Jwk, key: &DecodingKey, algorithm: &Algorithm) -> Checked<bool>
    ensures ok { IfOk result (λ yes. IsTrue yes
        ↔ (AgreesWith algorithm.now jwk.now × (verifier_refusal algorithm.now key.now ≡ None))) }
    ensures err { IfErr result IsMemory }
{
    if !agrees(jwk, *algorithm) {
        return Ok(false);
    }
    serves_one(alloc, key, algorithm)
}

fn agrees(jwk: &Jwk, algorithm: Algorithm) -> bool
    ensures { IsTrue result ↔ AgreesWith algorithm jwk.now }
{
    match jwk.common.key_algorithm {
        None => true,
        Some(named) => named == KeyAlgorithm::from(algorithm),
    }
}
