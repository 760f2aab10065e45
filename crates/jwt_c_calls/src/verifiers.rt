//! Making a verifier of keys and options.

ghost use Rattle.std.specs.Prelude.{◌≡◌, ◌⊎◌, ◌≤◌, ◌↔◌, IfOk, IfErr, IsTrue};
ghost use Rattle.jwt_base.specs.KindOf.{kind_of, IsMemory};
ghost use Rattle.jsonwebtoken.specs.Tests.{AgreesWith};
ghost use Rattle.jwt_keys.specs.KeyOfJwk.{IsKeyOf};
ghost use Rattle.jwt_key_items.specs.KeyItems.{kept_of};
ghost use Rattle.jwt_validation.specs.OptionsOf.{options_of};
ghost use Rattle.jwt_verifier.specs.Fitness.{CanServe};
ghost use Rattle.jwt_c_calls.specs.Acceptors.{made_value};
ghost use Rattle.jwt_c_calls.specs.Keys.{StandsForNoKey};
ghost use Rattle.jwt_c_calls.specs.KeyLists.{keys_of};
ghost use Rattle.jwt_c_calls.specs.Verifiers.{AreAgreeing, AreUsable, HasAgreeing, HasSet, IsOfKey};
ghost use Rattle.jwt_c_calls.specs.Verifiers.{IsUnfit, IsUnmade, IsVerifierBy, IsVerifierOf, KeyServes};
ghost use Rattle.jwt_c_calls.specs.Verifiers.{SetServes, limits_of, problem_status, unless_zero};

use crate::acceptors::Made;
use crate::asked::{Asked, read_options};
use crate::held_keys::HeldKeys;
use crate::inputs::{Input, is_memory, read_as};
use crate::status::status_of;
use crate::status_table::{ALL_ZERO_SECRET, NO_USABLE_KEY, OUT_OF_MEMORY};
use jsonwebtoken::errors::Result as Checked;
use jsonwebtoken::jwk::KeyAlgorithm;
use jsonwebtoken::{Algorithm, DecodingKey};
use jwt_keys::jwk::Jwk;
use jwt_validation::Validation;
use jwt_verifier::{KeyProblem, Keys, Limits, PREPARED_LIMIT, TOKEN_LIMIT, Verifier};
use std::alloc::Global;
use std::result::Result;

// Returns the limits that the arguments of a call stand for: a length of 0 is that of 1 MiB, and 0
// bytes of prepared keys are 64 MiB. Keys with which anyone can sign are never added to a handle.
fn limits(max_len: usize, max_prepared: usize) -> Limits
    ensures { result ≡ limits_of max_len max_prepared }
{
    Limits {
        max_len: given_or(max_len, TOKEN_LIMIT),
        allows_blank: true,
        max_prepared: given_or(max_prepared, PREPARED_LIMIT),
    }
}

fn given_or(given: usize, usual: usize) -> usize
    ensures { result ≡ unless_zero given usual }
{
    if given == 0 { usual } else { given }
}

/// Returns the verifier with these keys and the options that a text describes, or the status of the
/// reason for which there is none. A `max_len` of 0 stands for 1 MiB, and a `max_prepared` of 0 for 64
/// MiB.
pub fn verifier_of(
    alloc: Global,
    keys: &HeldKeys,
    options: &[u8],
    max_len: usize,
    max_prepared: usize,
) -> Result<Made, u32>
    ensures ok { IfOk result (λ m. IsVerifierOf (keys_of keys.now) options.now
        (limits_of max_len max_prepared) (made_value m)) }
    ensures err { IfErr result (IsUnmade (keys_of keys.now) options.now) }
{
    match read_as(Input::Options, read_options(alloc, options)) {
        Ok(asked) => made_by(alloc, keys, asked, limits(max_len, max_prepared)),
        Err(refusal) => Err(status_of(&refusal)),
    }
}

fn made_by(alloc: Global, keys: &HeldKeys, asked: Asked, limits: Limits) -> Result<Made, u32>
    requires { IsTrue limits.allows_blank }
    ensures ok { IfOk result (λ m. IsVerifierBy (keys_of keys.now) (options_of asked.validation)
        limits m.verifier) }
    ensures further { IfOk result (λ m. m.further ≡ asked.further) }
    ensures err { IfErr result (IsUnfit (AreUsable (keys_of keys.now)
        (options_of asked.validation).algorithms)) }
{
    let Asked {
        validation,
        further,
    } = asked;
    let verifier = verifier_by(alloc, keys, validation, limits)?;
    Ok(Made { verifier, further })
}

fn verifier_by(
    alloc: Global,
    keys: &HeldKeys,
    validation: Validation,
    limits: Limits,
) -> Result<Verifier, u32>
    requires { IsTrue limits.allows_blank }
    ensures ok { IfOk result (IsVerifierBy (keys_of keys.now) (options_of validation) limits) }
    ensures err { IfErr result (IsUnfit (AreUsable (keys_of keys.now)
        (options_of validation).algorithms)) }
{
    match keys.lone() {
        Some(jwk) => verifier_of_key(alloc, jwk, validation, limits),
        None => verifier_of_set(alloc, keys, validation, limits),
    }
}

// Returns the verifier with the kept keys of a set.
fn verifier_of_set(
    alloc: Global,
    keys: &HeldKeys,
    validation: Validation,
    limits: Limits,
) -> Result<Verifier, u32>
    requires { IsTrue limits.allows_blank }
    ensures ok { IfOk result (λ v. HasSet (kept_of keys.now.items.items) v.keys.keys
        × (v.validation ≡ validation) × (v.limits ≡ limits) × (v.keys.prepared ≤ limits.max_prepared)
        × SetServes validation.algorithms.items (kept_of keys.now.items.items)) }
    ensures err { IfErr result (IsUnfit
        (SetServes validation.algorithms.items (kept_of keys.now.items.items))) }
{
    match keys.kept(alloc) {
        Ok(set) => made_with(alloc, Keys::Set(set), validation, limits),
        Err(_) => Err(OUT_OF_MEMORY.0),
    }
}

// Returns the verifier with one key, for the listed algorithms that agree with its own `alg`.
fn verifier_of_key(
    alloc: Global,
    jwk: &Jwk,
    mut validation: Validation,
    limits: Limits,
) -> Result<Verifier, u32>
    requires { IsTrue limits.allows_blank }
    ensures ok { IfOk result (λ v. IsOfKey jwk.now v.keys.keys
        × AreAgreeing jwk.now (options_of validation) (options_of v.validation)
        × (v.limits ≡ limits) × (v.keys.prepared ≤ limits.max_prepared)
        × KeyServes validation.algorithms.items jwk.now) }
    ensures err { IfErr result (IsUnfit (KeyServes validation.algorithms.items jwk.now)) }
{
    match key_and_algorithms(alloc, jwk, validation.algorithms.as_slice()) {
        Ok((key, left)) => {
            validation.algorithms = left;
            made_with(alloc, Keys::One(key), validation, limits)
        }
        Err(refused) => {
            if is_memory(&refused) {
                Err(OUT_OF_MEMORY.0)
            } else {
                Err(NO_USABLE_KEY.0)
            }
        }
    }
}

// Returns the key that a JSON Web Key stands for, and the algorithms that agree with its own `alg`.
fn key_and_algorithms(
    alloc: Global,
    jwk: &Jwk,
    algorithms: &[Algorithm],
) -> Checked<(DecodingKey, Vec<Algorithm>)>
    ensures key { IfOk result (λ p. IsKeyOf jwk.now.algorithm p.0) }
    ensures algorithms { IfOk result (λ p. HasAgreeing jwk.now algorithms.now p.1.items) }
    ensures err { IfErr result (λ e. IsMemory e ⊎ StandsForNoKey jwk.now (kind_of e)) }
{
    let key = DecodingKey::from_jwk(alloc, jwk)?;
    let left = agreeing(alloc, jwk, algorithms)?;
    Ok((key, left))
}

fn agreeing(alloc: Global, jwk: &Jwk, algorithms: &[Algorithm]) -> Checked<Vec<Algorithm>>
    ensures ok { IfOk result (λ left. HasAgreeing jwk.now algorithms.now left.items) }
    ensures err { IfErr result IsMemory }
{
    let mut left = Vec::new(alloc);
    for algorithm in algorithms {
        if agrees(jwk, *algorithm) {
            left.push(*algorithm)?;
        }
    }
    Ok(left)
}

/// Returns whether a key is for this algorithm, or for every one.
pub fn agrees(jwk: &Jwk, algorithm: Algorithm) -> bool
    ensures { IsTrue result ↔ AgreesWith algorithm jwk.now }
{
    match jwk.common.key_algorithm {
        Some(named) => named == KeyAlgorithm::from(algorithm),
        None => true,
    }
}

// Returns the verifier with these keys and options, or the status of the reason for which there is
// none.
fn made_with(
    alloc: Global,
    keys: Keys,
    validation: Validation,
    limits: Limits,
) -> Result<Verifier, u32>
    requires { IsTrue limits.allows_blank }
    ensures ok { IfOk result (λ v. (v.keys.keys ≡ keys) × (v.validation ≡ validation)
        × (v.limits ≡ limits) × (v.keys.prepared ≤ limits.max_prepared)
        × CanServe validation.algorithms.items keys) }
    ensures err { IfErr result (IsUnfit (CanServe validation.algorithms.items keys)) }
{
    match Verifier::with_limits(alloc, keys, validation, limits) {
        Ok(verifier) => Ok(verifier),
        Err(problem) => Err(status_of_problem(problem)),
    }
}

fn status_of_problem(problem: KeyProblem) -> u32
    ensures { result ≡ problem_status problem }
{
    match problem {
        KeyProblem::AllZero => ALL_ZERO_SECRET.0,
        KeyProblem::NoUsableKey => NO_USABLE_KEY.0,
        KeyProblem::Memory => OUT_OF_MEMORY.0,
    }
}
