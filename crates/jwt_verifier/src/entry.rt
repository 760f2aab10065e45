//! A key that is kept, and what is prepared of it.

// What is prepared is a provider, which compares the key that it is asked for with its own: whatever
// it keeps, it refuses and accepts as `StandardProvider` does. Another kind of key that is prepared
// is a variant of `Prepared`, its bytes in `Prepared::new`, and a variant of `KeyVerifier`.

ghost use Rattle.std.specs.Prelude.{◌≡◌, ◌↔◌, ◌+◌, ◌≤◌, ℕ, List, None, IfOk, IfErr, IfSome, Ok, OnOk};
ghost use Rattle.std.specs.Prelude.{IsTrue};
ghost use Rattle.std.specs.List.{Any};
ghost use Rattle.jwt_base.specs.Algorithm.{family_of};
ghost use Rattle.jwt_base.specs.declared.algorithms.AlgorithmFamily.TheVariants as family;
ghost use Rattle.jwt_base.specs.KindOf.{IsMemory, Refuses};
ghost use Rattle.jwt_keys.specs.Key.{Bytes, Components, Plain, key_content};
ghost use Rattle.jwt_standard.specs.StandardKeys.{verifier_refusal, StandardAccepts};
ghost use Rattle.jwt_verifier.specs.PreparedOf.{IsNeeded, IsPreparedOf};
ghost use Rattle.jwt_verifier.specs.PreparedSize.{point_size, prepared_size, rsa_size, secret_size};

use crate::budget::Budget;
use crate::key_verifier::KeyVerifier;
use jsonwebtoken::crypto::hmac::PreparedHmac;
use jsonwebtoken::crypto::{CryptoProvider, JwtVerifier};
use jsonwebtoken::errors::{ErrorKind, Result as Checked, new_error};
use jsonwebtoken::{Algorithm, AlgorithmFamily, DecodingKey, DecodingKeyKind};
use jwt_curves::PreparedCurve;
use jwt_rsa::PreparedRsa;
use jwt_standard::StandardProvider;
use std::alloc::Global;

/// The bytes that a prepared key takes, besides a secret or some multiples of a modulus.
const KEY_SIZE: usize = 1024;

/// How many times the length of its modulus a prepared RSA key takes.
const MODULUS_TIMES: usize = 4;

/// The bytes that a prepared key of P-256, of P-384 and of Ed25519 takes.
const P256_SIZE: usize = 16_384;

const P384_SIZE: usize = 24_576;

const ED25519_SIZE: usize = 32_768;

/// The greatest length of a point of P-256, in bytes (SEC 1, section 2.3.3).
const P256_POINT: usize = 65;

/// What is prepared of a key.
#[derive(Drop)]
pub enum Prepared {
    /// The hashers that have taken the secret's blocks in (RFC 2104 section 4).
    Secret(PreparedHmac),
    /// The values of the modulus.
    Rsa(PreparedRsa),
    /// Multiples of the point.
    Curve(PreparedCurve),
    /// Nothing: no room is left for it, or it serves none of the algorithms.
    Nothing,
}

/// A key of a set: its place, the key that it stands for, if it does, and what is prepared of it.
#[derive(Drop)]
pub struct Entry {
    pub(crate) at: usize,
    pub(crate) key: Option<DecodingKey>,
    pub(crate) prepared: Prepared,
}

impl Prepared {
    /// Prepares a key to verify with these algorithms, if one is of its family and there is room for
    /// it. Of a key that can't be prepared, nothing is.
    pub(crate) fn new(
        alloc: Global,
        key: &DecodingKey,
        algorithms: &[Algorithm],
        budget: &mut Budget,
    ) -> Checked<Prepared>
        ensures ok { IfOk result (IsPreparedOf key.now) }
        ensures err { IfErr result IsMemory }
        ensures needed { IfOk result (IsNeeded algorithms.now key.now) }
        ensures room { IfOk result (λ p. prepared_size p + budget.new.left ≤ budget.old.left) }
    {
        if !are_of_family(algorithms, key.family()) {
            return Ok(Prepared::Nothing);
        }
        match key.kind() {
            DecodingKeyKind::SecretOrDer(bytes) if key.family() == AlgorithmFamily::Hmac => {
                prepare_secret(alloc, bytes.as_slice(), algorithms, budget)
            }
            DecodingKeyKind::RsaModulusExponent { n, e } => {
                prepare_rsa(alloc, n.as_slice(), e.as_slice(), budget)
            }
            DecodingKeyKind::SecretOrDer(point) => {
                prepare_curve(alloc, key, point.as_slice(), budget)
            }
        }
    }

    /// Returns a verifier by this algorithm and key, like `StandardProvider`.
    pub(crate) fn verifier<'p>(
        &'p self,
        alloc: Global,
        algorithm: Algorithm,
        key: &DecodingKey,
    ) -> Checked<KeyVerifier<'p>>
        ensures made { OnOk result (verifier_refusal algorithm key.now ≡ None) }
        ensures err { IfErr result (Refuses (verifier_refusal algorithm key.now)) }
        ensures by { IfOk result (λ v.
            ⟦<KeyVerifier<'p> as JwtVerifier>⟧.verifies_by v ≡ algorithm) }
        ensures accepts { IfOk result (λ v. (m s : List ℕ) →
            ⟦<KeyVerifier<'p> as JwtVerifier>⟧.accepts v m s
            ↔ StandardAccepts algorithm key.now m s) }
    {
        match self {
            Prepared::Secret(secrets) if algorithm.family() == AlgorithmFamily::Hmac => {
                Ok(KeyVerifier::Secret(secrets.verifier_factory(alloc, &algorithm, key)?))
            }
            Prepared::Rsa(rsa) if algorithm.family() == AlgorithmFamily::Rsa => {
                Ok(KeyVerifier::Rsa(rsa.verifier_factory(alloc, &algorithm, key)?))
            }
            Prepared::Curve(curve) => curve_verifier(alloc, curve, algorithm, key),
            _ => Ok(KeyVerifier::Other(StandardProvider.verifier_factory(alloc, &algorithm, key)?)),
        }
    }
}

/// Returns whether one of the algorithms is of this family.
fn are_of_family(algorithms: &[Algorithm], family: AlgorithmFamily) -> bool
    ensures { IsTrue result ↔ Any (λ a. family_of a ≡ family) algorithms.now }
{
    algorithms
        .iter()
        .any(|algorithm| algorithm.family() == family)
}

/// Returns the verifier by a prepared key on a curve, or one that is not prepared, by another
/// algorithm or key.
fn curve_verifier<'p>(
    alloc: Global,
    curve: &'p PreparedCurve,
    algorithm: Algorithm,
    key: &DecodingKey,
) -> Checked<KeyVerifier<'p>>
    ensures made { OnOk result (verifier_refusal algorithm key.now ≡ None) }
    ensures err { IfErr result (Refuses (verifier_refusal algorithm key.now)) }
    ensures by { IfOk result (λ v.
        ⟦<KeyVerifier<'p> as JwtVerifier>⟧.verifies_by v ≡ algorithm) }
    ensures accepts { IfOk result (λ v. (m s : List ℕ) →
        ⟦<KeyVerifier<'p> as JwtVerifier>⟧.accepts v m s
        ↔ StandardAccepts algorithm key.now m s) }
{
    match curve.verifier(algorithm, key) {
        Some(verifier) => Ok(KeyVerifier::Curve(verifier)),
        None => Ok(KeyVerifier::Other(StandardProvider.verifier_factory(alloc, &algorithm, key)?)),
    }
}

/// Prepares a secret for each of these algorithms, as long as there is room.
fn prepare_secret(
    alloc: Global,
    secret: &[u8],
    algorithms: &[Algorithm],
    budget: &mut Budget,
) -> Checked<Prepared>
    ensures ok { IfOk result (IsPreparedOf (Plain family.Hmac secret.now)) }
    ensures err { IfErr result IsMemory }
    ensures room { IfOk result (λ p. prepared_size p + budget.new.left ≤ budget.old.left) }
{
    let size = KEY_SIZE + secret.len();
    let mut prepared = Prepared::Nothing;
    for algorithm in algorithms {
        if budget.take(size) {
            add_secret(alloc, &mut prepared, *algorithm, secret)?;
        }
    }
    Ok(prepared)
}

/// Prepares a secret for one more algorithm.
fn add_secret(
    alloc: Global,
    prepared: &mut Prepared,
    algorithm: Algorithm,
    secret: &[u8],
) -> Checked<()>
    ensures ok { OnOk result (IsPreparedOf (Plain family.Hmac secret.now) prepared.old
        → IsPreparedOf (Plain family.Hmac secret.now) prepared.new) }
    ensures err { IfErr result IsMemory }
    ensures room { OnOk result
        (prepared_size prepared.new ≤ prepared_size prepared.old + secret_size secret.now) }
{
    if let Prepared::Secret(secrets) = prepared {
        return added(PreparedHmac::add(secrets, alloc, algorithm, secret));
    }
    let made = value_or_none(PreparedHmac::new(alloc, algorithm, secret))?;
    if let Some(secrets) = made {
        *prepared = Prepared::Secret(secrets);
    }
    Ok(())
}

/// Prepares an RSA key, if there is room for it.
fn prepare_rsa(alloc: Global, n: &[u8], e: &[u8], budget: &mut Budget) -> Checked<Prepared>
    ensures ok { IfOk result (IsPreparedOf (Components n.now e.now)) }
    ensures err { IfErr result IsMemory }
    ensures room { IfOk result (λ p. prepared_size p + budget.new.left ≤ budget.old.left) }
{
    let Some(size) = modulus_size(n.len()) else {
        return Ok(Prepared::Nothing);
    };
    if !budget.take(size) {
        return Ok(Prepared::Nothing);
    }
    let mut rsa = PreparedRsa::new(alloc);
    added(rsa.add(alloc, n, e))?;
    Ok(Prepared::Rsa(rsa))
}

/// Returns the bytes that a prepared RSA key with a modulus of this length takes, if that is a
/// number of bytes.
fn modulus_size(length: usize) -> Option<usize>
    ensures { IfSome result (λ size. size ≡ rsa_size length) }
{
    length.checked_mul(MODULUS_TIMES)?.checked_add(KEY_SIZE)
}

/// Prepares a key on a curve with this point, if there is room for it.
fn prepare_curve(
    alloc: Global,
    key: &DecodingKey,
    point: &[u8],
    budget: &mut Budget,
) -> Checked<Prepared>
    requires { key_content key.now ≡ Bytes point.now }
    ensures ok { IfOk result (IsPreparedOf key.now) }
    ensures err { IfErr result IsMemory }
    ensures room { IfOk result (λ p. prepared_size p + budget.new.left ≤ budget.old.left) }
{
    if !budget.take(curve_size(key.family(), point.len())) {
        return Ok(Prepared::Nothing);
    }
    match PreparedCurve::new(alloc, key)? {
        Some(curve) => Ok(Prepared::Curve(curve)),
        None => Ok(Prepared::Nothing),
    }
}

/// Returns the bytes that a prepared key on a curve with a point of this length takes.
fn curve_size(family: AlgorithmFamily, length: usize) -> usize
    ensures { result ≡ point_size family length }
{
    match family {
        AlgorithmFamily::Ed => ED25519_SIZE,
        _ if length > P256_POINT => P384_SIZE,
        _ => P256_SIZE,
    }
}

fn added(made: Checked<()>) -> Checked<()>
    ensures { IfErr result IsMemory }
{
    value_or_none(made)?;
    Ok(())
}

/// Returns the value that a call made, or `None` if it was refused for another reason than memory.
pub(crate) fn value_or_none<R>(made: Checked<R>) -> Checked<Option<R>>
    ensures ok { IfOk result (λ value. IfSome value (λ y. made ≡ Ok y)) }
    ensures err { IfErr result IsMemory }
{
    match made {
        Ok(value) => Ok(Some(value)),
        Err(error) if matches!(error.kind(), ErrorKind::OutOfMemory) => {
            Err(new_error(ErrorKind::OutOfMemory))
        }
        Err(_) => Ok(None),
    }
}
