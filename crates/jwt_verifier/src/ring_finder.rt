//! Finding the key of a token in a ring.

ghost use Rattle.std.specs.Prelude.{◌≡◌, ◌↔◌, ℕ, List, Some, None, IfOk, IfErr, OnOk, MatchOption};
ghost use Rattle.jwt_base.specs.Kind as kind;
ghost use Rattle.jwt_base.specs.KindOf.{Refuses, kind_of};
ghost use Rattle.jwt_keys.specs.declared.jwk.Jwk.{Jwk as JwkValue};
ghost use Rattle.jwt_standard.specs.StandardKeys.{verifier_refusal, StandardAccepts};
ghost use Rattle.jwt_standard.specs.law_proofs.StandardFamilies.{family_made};
ghost use Rattle.jsonwebtoken.specs.Finder.{FindsKey, own_by};
ghost use Rattle.jsonwebtoken.specs.Own.{named_own};
ghost use Rattle.jsonwebtoken.specs.Steps.{Finds};
ghost use Rattle.jsonwebtoken.specs.Tests.{InSet, named_key};
ghost use Rattle.jwt_verifier.specs.Ring.{IsEntryOf};
ghost use Rattle.jwt_verifier.specs.RingFound.{IsFit, found_key};
ghost use Rattle.jwt_verifier.specs.RingKeys.{IsIndexOf, IsNamedOf, IsRingOf};
ghost use Rattle.jwt_verifier.specs.Verifying.{source_of};

use crate::entry::{Entry, Prepared};
use crate::key_ring::KeyRing;
use crate::key_verifier::KeyVerifier;
use crate::keys::Keys;
use jsonwebtoken::crypto::{CryptoProvider, JwtVerifier};
use jsonwebtoken::errors::{ErrorKind, Result as Checked, new_error};
use jsonwebtoken::jwk::{check_key_algorithm, key_of_jwk, own_algorithm};
use jsonwebtoken::{Algorithm, AlgorithmFamily, DecodingKey, Header, KeyFinder, Refusal, Test};
use jwt_keys::jwk::Jwk;
use jwt_keys::jwk_set::JwkSet;
use jwt_standard::StandardProvider;
use std::alloc::Global;
use std::collections::BTreeMap;
use std::result::Result;

/// A key that was found.
#[derive(Drop)]
pub enum Found<'r> {
    /// One that is kept, and what is prepared of it.
    Kept(&'r DecodingKey, &'r Prepared),
    /// One that was made for this token.
    Made(DecodingKey),
}

impl<'r> KeyFinder for &'r KeyRing {
    type Found = Found<'r>;

    type Verifier = KeyVerifier<'r>;

    ghost source = { λ ring. source_of ring.now.keys };

    ghost key = { λ _ found. found_key found };

    ghost refusal = { λ _. verifier_refusal };

    ghost accepts = { λ _ a k m s. StandardAccepts a k m s };

    fn find(&self, alloc: Global, header: &Header) -> Result<Found<'r>, Refusal> {
        let ring: &'r KeyRing = *self;
        ring.find_key(alloc, header)
    }

    fn own_algorithm(&self, header: &Header) -> Option<Algorithm> {
        self.find_own(header)
    }

    fn family(&self, found: &Found<'r>) -> AlgorithmFamily {
        match found {
            Found::Kept(key, _) => key.family(),
            Found::Made(key) => key.family(),
        }
    }

    fn verifier(
        &self,
        alloc: Global,
        algorithm: Algorithm,
        found: &Found<'r>,
    ) -> Checked<KeyVerifier<'r>> {
        match found {
            Found::Kept(key, prepared) => prepared.verifier(alloc, algorithm, *key),
            Found::Made(key) => verifier_anew(alloc, algorithm, key),
        }
    }

    ghost same_family = { λ _ a k h. family_made a k h };
}

/// Returns the key of the token with this header.
pub(crate) fn find_in<'r>(
    alloc: Global,
    keys: &'r Keys,
    given: &'r Prepared,
    named: &'r BTreeMap<String, Entry>,
    header: &Header,
) -> Result<Found<'r>, Refusal>
    requires { IsRingOf keys.now given.now named.now }
    ensures found { FindsKey (source_of keys.now) found_key header.now result }
    ensures fit { IfOk result IsFit }
{
    match keys {
        Keys::One(key) => Ok(Found::Kept(key, given)),
        Keys::Set(set) => find_in_set(alloc, named, set, header),
    }
}

/// Returns the key of the set that the header names.
fn find_in_set<'r>(
    alloc: Global,
    named: &'r BTreeMap<String, Entry>,
    set: &'r JwkSet,
    header: &Header,
) -> Result<Found<'r>, Refusal>
    requires { IsIndexOf set.now.keys.items named.now }
    ensures found { FindsKey (InSet set.now.keys.items) found_key header.now result }
    ensures fit { IfOk result IsFit }
{
    let entry = entry_by(named, set.keys.as_slice(), header)?;
    let jwk = &set.keys[entry.at];
    check_key_algorithm(jwk, header.alg)?;
    match &entry.key {
        Some(key) => Ok(Found::Kept(key, &entry.prepared)),
        None => {
            let key = key_of_jwk(alloc, jwk)?;
            Ok(Found::Made(key))
        }
    }
}

/// Returns the algorithm that the key of the token with this header is for, if it is one of a set.
pub(crate) fn own_in(
    keys: &Keys,
    named: &BTreeMap<String, Entry>,
    header: &Header,
) -> Option<Algorithm>
    requires { IsNamedOf keys.now named.now }
    ensures { result ≡ own_by (source_of keys.now) header.now }
{
    match keys {
        Keys::One(_) => None,
        Keys::Set(set) => own_in_set(named, set.keys.as_slice(), header),
    }
}

fn own_in_set(named: &BTreeMap<String, Entry>, keys: &[Jwk], header: &Header) -> Option<Algorithm>
    requires { IsIndexOf keys.now named.now }
    ensures { result ≡ named_own keys.now header.now }
{
    match entry_named(named, keys, header) {
        Some(entry) => own_algorithm(&keys[entry.at]),
        None => None,
    }
}

/// Returns the entry that the header names, or the refusal if it names none.
fn entry_by<'r>(
    named: &'r BTreeMap<String, Entry>,
    keys: &[Jwk],
    header: &Header,
) -> Result<&'r Entry, Refusal>
    requires { IsIndexOf keys.now named.now }
    ensures { Finds Test.KeyIsFound (λ e. (j : JwkValue) × (named_key keys.now header.now ≡ Some j)
        × IsEntryOf keys.now j e.now)
        (named_key keys.now header.now ≡ None) (λ k. k ≡ kind.NoKey) result }
{
    entry_named(named, keys, header).ok_or(no_key())
}

/// Returns the entry that the header names.
fn entry_named<'r>(
    named: &'r BTreeMap<String, Entry>,
    keys: &[Jwk],
    header: &Header,
) -> Option<&'r Entry>
    requires { IsIndexOf keys.now named.now }
    ensures { MatchOption result (named_key keys.now header.now ≡ None)
        (λ e. (j : JwkValue) × (named_key keys.now header.now ≡ Some j)
        × IsEntryOf keys.now j e.now) }
{
    let Some(kid) = &header.kid else {
        return None;
    };
    named.get(kid.as_str())
}

fn no_key() -> Refusal
    ensures { (result.test ≡ Test.KeyIsFound) × (kind_of result.error ≡ kind.NoKey) }
{
    Refusal {
        test: Test::KeyIsFound,
        error: new_error(ErrorKind::NoKey),
    }
}

fn verifier_anew<'r>(
    alloc: Global,
    algorithm: Algorithm,
    key: &DecodingKey,
) -> Checked<KeyVerifier<'r>>
    ensures made { OnOk result (verifier_refusal algorithm key.now ≡ None) }
    ensures err { IfErr result (Refuses (verifier_refusal algorithm key.now)) }
    ensures accepts { IfOk result (λ v. (m s : List ℕ) →
        ⟦<KeyVerifier<'r> as JwtVerifier>⟧.accepts v m s
        ↔ StandardAccepts algorithm key.now m s) }
{
    Ok(KeyVerifier::Other(StandardProvider.verifier_factory(alloc, &algorithm, key)?))
}
