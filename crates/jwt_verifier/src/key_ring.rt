//! Keys that are made once, each found by its `kid` and prepared.

// The index is filled from the first key of the set to the last, and a `kid` that is there stays: so
// the keys that are prepared are the first ones, and none that no token finds. A key of no use has
// an entry too, without a key, and a token that names it is refused as by the set.

ghost use Rattle.std.specs.Prelude.{◌≡◌, ◌<◌, ◌≤◌, ◌+◌, IfOk, IfErr, IfSome, OnOk, get_or, length};
ghost use Rattle.std.specs.Prelude.{All, Contains, Some};
ghost use Rattle.jwt_base.specs.KindOf.{IsMemory};
ghost use Rattle.jwt_keys.specs.declared.jwk.Jwk.{Jwk as JwkValue};
ghost use Rattle.jwt_keys.specs.KeyOfJwk.{IsKeyOf};
ghost use Rattle.jsonwebtoken.specs.Finder.{FindsKey, own_by};
ghost use Rattle.jsonwebtoken.specs.Own.{own_of};
ghost use Rattle.jsonwebtoken.specs.Tests.{AgreesWith};
ghost use Rattle.jwt_keys.specs.Key.{Key};
ghost use Rattle.jwt_verifier.specs.PreparedOf.{IsNeededOf, IsPreparedOf};
ghost use Rattle.jwt_verifier.specs.PreparedSize.{named_size, prepared_size};
ghost use Rattle.jwt_verifier.specs.Ring.{IsEntryOf};
ghost use Rattle.jwt_verifier.specs.RingFound.{IsFit, found_key};
ghost use Rattle.jwt_verifier.specs.RingKeys.{IsGivenOf, IsIndexOf, IsIndexUpTo, IsNamedOf};
ghost use Rattle.jwt_verifier.specs.Verifying.{source_of};

use crate::budget::Budget;
use crate::entry::{Entry, Prepared, value_or_none};
use crate::keys::Keys;
use crate::ring_finder::{Found, find_in, own_in};
use jsonwebtoken::errors::Result as Checked;
use jsonwebtoken::jwk::own_algorithm;
use jsonwebtoken::{Algorithm, DecodingKey, Header, Refusal};
use jwt_keys::jwk::Jwk;
use std::alloc::Global;
use std::collections::BTreeMap;
use std::marker::Model;
use std::result::Result;

/// Keys that are made once, and serve many tokens: the key that is given, or those of a set, of
/// which the first with each `kid` is found by it (RFC 7517 section 4.5). A contract sees the keys
/// that it was made of, and the bytes that the prepared ones take together.
///
/// A reference to it is a [`KeyFinder`](jsonwebtoken::KeyFinder): the calls over a finder return
/// with it what `decode` or `decode_with_set` returns by `StandardProvider` with these keys. Finding
/// a key takes time in proportion to the logarithm of their number.
#[derive(Drop)]
pub struct KeyRing {
    keys: Keys,
    given: Prepared,
    named: BTreeMap<String, Entry>,
}

impl Model for KeyRing {
    ghost use Rattle.std.specs.Prelude.{◌+◌};
    ghost use Rattle.jwt_verifier.specs.PreparedSize.{named_size, prepared_size};
    ghost use Rattle.jwt_verifier.specs.RingKeys.{IsRingOf};
    ghost use Rattle.jwt_verifier.specs.RingValue.{Ring, ring_code};

    ghost Value = { Ring };

    ghost coded = { ring_code };

    ghost view = { λ ring. record {
      keys = ring.keys;
      prepared = prepared_size ring.given + named_size ring.named;
    } };

    ghost invariant = { λ ring. IsRingOf ring.keys ring.given ring.named };
}

impl KeyRing {
    /// Returns the ring of these keys, which refuses none: keys that serve no token are refused when
    /// one names them. The only refusal is `OutOfMemory`.
    ///
    /// It prepares the keys to verify with these algorithms, from the first key to the last, as long
    /// as they take at most `prepared` bytes together; the others verify too, with the same result.
    /// A key of a set that is for one algorithm (RFC 7517 section 4.4) is prepared for it alone, and
    /// only if it is among these. A secret takes 1 KiB and its length for each of the algorithms, an
    /// RSA key 1 KiB and four times the length of its modulus, and a key on P-256, P-384 or of
    /// Ed25519 16, 24 or 32 KiB.
    pub fn new(
        alloc: Global,
        keys: Keys,
        algorithms: &[Algorithm],
        prepared: usize,
    ) -> Checked<KeyRing>
        ensures ok { IfOk result (λ ring. ring.keys ≡ keys) }
        ensures room { IfOk result (λ ring. ring.prepared ≤ prepared) }
        ensures err { IfErr result IsMemory }
    {
        let mut budget = Budget { left: prepared };
        let given = given_of(alloc, &keys, algorithms, &mut budget)?;
        let named = named_of(alloc, &keys, algorithms, &mut budget)?;
        Ok(KeyRing { keys, given, named })
    }

    /// Returns the keys that it was made of.
    pub fn keys(&self) -> &Keys
        ensures { result.now ≡ self.now.keys }
    {
        &self.keys
    }

    /// Returns the key of the token with this header.
    pub(crate) fn find_key<'r>(
        &'r self,
        alloc: Global,
        header: &Header,
    ) -> Result<Found<'r>, Refusal>
        ensures found { FindsKey (source_of self.now.keys) found_key header.now result }
        ensures fit { IfOk result IsFit }
    {
        find_in(alloc, &self.keys, &self.given, &self.named, header)
    }

    /// Returns the algorithm that the key of the token with this header is for, if it is one of a set.
    pub(crate) fn find_own(&self, header: &Header) -> Option<Algorithm>
        ensures { result ≡ own_by (source_of self.now.keys) header.now }
    {
        own_in(&self.keys, &self.named, header)
    }
}

/// Prepares the key that is given, if one is.
fn given_of(
    alloc: Global,
    keys: &Keys,
    algorithms: &[Algorithm],
    budget: &mut Budget,
) -> Checked<Prepared>
    ensures ok { IfOk result (IsGivenOf keys.now) }
    ensures err { IfErr result IsMemory }
    ensures room { IfOk result (λ p. prepared_size p + budget.new.left ≤ budget.old.left) }
{
    match keys {
        Keys::One(key) => Prepared::new(alloc, key, algorithms, budget),
        Keys::Set(_) => Ok(Prepared::Nothing),
    }
}

/// Returns the index of the keys of a set, if one is given.
fn named_of(
    alloc: Global,
    keys: &Keys,
    algorithms: &[Algorithm],
    budget: &mut Budget,
) -> Checked<BTreeMap<String, Entry>>
    ensures ok { IfOk result (IsNamedOf keys.now) }
    ensures err { IfErr result IsMemory }
    ensures room { IfOk result (λ m. named_size m + budget.new.left ≤ budget.old.left) }
{
    match keys {
        Keys::One(_) => Ok(BTreeMap::new(alloc)),
        Keys::Set(set) => index(alloc, set.keys.as_slice(), algorithms, budget),
    }
}

/// Returns the first key of each `kid`, by it.
fn index(
    alloc: Global,
    keys: &[Jwk],
    algorithms: &[Algorithm],
    budget: &mut Budget,
) -> Checked<BTreeMap<String, Entry>>
    ensures ok { IfOk result (IsIndexOf keys.now) }
    ensures err { IfErr result IsMemory }
    ensures room { IfOk result (λ m. named_size m + budget.new.left ≤ budget.old.left) }
{
    let mut named = BTreeMap::new(alloc);
    let mut at = 0;
    while at < keys.len() {
        put(alloc, &mut named, keys, at, algorithms, budget)?;
        at += 1;
    }
    Ok(named)
}

/// Puts the key at this place in, if it has a `kid` and none before it has the same.
fn put(
    alloc: Global,
    named: &mut BTreeMap<String, Entry>,
    keys: &[Jwk],
    at: usize,
    algorithms: &[Algorithm],
    budget: &mut Budget,
) -> Checked<()>
    requires { at < length keys.now }
    ensures ok { OnOk result
        (IsIndexUpTo keys.now at named.old → IsIndexUpTo keys.now (at + 1) named.new) }
    ensures err { IfErr result IsMemory }
    ensures room { OnOk result
        (named_size named.new + budget.new.left ≤ named_size named.old + budget.old.left) }
{
    let Some(kid) = &keys[at].common.key_id else {
        return Ok(());
    };
    if named.contains_key(kid.as_str()) {
        return Ok(());
    }
    let entry = entry_of(alloc, keys, at, algorithms, budget)?;
    let name = String::from_str(alloc, kid.as_str())?;
    named.insert(name, entry)?;
    Ok(())
}

/// Returns the entry of the key at this place.
fn entry_of(
    alloc: Global,
    keys: &[Jwk],
    at: usize,
    algorithms: &[Algorithm],
    budget: &mut Budget,
) -> Checked<Entry>
    requires { at < length keys.now }
    ensures ok { IfOk result
        (λ e. (j : JwkValue) → IsEntryOf keys.now (get_or keys.now at j) e) }
    ensures err { IfErr result IsMemory }
    ensures needed { IfOk result (λ e. (j : JwkValue) (k : Key) → e.key ≡ Some k
        → IsNeededOf (get_or keys.now at j) algorithms.now k e.prepared) }
    ensures room { IfOk result
        (λ e. prepared_size e.prepared + budget.new.left ≤ budget.old.left) }
{
    let key = key_if_usable(alloc, &keys[at])?;
    let prepared = prepared_of(alloc, &keys[at], &key, algorithms, budget)?;
    Ok(Entry { at, key, prepared })
}

/// Prepares the key that a JSON Web Key stands for, if it does, for the listed algorithms that it is
/// for.
fn prepared_of(
    alloc: Global,
    jwk: &Jwk,
    key: &Option<DecodingKey>,
    listed: &[Algorithm],
    budget: &mut Budget,
) -> Checked<Prepared>
    ensures ok { IfOk result (λ p. (k : Key) → key.now ≡ Some k → IsPreparedOf k p) }
    ensures err { IfErr result IsMemory }
    ensures needed { IfOk result (λ p. (k : Key) → key.now ≡ Some k
        → IsNeededOf jwk.now listed.now k p) }
    ensures room { IfOk result (λ p. prepared_size p + budget.new.left ≤ budget.old.left) }
{
    let Some(key) = key else {
        return Ok(Prepared::Nothing);
    };
    let own = own_algorithm(jwk);
    let algorithms = agreeing(jwk, &own, listed);
    // named for the proof
    let prepared = Prepared::new(alloc, key, algorithms, budget)?;
    Ok(prepared)
}

/// Returns the listed algorithms that a key can verify with (RFC 7517 section 4.4): all of them, or,
/// if it has an `alg`, its own algorithm alone if that is listed.
fn agreeing<'a>(jwk: &Jwk, own: &'a Option<Algorithm>, listed: &'a [Algorithm]) -> &'a [Algorithm]
    requires { own.now ≡ own_of jwk.now }
    ensures { All (λ a. Contains listed.now a × AgreesWith a jwk.now) result.now }
{
    match jwk.common.key_algorithm {
        None => listed,
        Some(_) => match own {
            Some(algorithm) if listed.contains(algorithm) => own.as_slice(),
            _ => &[],
        },
    }
}

fn key_if_usable(alloc: Global, jwk: &Jwk) -> Checked<Option<DecodingKey>>
    ensures ok { IfOk result (λ made. IfSome made (IsKeyOf jwk.now.algorithm)) }
    ensures err { IfErr result IsMemory }
{
    value_or_none(DecodingKey::from_jwk(alloc, jwk))
}
