//! Where the key of a token is found.

ghost use Rattle.std.specs.Prelude.{◌≡◌, ◌↔◌, ℕ, List, Option, None, IfOk, IfErr, OnOk};
ghost use Rattle.jwt_base.specs.Kind.{Kind};
ghost use Rattle.jwt_base.specs.KindOf.{Refuses};
ghost use Rattle.jwt_base.specs.Algorithm.{family_of};
ghost use Rattle.jwt_base.specs.declared.algorithms.Algorithm.{Algorithm};
ghost use Rattle.jwt_keys.specs.Key.{Key, key_family};
ghost use Rattle.jsonwebtoken.specs.Finder.{FindsKey, own_by};
ghost use Rattle.jsonwebtoken.specs.Tests.{KeySource};

use crate::refusal::Refusal;
use jwt_base::algorithms::{Algorithm, AlgorithmFamily};
use jwt_base::errors::Result;
use jwt_header::Header;
use jwt_keys::provider::JwtVerifier;
use std::alloc::Global;

/// Finds the key of a token, and makes its verifier, for [`decode_by`](crate::decode_by).
///
/// Use it for keys that are kept in another form than [`decode`](crate::decode) and
/// [`decode_with_set`](crate::decode_with_set) take: with an index, or prepared. `source` is the
/// key or the key set that the finder stands for, and the prover checks the calls against it. Over
/// a table of keys, `source` is the set of its rows, `find` looks up the row with the header's
/// `kid` and returns what [`key_for`](crate::jwk::key_for) makes of it, `own_algorithm` is
/// [`own_algorithm`](crate::jwk::own_algorithm) of it, `family` is that of the key, and `verifier`
/// calls a provider. `KeyRing` of the crate `jwt_verifier` is such a finder.
///
/// By these laws a finder's result depends on the finder and the header alone. A lookup that reads
/// a database during `decode` can return different rows, so it does not meet them: read the keys
/// first, and make a finder of what was read.
pub trait KeyFinder {
    /// A key that was found.
    type Found: Drop;

    /// What verifies signatures with it.
    type Verifier: JwtVerifier;

    // Where the keys come from.
    ghost source: { Self → KeySource };

    // The key that was found.
    ghost key: { Self → Self.Found → Key };

    // The kind with which it refuses to make a verifier, if it does.
    ghost refusal: { Self → Algorithm → Key → Option Kind };

    // Its verifier accepts this signature of the message.
    ghost accepts: { Self → Algorithm → Key → List ℕ → List ℕ → Type 0 };

    /// Returns the key of the token with this header. A refusal has the first test of the key that
    /// fails: `KeyIsFound` with `NoKey`, `KeyAlgMatches` with `InvalidAlgorithm`, or
    /// `KeyIsUsable` with the kind of [`DecodingKey::from_jwk`](crate::DecodingKey::from_jwk). If
    /// memory ran out, its error is `OutOfMemory`.
    fn find(&self, alloc: Global, header: &Header) -> Result<Self::Found, Refusal>
        ensures { FindsKey (source self.now) (key self.now) header.now result };

    /// Returns the algorithm that the key which this header names is for, by its `alg` (RFC 7517
    /// section 4.4), or `None` if it has none, if there is no such key, or if the key is given.
    fn own_algorithm(&self, header: &Header) -> Option<Algorithm>
        ensures { result ≡ own_by (source self.now) header.now };

    /// Returns the family of the algorithms that a key which was found is for.
    fn family(&self, found: &Self::Found) -> AlgorithmFamily
        ensures { result ≡ key_family (key self.now found.now) };

    /// Returns a verifier by this algorithm and key. It is refused with the kind of `refusal`, or
    /// with `OutOfMemory`.
    fn verifier(
        &self,
        alloc: Global,
        algorithm: Algorithm,
        found: &Self::Found,
    ) -> Result<Self::Verifier>
        ensures made { OnOk result (refusal self.now algorithm (key self.now found.now) ≡ None) }
        ensures err { IfErr result (Refuses
            (refusal self.now algorithm (key self.now found.now))) }
        ensures accepts { IfOk result (λ v. (m s : List ℕ) → Self.Verifier.accepts v m s
            ↔ accepts self.now algorithm (key self.now found.now) m s) };

    // A verifier is made only for a key of the algorithm's family.
    ghost same_family: { (p : Self) (a : Algorithm) (k : Key) → refusal p a k ≡ None
        → key_family k ≡ family_of a };
}
