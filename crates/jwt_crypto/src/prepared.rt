//! The provider of HMAC with secrets that are prepared once.

// `kept` alone says that the held hashers serve. A signer or verifier has two forms, by hashers
// that were kept or by a secret's blocks anew: for a secret that is not prepared the second is no
// slower than `HmacProvider`, while hashers made for one token would be. `zeroize` makes the
// hashers those of the zeros, since hashers that had taken the secret's blocks in would still sign
// for it.

ghost use Rattle.std.specs.Prelude.{◌≡◌, ◌≢◌, ◌↔◌, ⊤, ℕ, List, [], ◌∷◌, ◌++◌, map, length, Option};
ghost use Rattle.std.specs.Prelude.{Ok, Some, None, IfOk, IfErr, IfSome, IsSome, OnOk, IsOk};
ghost use Rattle.std.specs.Prelude.{IsTrue};
ghost use Rattle.jwt_base.specs.Kind as kind;
ghost use Rattle.jwt_base.specs.KindOf.{kind_of, Refuses};
ghost use Rattle.jwt_base.specs.KindOf.{IsMemory};
ghost use Rattle.jwt_base.specs.declared.algorithms.AlgorithmFamily.TheVariants as family;
ghost use Rattle.jwt_keys.specs.Key.{Key, SecretKey, key_family};
ghost use Rattle.jwt_crypto.specs.Hmac.{hmac};
ghost use Rattle.jwt_crypto.specs.HmacKeys.{hash_for, algorithm_for, refusal, hmac_signer_refusal};
ghost use Rattle.jwt_crypto.specs.HmacKeys.{hmac_verifier_refusal, hmac_answers, HmacSigns};
ghost use Rattle.jwt_crypto.specs.HmacKeys.{HmacAccepts};
ghost use Rattle.jwt_crypto.specs.law_proofs.HmacFamilies.{family_made};
ghost use Rattle.jwt_crypto.specs.HmacPrepared.{prepared_key, prepared_keys, cleared_key};
ghost use Rattle.jwt_crypto.specs.HmacPrepared.{IsPrepared, IsPreparedKey, algorithm_of, IsCodeBy};
ghost use Rattle.jwt_crypto.specs.HmacPrepared.{IsKept, IsKeptSigner, IsKeptVerifier};

use crate::hmac::{Blocks, Hash, HmacProvider, hash_for_key, hash_of_algorithm};
use crate::prepared_hashers::{PreparedHashers, PreparedKey};
use jwt_base::algorithms::{Algorithm, AlgorithmFamily};
use jwt_base::errors::{Result, unsupported_algorithm};
use jwt_keys::decoding_key::DecodingKey;
use jwt_keys::encoding_key::EncodingKey;
use jwt_keys::provider::{CryptoProvider, JwtSigner, JwtVerifier};
use jwt_params::curves::EllipticCurve;
use jwt_params::thumbprints::ThumbprintHash;
use std::alloc::Global;

// The content of a signer or a verifier: a secret's blocks, or the hashers that were kept.
#[derive(Drop)]
enum SecretInUse {
    Fresh(Blocks),
    Kept(PreparedHashers),
}

impl SecretInUse {
    fn algorithm(&self) -> Algorithm
        ensures { result ≡ algorithm_of self.now }
    {
        match self {
            SecretInUse::Fresh(blocks) => blocks.algorithm(),
            SecretInUse::Kept(held) => held.hash().algorithm(),
        }
    }

    fn sign(&self, alloc: Global, message: &[u8]) -> Result<Vec<u8>>
        ensures ok { IfOk result (λ s. IsCodeBy self.now message.now s.items) }
        ensures err { IfErr result IsMemory }
    {
        match self {
            SecretInUse::Fresh(blocks) => blocks.sign(alloc, message),
            SecretInUse::Kept(held) => held.sign(alloc, message),
        }
    }

    fn verify(&self, message: &[u8], signature: &[u8]) -> bool
        ensures { IsTrue result ↔ IsCodeBy self.now message.now signature.now }
    {
        match self {
            SecretInUse::Fresh(blocks) => blocks.verify(message, signature),
            SecretInUse::Kept(held) => held.verify(message, signature),
        }
    }
}

/// An HMAC signer. The secret is not kept.
#[derive(Drop)]
pub struct PreparedHmacSigner {
    keyed: SecretInUse,
}

impl JwtSigner for PreparedHmacSigner {
    ghost signs_by = { λ s. algorithm_of s.keyed };

    ghost sign_refusal = { λ _ m. None };

    ghost signs = { λ s m b. IsCodeBy s.keyed m b };

    fn algorithm(&self) -> Algorithm {
        self.keyed.algorithm()
    }

    /// Returns the code of the message. The only refusal is `OutOfMemory`.
    fn sign(&self, alloc: Global, message: &[u8]) -> Result<Vec<u8>> {
        self.keyed.sign(alloc, message)
    }
}

/// An HMAC verifier. The secret is not kept.
#[derive(Drop)]
pub struct PreparedHmacVerifier {
    keyed: SecretInUse,
}

impl JwtVerifier for PreparedHmacVerifier {
    ghost verifies_by = { λ v. algorithm_of v.keyed };

    ghost accepts = { λ v m s. IsCodeBy v.keyed m s };

    ghost is_sparing = { λ _. ⊤ };

    fn algorithm(&self) -> Algorithm {
        self.keyed.algorithm()
    }

    /// Returns whether these bytes are the code of the message. Never refuses.
    fn verify(&self, _alloc: Global, message: &[u8], signature: &[u8]) -> Result<bool>
        ensures ok { IsOk result }
        ensures verdict { IfOk result (λ yes. IsTrue yes
            ↔ ⟦<PreparedHmacVerifier as JwtVerifier>⟧.accepts self.now message.now signature.now) }
    {
        Ok(self.keyed.verify(message, signature))
    }
}

/// The provider of HMAC that keeps secrets prepared, each for one algorithm: the hashers that have
/// taken its two blocks in (RFC 2104 section 4). For every algorithm and key it returns what
/// `HmacProvider` returns; if they are prepared ones, it hashes two blocks less. It keeps the
/// secrets, to recognize the prepared ones.
#[derive(Drop)]
pub struct PreparedHmac {
    keys: Vec<PreparedKey>,
}

impl PreparedHmac {
    /// Returns the provider with this secret prepared for this algorithm. An algorithm of another
    /// family is refused with `UnsupportedAlgorithm`.
    pub fn new(alloc: Global, algorithm: Algorithm, secret: &[u8]) -> Result<PreparedHmac>
        ensures prepared { IfOk result (λ p. prepared_keys p ≡ (algorithm, secret.now) ∷ []) }
        ensures made { OnOk result (refusal (hash_for algorithm) family.Hmac ≡ None) }
        ensures err { IfErr result (Refuses (refusal (hash_for algorithm) family.Hmac)) }
    {
        let mut provider = PreparedHmac {
            keys: Vec::new(alloc),
        };
        provider.add(alloc, algorithm, secret)?;
        Ok(provider)
    }

    /// Prepares this secret for this algorithm, after those before it: for services whose secrets
    /// change. An algorithm of another family is refused with `UnsupportedAlgorithm`. A refusal
    /// leaves the provider unchanged.
    pub fn add(&mut self, alloc: Global, algorithm: Algorithm, secret: &[u8]) -> Result<()>
        ensures prepared { OnOk result (prepared_keys self.new
            ≡ prepared_keys self.old ++ (algorithm, secret.now) ∷ []) }
        ensures made { OnOk result (refusal (hash_for algorithm) family.Hmac ≡ None) }
        ensures err { IfErr result (Refuses (refusal (hash_for algorithm) family.Hmac)) }
        ensures unchanged { IfErr result (λ _. prepared_keys self.new ≡ prepared_keys self.old) }
    {
        let Some(hash) = hash_of_algorithm(algorithm) else {
            return Err(unsupported_algorithm());
        };
        let key = PreparedKey::new(alloc, hash, secret)?;
        self.keys.push(key)?;
        Ok(())
    }

    /// Returns whether this secret is prepared for this algorithm. Allocates no memory.
    pub fn is_prepared(&self, algorithm: Algorithm, secret: &[u8]) -> bool
        ensures { IsTrue result ↔ IsPrepared self.now algorithm secret.now }
    {
        match hash_of_algorithm(algorithm) {
            Some(hash) => self.find(hash, secret).is_some(),
            None => false,
        }
    }

    /// Sets every byte of the secrets to 0, and the hashers to those of the cleared secrets. The
    /// numbers of bytes and the algorithms stay.
    pub fn zeroize(&mut self)
        ensures { prepared_keys self.new ≡ map cleared_key (prepared_keys self.old) }
    {
        for key in self.keys.iter_mut() {
            key.zeroize();
        }
    }

    fn find(&self, hash: Hash, secret: &[u8]) -> Option<&PreparedKey>
        ensures some { IfSome result (λ k. prepared_key k.now ≡ (algorithm_for hash, secret.now)) }
        ensures found { IsSome result ↔ IsPrepared self.now (algorithm_for hash) secret.now }
    {
        for key in self.keys.iter() {
            if key.is_for(hash, secret) {
                return Some(key);
            }
        }
        None
    }

    #[inline(always)]
    fn key_for(&self, hash: Hash, secret: &[u8]) -> SecretInUse
        ensures algorithm { algorithm_of result ≡ algorithm_for hash }
        ensures code { (m s : List ℕ) → IsCodeBy result m s ↔ (s ≡ hmac hash secret.now m) }
        ensures kept { IsKept result ↔ IsPrepared self.now (algorithm_for hash) secret.now }
    {
        match self.find(hash, secret) {
            Some(key) => SecretInUse::Kept(key.held.clone()),
            None => SecretInUse::Fresh(Blocks::new(hash, secret)),
        }
    }
}

impl CryptoProvider for PreparedHmac {
    type Signer = PreparedHmacSigner;

    type Verifier = PreparedHmacVerifier;

    ghost signer_refusal = { λ _. hmac_signer_refusal };

    ghost verifier_refusal = { λ _. hmac_verifier_refusal };

    ghost sign_refusal = { λ _ a k m. None };

    ghost signs = { λ _ a k m s. HmacSigns a k m s };

    ghost accepts = { λ _ a k m s. HmacAccepts a k m s };

    ghost is_sparing = { λ _. ⊤ };

    ghost key_answers = { λ _. hmac_answers };

    /// Returns an HMAC signer, refused as by `HmacProvider`. It uses the hashers that are kept
    /// exactly when the key's secret is prepared for the algorithm. Allocates no memory.
    fn signer_factory(
        &self,
        _alloc: Global,
        algorithm: &Algorithm,
        key: &EncodingKey,
    ) -> Result<PreparedHmacSigner>
        ensures made { OnOk result (hmac_signer_refusal algorithm.now key.now ≡ None) }
        ensures err { IfErr result (Refuses (hmac_signer_refusal algorithm.now key.now)) }
        ensures by { IfOk result (λ s. ⟦<PreparedHmacSigner as JwtSigner>⟧.signs_by s ≡ algorithm.now) }
        ensures signs { IfOk result (λ s. (m b : List ℕ) →
            ⟦<PreparedHmacSigner as JwtSigner>⟧.signs s m b ↔ HmacSigns algorithm.now key.now m b) }
        ensures sparing { IfErr result (λ e. kind_of e ≢ kind.OutOfMemory) }
        ensures kept { IfOk result (λ s. IsKeptSigner s
            ↔ IsPrepared self.now algorithm.now key.now.bytes) }
    {
        let hash = hash_for_key(*algorithm, key.family())?;
        Ok(PreparedHmacSigner {
            keyed: self.key_for(hash, key.as_bytes()),
        })
    }

    /// Returns an HMAC verifier, refused as by `HmacProvider`. It uses the hashers that are kept
    /// exactly when the key's secret is prepared for the algorithm. Allocates no memory.
    fn verifier_factory(
        &self,
        _alloc: Global,
        algorithm: &Algorithm,
        key: &DecodingKey,
    ) -> Result<PreparedHmacVerifier>
        ensures made { OnOk result (hmac_verifier_refusal algorithm.now key.now ≡ None) }
        ensures err { IfErr result (Refuses (hmac_verifier_refusal algorithm.now key.now)) }
        ensures by { IfOk result (λ v. ⟦<PreparedHmacVerifier as JwtVerifier>⟧.verifies_by v
            ≡ algorithm.now) }
        ensures accepts { IfOk result (λ v. (m s : List ℕ) →
            ⟦<PreparedHmacVerifier as JwtVerifier>⟧.accepts v m s
            ↔ HmacAccepts algorithm.now key.now m s) }
        ensures sparing { IfErr result (λ e. kind_of e ≢ kind.OutOfMemory) }
        ensures kept { IfOk result (λ v. IsKeptVerifier v
            ↔ IsPreparedKey self.now algorithm.now key.now) }
    {
        let hash = hash_for_key(*algorithm, key.family())?;
        let secret = key.try_get_as_bytes()?;
        Ok(PreparedHmacVerifier {
            keyed: self.key_for(hash, secret),
        })
    }

    fn rsa_pub_components_from_private_key(
        &self,
        alloc: Global,
        der: &[u8],
    ) -> Result<(Vec<u8>, Vec<u8>)> {
        HmacProvider.rsa_pub_components_from_private_key(alloc, der)
    }

    fn rsa_pub_components_from_public_key(
        &self,
        alloc: Global,
        der: &[u8],
    ) -> Result<(Vec<u8>, Vec<u8>)> {
        HmacProvider.rsa_pub_components_from_public_key(alloc, der)
    }

    fn ec_pub_components_from_private_key(
        &self,
        alloc: Global,
        der: &[u8],
        algorithm: Algorithm,
    ) -> Result<(EllipticCurve, Vec<u8>, Vec<u8>)> {
        HmacProvider.ec_pub_components_from_private_key(alloc, der, algorithm)
    }

    fn ed_pub_components_from_private_key(
        &self,
        alloc: Global,
        der: &[u8],
        curve: &EllipticCurve,
    ) -> Result<Vec<u8>> {
        HmacProvider.ed_pub_components_from_private_key(alloc, der, curve)
    }

    /// Returns the digest by SHA-2. The only refusal is `OutOfMemory`.
    fn compute_digest(&self, alloc: Global, bytes: &[u8], hash: ThumbprintHash) -> Result<Vec<u8>> {
        HmacProvider.compute_digest(alloc, bytes, hash)
    }

    ghost same_family = { λ _ a k h. family_made a (key_family k) h };
}
