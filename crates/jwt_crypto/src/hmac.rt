//! The provider of HMAC (RFC 2104) with SHA-2 (RFC 7518 section 3.2).

// Signer and verifier keep no copy of a secret, but its two padded blocks of 128 bytes, of which
// the first 64 count for HS256; a ghost field says that one padded key gives both. They are made
// without a request for memory, which is tested, while a contract says only that `OutOfMemory`
// never comes. Whoever reads a block can compute the padded secret, so it is as secret.

ghost use Rattle.std.specs.Prelude.{◌≡◌, ◌≢◌, ◌↔◌, ⊤, ℕ, ◌≤◌, List, ◌++◌, Option, Ok, Some, None};
ghost use Rattle.std.specs.Prelude.{IfOk, IfErr, OnOk, IsOk, IsTrue, length, take};
ghost use Rattle.jwt_base.specs.Kind as kind;
ghost use Rattle.jwt_base.specs.KindOf.{kind_of, IsMemory, Refuses};
ghost use Rattle.jwt_keys.specs.Key.{Key, Plain, SecretKey, key_family};
ghost use Rattle.jwt_keys.specs.Provider.{HasOneSignature};
ghost use Rattle.jwt_crypto.specs.Hmac.{hash_bytes, block_len, short_key, filled, masked, nested};
ghost use Rattle.jwt_crypto.specs.Hmac.{hmac, mac_by, HaveOneKey};
ghost use Rattle.jwt_crypto.specs.HmacKeys.{hash_for, hash_named, algorithm_for, refusal};
ghost use Rattle.jwt_crypto.specs.HmacKeys.{hmac_signer_refusal, hmac_verifier_refusal};
ghost use Rattle.jwt_crypto.specs.HmacKeys.{hmac_answers, HmacSigns, HmacAccepts, AcceptsItsOwn};
ghost use Rattle.jwt_crypto.specs.HmacBlocks.{AreBlocksOf, AreBlocksOfKey};
ghost use Rattle.jwt_crypto.specs.law_proofs.HmacFamilies.{family_made};

use crate::comparison::is_same;
use jwt_base::algorithms::{Algorithm, AlgorithmFamily};
use jwt_base::errors::{ErrorKind, Result, new_error, unsupported_algorithm};
use jwt_keys::decoding_key::DecodingKey;
use jwt_keys::encoding_key::EncodingKey;
use jwt_keys::provider::{CryptoProvider, JwtSigner, JwtVerifier};
use jwt_params::curves::EllipticCurve;
use jwt_params::thumbprints::ThumbprintHash;
use sha2::{Digest, Sha256, Sha384, Sha512};
use std::alloc::Global;

/// A hash function of SHA-2 (RFC 6234).
#[derive(Clone, Copy, PartialEq, Eq)]
pub enum Hash {
    /// SHA-256.
    Sha256,
    /// SHA-384.
    Sha384,
    /// SHA-512.
    Sha512,
}

impl Hash {
    pub(crate) fn algorithm(self) -> Algorithm
        ensures { result ≡ algorithm_for self }
    {
        match self {
            Hash::Sha256 => Algorithm::HS256,
            Hash::Sha384 => Algorithm::HS384,
            Hash::Sha512 => Algorithm::HS512,
        }
    }

    /// Returns the digest of the bytes. The only refusal is `OutOfMemory`.
    pub fn digest(self, alloc: Global, bytes: &[u8]) -> Result<Vec<u8>>
        ensures ok { IfOk result (λ d. d.items ≡ hash_bytes self bytes.now) }
        ensures err { IfErr result IsMemory }
    {
        Ok(match self {
            Hash::Sha256 => Sha256::digest(bytes).to_vec(alloc)?,
            Hash::Sha384 => Sha384::digest(bytes).to_vec(alloc)?,
            Hash::Sha512 => Sha512::digest(bytes).to_vec(alloc)?,
        })
    }

    // Returns B, the length of a block in bytes.
    fn block_len(self) -> usize
        ensures { result ≡ block_len self }
    {
        match self {
            Hash::Sha256 => 64,
            Hash::Sha384 | Hash::Sha512 => 128,
        }
    }
}

// The two blocks of a secret: K' xor ipad and K' xor opad, of which the first B bytes count. The
// secret itself is not kept.
#[derive(Drop)]
pub(crate) struct Blocks {
    pub(crate) hash: Hash,
    pub(crate) inner: [u8; 128],
    pub(crate) outer: [u8; 128],
    ghost one_key: { HaveOneKey hash inner outer },
}

impl Blocks {
    pub(crate) fn new(hash: Hash, secret: &[u8]) -> Blocks
        ensures hash { result.hash ≡ hash }
        ensures blocks { AreBlocksOf result.hash result.inner result.outer secret.now }
        ensures mac { (m : List ℕ) → mac_by hash result.inner result.outer m
            ≡ hmac hash secret.now m }
    {
        let key = filled_key(hash, secret);
        Blocks {
            hash,
            inner: mask_bytes(&key, 0x36),
            outer: mask_bytes(&key, 0x5c),
        }
    }

    pub(crate) fn algorithm(&self) -> Algorithm
        ensures { result ≡ algorithm_for self.now.hash }
    {
        self.hash.algorithm()
    }

    pub(crate) fn sign(&self, alloc: Global, message: &[u8]) -> Result<Vec<u8>>
        ensures ok { IfOk result (λ s. s.items
            ≡ mac_by self.now.hash self.now.inner self.now.outer message.now) }
        ensures err { IfErr result IsMemory }
    {
        Ok(match self.hash {
            Hash::Sha256 => {
                nested_256(&self.inner[..64], &self.outer[..64], message).to_vec(alloc)?
            }
            Hash::Sha384 => nested_384(&self.inner, &self.outer, message).to_vec(alloc)?,
            Hash::Sha512 => nested_512(&self.inner, &self.outer, message).to_vec(alloc)?,
        })
    }

    pub(crate) fn verify(&self, message: &[u8], signature: &[u8]) -> bool
        ensures { IsTrue result ↔ (signature.now
            ≡ mac_by self.now.hash self.now.inner self.now.outer message.now) }
    {
        match self.hash {
            Hash::Sha256 => is_same(
                nested_256(&self.inner[..64], &self.outer[..64], message).as_slice(),
                signature,
            ),
            Hash::Sha384 => is_same(
                nested_384(&self.inner, &self.outer, message).as_slice(),
                signature,
            ),
            Hash::Sha512 => is_same(
                nested_512(&self.inner, &self.outer, message).as_slice(),
                signature,
            ),
        }
    }
}

pub(crate) fn hash_of_algorithm(algorithm: Algorithm) -> Option<Hash>
    ensures { result ≡ hash_for algorithm }
{
    match algorithm {
        Algorithm::HS256 => Some(Hash::Sha256),
        Algorithm::HS384 => Some(Hash::Sha384),
        Algorithm::HS512 => Some(Hash::Sha512),
        _ => None,
    }
}

// Returns the hash of an algorithm of HMAC, if the key is of its family.
pub(crate) fn hash_for_key(algorithm: Algorithm, family: AlgorithmFamily) -> Result<Hash>
    ensures hash { IfOk result (λ h. hash_for algorithm ≡ Some h) }
    ensures made { OnOk result (refusal (hash_for algorithm) family ≡ None) }
    ensures family { OnOk result (family ≡ AlgorithmFamily.Hmac) }
    ensures err { IfErr result (λ e. refusal (hash_for algorithm) family ≡ Some (kind_of e)) }
{
    let Some(hash) = hash_of_algorithm(algorithm) else {
        return Err(unsupported_algorithm());
    };
    if family != AlgorithmFamily::Hmac {
        return Err(new_error(ErrorKind::InvalidKeyFormat));
    }
    Ok(hash)
}

/// An HMAC signer. The secret is not kept.
#[derive(Drop)]
pub struct HmacSigner {
    blocks: Blocks,
}

impl JwtSigner for HmacSigner {
    ghost signs_by = { λ s. algorithm_for s.blocks.hash };

    ghost sign_refusal = { λ _ m. None };

    ghost signs = { λ s m b. b ≡ mac_by s.blocks.hash s.blocks.inner s.blocks.outer m };

    fn algorithm(&self) -> Algorithm {
        self.blocks.algorithm()
    }

    /// Returns the code of the message. The only refusal is `OutOfMemory`.
    fn sign(&self, alloc: Global, message: &[u8]) -> Result<Vec<u8>> {
        self.blocks.sign(alloc, message)
    }
}

/// An HMAC verifier. The secret is not kept.
#[derive(Drop)]
pub struct HmacVerifier {
    blocks: Blocks,
}

impl JwtVerifier for HmacVerifier {
    ghost verifies_by = { λ v. algorithm_for v.blocks.hash };

    ghost accepts = { λ v m s. s ≡ mac_by v.blocks.hash v.blocks.inner v.blocks.outer m };

    ghost is_sparing = { λ _. ⊤ };

    fn algorithm(&self) -> Algorithm {
        self.blocks.algorithm()
    }

    /// Returns whether these bytes are the code of the message. Never refuses.
    fn verify(&self, _alloc: Global, message: &[u8], signature: &[u8]) -> Result<bool>
        ensures ok { IsOk result }
        ensures verdict { IfOk result (λ yes. IsTrue yes
            ↔ ⟦<HmacVerifier as JwtVerifier>⟧.accepts self.now message.now signature.now) }
        ensures one_signature { HasOneSignature (⟦<HmacVerifier as JwtVerifier>⟧.accepts self.now) }

        // It accepts the code that the signer of the same algorithm and secret gives.
        ensures own_signatures { (key : SecretKey)
            → AreBlocksOf self.now.blocks.hash self.now.blocks.inner self.now.blocks.outer key.bytes
            → HmacSigns (⟦<HmacVerifier as JwtVerifier>⟧.verifies_by self.now) key message.now
            signature.now
            → IfOk result IsTrue }
    {
        Ok(self.blocks.verify(message, signature))
    }
}

/// The provider of HMAC: HS256, HS384 and HS512 (RFC 7518 section 3.2). Its digests are those of
/// SHA-2, and it reads no keys in DER.
#[derive(Debug, Clone, Copy)]
pub struct HmacProvider;

impl CryptoProvider for HmacProvider {
    type Signer = HmacSigner;

    type Verifier = HmacVerifier;

    ghost signer_refusal = { λ _. hmac_signer_refusal };

    ghost verifier_refusal = { λ _. hmac_verifier_refusal };

    ghost sign_refusal = { λ _ a k m. None };

    ghost signs = { λ _ a k m s. HmacSigns a k m s };

    ghost accepts = { λ _ a k m s. HmacAccepts a k m s };

    ghost is_sparing = { λ _. ⊤ };

    ghost key_answers = { λ _. hmac_answers };

    /// Returns an HMAC signer. An algorithm of another family is refused with
    /// `UnsupportedAlgorithm`, and then a key of another family with `InvalidKeyFormat`. Allocates
    /// no memory.
    fn signer_factory(
        &self,
        _alloc: Global,
        algorithm: &Algorithm,
        key: &EncodingKey,
    ) -> Result<HmacSigner>
        ensures made { OnOk result (hmac_signer_refusal algorithm.now key.now ≡ None) }
        ensures err { IfErr result (Refuses (hmac_signer_refusal algorithm.now key.now)) }
        ensures by { IfOk result (λ s. ⟦<HmacSigner as JwtSigner>⟧.signs_by s ≡ algorithm.now) }
        ensures signs { IfOk result (λ s. (m b : List ℕ) →
            ⟦<HmacSigner as JwtSigner>⟧.signs s m b ↔ HmacSigns algorithm.now key.now m b) }
        ensures sparing { IfErr result (λ e. kind_of e ≢ kind.OutOfMemory) }
        ensures blocks { IfOk result (λ s.
            AreBlocksOf s.blocks.hash s.blocks.inner s.blocks.outer key.now.bytes) }
    {
        let hash = hash_for_key(*algorithm, key.family())?;
        Ok(HmacSigner {
            blocks: Blocks::new(hash, key.as_bytes()),
        })
    }

    /// Returns an HMAC verifier. An algorithm of another family is refused with
    /// `UnsupportedAlgorithm`, and then a key of another family with `InvalidKeyFormat`. Allocates
    /// no memory.
    fn verifier_factory(
        &self,
        _alloc: Global,
        algorithm: &Algorithm,
        key: &DecodingKey,
    ) -> Result<HmacVerifier>
        ensures made { OnOk result (hmac_verifier_refusal algorithm.now key.now ≡ None) }
        ensures err { IfErr result (Refuses (hmac_verifier_refusal algorithm.now key.now)) }
        ensures by { IfOk result (λ v. ⟦<HmacVerifier as JwtVerifier>⟧.verifies_by v
            ≡ algorithm.now) }
        ensures accepts { IfOk result (λ v. (m s : List ℕ) →
            ⟦<HmacVerifier as JwtVerifier>⟧.accepts v m s ↔ HmacAccepts algorithm.now key.now m s) }
        ensures sparing { IfErr result (λ e. kind_of e ≢ kind.OutOfMemory) }
        ensures one_signature { HasOneSignature (HmacAccepts algorithm.now key.now) }
        ensures own_signatures { AcceptsItsOwn algorithm.now }
        ensures blocks { IfOk result (λ v.
            AreBlocksOfKey v.blocks.hash v.blocks.inner v.blocks.outer key.now) }
    {
        let hash = hash_for_key(*algorithm, key.family())?;
        let secret = key.try_get_as_bytes()?;
        Ok(HmacVerifier {
            blocks: Blocks::new(hash, secret),
        })
    }

    fn rsa_pub_components_from_private_key(
        &self,
        _alloc: Global,
        _der: &[u8],
    ) -> Result<(Vec<u8>, Vec<u8>)> {
        Err(unsupported_algorithm())
    }

    fn rsa_pub_components_from_public_key(
        &self,
        _alloc: Global,
        _der: &[u8],
    ) -> Result<(Vec<u8>, Vec<u8>)> {
        Err(unsupported_algorithm())
    }

    fn ec_pub_components_from_private_key(
        &self,
        _alloc: Global,
        _der: &[u8],
        _algorithm: Algorithm,
    ) -> Result<(EllipticCurve, Vec<u8>, Vec<u8>)> {
        Err(unsupported_algorithm())
    }

    fn ed_pub_components_from_private_key(
        &self,
        _alloc: Global,
        _der: &[u8],
        _curve: &EllipticCurve,
    ) -> Result<Vec<u8>> {
        Err(unsupported_algorithm())
    }

    /// Returns the digest by SHA-2. The only refusal is `OutOfMemory`.
    fn compute_digest(&self, alloc: Global, bytes: &[u8], hash: ThumbprintHash) -> Result<Vec<u8>> {
        hash_of_thumbprint(hash).digest(alloc, bytes)
    }

    ghost same_family = { λ _ a k h. family_made a (key_family k) h };
}

// Returns the secret, or its digest if it is longer than a block, filled with zero bytes.
fn filled_key(hash: Hash, secret: &[u8]) -> [u8; 128]
    ensures key { result ≡ filled 128 (short_key hash secret.now) }
    ensures fits { length (short_key hash secret.now) ≤ block_len hash }
    ensures block_fits { block_len hash ≤ 128 }
{
    if secret.len() <= hash.block_len() {
        return fill(secret);
    }
    match hash {
        Hash::Sha256 => fill(Sha256::digest(secret).as_slice()),
        Hash::Sha384 => fill(Sha384::digest(secret).as_slice()),
        Hash::Sha512 => fill(Sha512::digest(secret).as_slice()),
    }
}

// Returns the bytes, filled with zero bytes.
fn fill(bytes: &[u8]) -> [u8; 128]
    requires { length bytes.now ≤ 128 }
    ensures { result ≡ filled 128 bytes.now }
{
    let mut key = [0u8; 128];
    key[..bytes.len()].copy_from_slice(bytes);
    key
}

// Returns each byte xor the mask.
fn mask_bytes(bytes: &[u8; 128], mask: u8) -> [u8; 128]
    ensures { result ≡ masked mask bytes.now }
{
    let mut masked = *bytes;
    for byte in masked.iter_mut() {
        *byte ^= mask;
    }
    masked
}

fn nested_256(inner: &[u8], outer: &[u8], message: &[u8]) -> [u8; 32]
    ensures { result ≡ nested Hash.Sha256 inner.now outer.now message.now }
{
    nested_by::<32, Sha256>(inner, outer, message)
}

// Computes the two hashes of the formula, each fed with a block and then with the rest.
fn nested_by<const N: usize, D: Digest<Output = [u8; N]>>(
    inner: &[u8],
    outer: &[u8],
    message: &[u8],
) -> [u8; N]
    ensures { (i : List ℕ) × D.digest_of (inner.now ++ message.now) i
        × D.digest_of (outer.now ++ i) result }
{
    let mut first = D::new();
    first.update(inner);
    first.update(message);
    let middle = first.finalize();
    let mut second = D::new();
    second.update(outer);
    second.update(middle.as_slice());
    second.finalize()
}

fn nested_384(inner: &[u8], outer: &[u8], message: &[u8]) -> [u8; 48]
    ensures { result ≡ nested Hash.Sha384 inner.now outer.now message.now }
{
    nested_by::<48, Sha384>(inner, outer, message)
}

fn nested_512(inner: &[u8], outer: &[u8], message: &[u8]) -> [u8; 64]
    ensures { result ≡ nested Hash.Sha512 inner.now outer.now message.now }
{
    nested_by::<64, Sha512>(inner, outer, message)
}

fn hash_of_thumbprint(hash: ThumbprintHash) -> Hash
    ensures { result ≡ hash_named hash }
{
    match hash {
        ThumbprintHash::SHA256 => Hash::Sha256,
        ThumbprintHash::SHA384 => Hash::Sha384,
        ThumbprintHash::SHA512 => Hash::Sha512,
    }
}
