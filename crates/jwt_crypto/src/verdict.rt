//! A provider of one verdict: yes or no to one signature of one message, by one algorithm.

// It borrows message and signature, so that neither it nor its verifiers allocate.

ghost use Rattle.std.specs.Prelude.{◌≡◌, ◌↔◌, ⊤, ℕ, List, [], Err, None, Some, IsTrue, IfOk, IfErr};
ghost use Rattle.jwt_base.specs.Algorithm.{family_of};
ghost use Rattle.jwt_base.specs.Kind as kind;
ghost use Rattle.jwt_base.specs.KindOf.{kind_of, IsMemory};
ghost use Rattle.jwt_keys.specs.Key.{Plain};
ghost use Rattle.jwt_keys.specs.Provider.{reads_no_key};
ghost use Rattle.jwt_crypto.specs.Verdict.{Verdict, IsVerified, refusal_by};
ghost use Rattle.jwt_crypto.specs.law_proofs.VerdictMade.{is_made};

use jwt_base::algorithms::{Algorithm, AlgorithmFamily};
use jwt_base::errors::{ErrorKind, Result, new_error, unsupported_algorithm};
use jwt_keys::decoding_key::DecodingKey;
use jwt_keys::encoding_key::EncodingKey;
use jwt_keys::provider::{CryptoProvider, JwtSigner, JwtVerifier};
use jwt_params::curves::EllipticCurve;
use jwt_params::thumbprints::ThumbprintHash;
use std::alloc::Global;
use std::marker::Model;

/// The caller's yes or no to one signature of one message, by one algorithm. It borrows both and
/// copies nothing.
///
/// As a provider it makes a verifier by that algorithm and a key of its family, which says yes to
/// that signature of that message if the verdict is yes, and no to everything else. Another
/// algorithm is refused with `InvalidAlgorithm`, then a key of another family with
/// `InvalidKeyFormat`. It signs nothing, reads no keys and computes no digests: such calls are
/// refused with `UnsupportedAlgorithm`. It allocates no memory.
#[derive(Debug, Drop)]
pub struct VerdictProvider<'a> {
    algorithm: Algorithm,
    message: &'a [u8],
    signature: &'a [u8],
    verdict: bool,
}

impl<'a> Model for VerdictProvider<'a> {
    ghost Value = { Verdict };

    ghost view = { λ p. record {
      algorithm = p.algorithm;
      message = p.message.now;
      signature = p.signature.now;
      says_yes = p.verdict;
    } };
}

impl<'a> VerdictProvider<'a> {
    /// Returns the provider of this verdict. `verdict` is the result of checking the signature's
    /// bytes (not its base64url text) of the message elsewhere, by the algorithm and with the key
    /// that the caller trusts.
    pub fn new(
        algorithm: Algorithm,
        message: &'a [u8],
        signature: &'a [u8],
        verdict: bool,
    ) -> VerdictProvider<'a>
        ensures { result ≡ record {
          algorithm = algorithm;
          message = message.now;
          signature = signature.now;
          says_yes = verdict;
        } }
    {
        VerdictProvider {
            algorithm,
            message,
            signature,
            verdict,
        }
    }

    /// Returns a key of the algorithm's family, which holds no bytes: the key that counts is the
    /// one that the caller checked the signature with. The only refusal is `OutOfMemory`.
    pub fn key(&self, alloc: Global) -> Result<DecodingKey>
        ensures ok { IfOk result (λ k. k ≡ Plain (family_of self.now.algorithm) []) }
        ensures err { IfErr result IsMemory }
    {
        match self.algorithm.family() {
            AlgorithmFamily::Hmac => DecodingKey::from_secret(alloc, &[]),
            AlgorithmFamily::Rsa => DecodingKey::from_rsa_der(alloc, &[]),
            AlgorithmFamily::Ec => DecodingKey::from_ec_der(alloc, &[]),
            AlgorithmFamily::Ed => DecodingKey::from_ed_der(alloc, &[]),
        }
    }

    // Returns the same verdict.
    fn again(&self) -> VerdictProvider<'a>
        ensures { result ≡ self.now }
    {
        VerdictProvider {
            algorithm: self.algorithm,
            message: self.message,
            signature: self.signature,
            verdict: self.verdict,
        }
    }

    fn says_yes(&self, message: &[u8], signature: &[u8]) -> bool
        ensures { IsTrue result ↔ IsVerified self.now message.now signature.now }
    {
        self.verdict && message == self.message && signature == self.signature
    }
}

/// A verifier that says yes to the verdict's signature of the verdict's message, if the verdict is
/// yes.
#[derive(Drop)]
pub struct VerdictVerifier<'a> {
    verdict: VerdictProvider<'a>,
}

impl JwtVerifier for VerdictVerifier<'_> {
    ghost verifies_by = { λ v. v.verdict.algorithm };

    ghost accepts = { λ v m s. IsVerified v.verdict m s };

    ghost is_sparing = { λ _. ⊤ };

    fn algorithm(&self) -> Algorithm {
        self.verdict.algorithm
    }

    /// Returns whether these are the verdict's message and signature, and the verdict is yes. Never
    /// refuses.
    fn verify(&self, _alloc: Global, message: &[u8], signature: &[u8]) -> Result<bool> {
        Ok(self.verdict.says_yes(message, signature))
    }
}

/// A signer that signs nothing. No provider makes one.
#[derive(Drop)]
pub struct NoSigner {
    algorithm: Algorithm,
}

impl JwtSigner for NoSigner {
    ghost signs_by = { λ s. s.algorithm };

    ghost sign_refusal = { λ _ m. Some kind.UnsupportedAlgorithm };

    ghost signs = { λ _ m s. ⊥ };

    fn algorithm(&self) -> Algorithm {
        self.algorithm
    }

    fn sign(&self, _alloc: Global, _message: &[u8]) -> Result<Vec<u8>> {
        Err(unsupported_algorithm())
    }
}

impl<'a> CryptoProvider for VerdictProvider<'a> {
    type Signer = NoSigner;

    type Verifier = VerdictVerifier<'a>;

    ghost signer_refusal = { λ _ a k. Some kind.UnsupportedAlgorithm };

    ghost verifier_refusal = { λ p a k. refusal_by p a k };

    ghost sign_refusal = { λ _ a k m. None };

    ghost signs = { λ _ a k m s. ⊥ };

    ghost accepts = { λ p a k m s. IsVerified p m s };

    ghost is_sparing = { λ _. ⊤ };

    ghost key_answers = { λ _. reads_no_key kind.UnsupportedAlgorithm
        (λ h bytes. Err kind.UnsupportedAlgorithm) };

    fn signer_factory(
        &self,
        _alloc: Global,
        _algorithm: &Algorithm,
        _key: &EncodingKey,
    ) -> Result<NoSigner> {
        Err(unsupported_algorithm())
    }

    /// Returns a verifier by the verdict's algorithm. Another algorithm is refused with
    /// `InvalidAlgorithm`, then a key of another family with `InvalidKeyFormat`. Allocates no
    /// memory.
    fn verifier_factory(
        &self,
        _alloc: Global,
        algorithm: &Algorithm,
        key: &DecodingKey,
    ) -> Result<VerdictVerifier<'a>> {
        if self.algorithm != *algorithm {
            return Err(new_error(ErrorKind::InvalidAlgorithm));
        }
        if key.family() != algorithm.family() {
            return Err(new_error(ErrorKind::InvalidKeyFormat));
        }
        Ok(VerdictVerifier {
            verdict: self.again(),
        })
    }

    fn rsa_pub_components_from_private_key(
        &self,
        _alloc: Global,
        _der: &[u8],
    ) -> Result<(Vec<u8>, Vec<u8>)> {
        Err(unsupported_algorithm())
    }

    fn rsa_pub_components_from_public_key(
        &self,
        _alloc: Global,
        _der: &[u8],
    ) -> Result<(Vec<u8>, Vec<u8>)> {
        Err(unsupported_algorithm())
    }

    fn ec_pub_components_from_private_key(
        &self,
        _alloc: Global,
        _der: &[u8],
        _algorithm: Algorithm,
    ) -> Result<(EllipticCurve, Vec<u8>, Vec<u8>)> {
        Err(unsupported_algorithm())
    }

    fn ed_pub_components_from_private_key(
        &self,
        _alloc: Global,
        _der: &[u8],
        _curve: &EllipticCurve,
    ) -> Result<Vec<u8>> {
        Err(unsupported_algorithm())
    }

    fn compute_digest(
        &self,
        _alloc: Global,
        _bytes: &[u8],
        _hash: ThumbprintHash,
    ) -> Result<Vec<u8>> {
        Err(unsupported_algorithm())
    }

    ghost same_family = { λ p a k h. (is_made p a k h).family };
}
