//! A provider of one signature, which was made elsewhere: of one message, by one algorithm.

// It makes no verifier, since a signature that is accepted because it was given would be no
// verification. The length is tested if the algorithm fixes one: the commonest mistake, DER instead
// of the two numbers, gives a token that nobody can verify. That of RSA is the modulus', which the
// issuer does not have here; an empty signature, as a signer that failed may leave, is refused all
// the same.

ghost use Rattle.std.specs.Prelude.{◌≡◌, ◌≢◌, ⊤, ℕ, List, [], Err, None, Some, IsTrue, IfOk, IfErr};
ghost use Rattle.std.specs.Prelude.{OnOk, ◌↔◌};
ghost use Rattle.jwt_base.specs.Algorithm.{family_of};
ghost use Rattle.jwt_base.specs.Kind as kind;
ghost use Rattle.jwt_base.specs.KindOf.{kind_of, IsMemory, Refuses};
ghost use Rattle.jwt_keys.specs.Provider.{reads_no_key};
ghost use Rattle.jwt_crypto.specs.GivenSignature.{GivenSignature, IsGiven, HasLength, AreAsMany};
ghost use Rattle.jwt_crypto.specs.GivenSignature.{another_message, are_as_many, length_text};
ghost use Rattle.jwt_crypto.specs.GivenSignature.{signature_length, signer_refusal_by};
ghost use Rattle.jwt_crypto.specs.GivenSignature.{sign_refusal_by};
ghost use Rattle.jwt_crypto.specs.law_proofs.SignatureMade.{never_made};

use jwt_base::algorithms::{Algorithm, AlgorithmFamily};
use jwt_base::errors::{ErrorKind, Result, new_error, unsupported_algorithm};
use jwt_keys::decoding_key::DecodingKey;
use jwt_keys::encoding_key::EncodingKey;
use jwt_keys::provider::{CryptoProvider, JwtSigner, JwtVerifier};
use jwt_params::curves::EllipticCurve;
use jwt_params::thumbprints::ThumbprintHash;
use std::alloc::Global;
use std::marker::Model;

/// A signature of one message that was made elsewhere, by one algorithm: with a key that is kept in
/// a KMS, an HSM or an agent. It borrows both and copies nothing.
///
/// As a provider it makes a signer by that algorithm and a key of its family. Another algorithm is
/// refused with `InvalidAlgorithm`, then a key of another family with `InvalidKeyFormat`. The
/// signer returns a copy of the signature for that message. It refuses any other message with
/// `Signing("another message")`, and then a signature that does not have the algorithm's length
/// with `Signing` and a string that says which it is: 32, 48 or 64 bytes for HS256, HS384 or HS512
/// (RFC 7518 section 3.2), 64 or 96 for ES256 or ES384 (RFC 7518 section 3.4) and 64 for EdDSA with
/// Ed25519 (RFC 8037 section 3.1). With RSA the length is that of the key's modulus (RFC 8017
/// sections 8.1.1 and 8.2.1), which is not known here, so that an empty signature alone is refused.
/// Whether the signature is the message's is left to those who verify it.
///
/// It verifies nothing, reads no keys and computes no digests: such calls are refused with
/// `UnsupportedAlgorithm`. Its factories allocate no memory.
#[derive(Debug, Drop)]
pub struct SignatureProvider<'a> {
    algorithm: Algorithm,
    message: &'a [u8],
    signature: &'a [u8],
}

impl<'a> Model for SignatureProvider<'a> {
    ghost Value = { GivenSignature };

    ghost view = { λ p. record {
      algorithm = p.algorithm;
      message = p.message.now;
      signature = p.signature.now;
    } };
}

impl<'a> SignatureProvider<'a> {
    /// Returns the provider of this signature. `signature` has the signature's bytes (not its
    /// base64url text): for ES256 and ES384 r and s as numbers of fixed length, for RSA and EdDSA
    /// what the cryptography elsewhere gives.
    pub fn new(
        algorithm: Algorithm,
        message: &'a [u8],
        signature: &'a [u8],
    ) -> SignatureProvider<'a>
        ensures { result ≡ record {
          algorithm = algorithm;
          message = message.now;
          signature = signature.now;
        } }
    {
        SignatureProvider {
            algorithm,
            message,
            signature,
        }
    }

    /// Returns a key of the algorithm's family, which holds no bytes: the key that counts is the
    /// one that the signature was made with. The only refusal is `OutOfMemory`.
    pub fn key(&self, alloc: Global) -> Result<EncodingKey>
        ensures ok { IfOk result (λ k. k ≡ record {
          family = family_of self.now.algorithm;
          bytes = [];
        }) }
        ensures err { IfErr result IsMemory }
    {
        match self.algorithm.family() {
            AlgorithmFamily::Hmac => EncodingKey::from_secret(alloc, &[]),
            AlgorithmFamily::Rsa => EncodingKey::from_rsa_der(alloc, &[]),
            AlgorithmFamily::Ec => EncodingKey::from_ec_der(alloc, &[]),
            AlgorithmFamily::Ed => EncodingKey::from_ed_der(alloc, &[]),
        }
    }

    // Returns the same signature.
    fn again(&self) -> SignatureProvider<'a>
        ensures { result ≡ self.now }
    {
        SignatureProvider {
            algorithm: self.algorithm,
            message: self.message,
            signature: self.signature,
        }
    }

    fn has_length(&self) -> bool
        ensures { result ≡ are_as_many (signature_length self.now.algorithm) self.now.signature }
    {
        match length_of(self.algorithm) {
            Some(length) => self.signature.len() == length,
            None => !self.signature.is_empty(),
        }
    }

    fn sign(&self, alloc: Global, message: &[u8]) -> Result<Vec<u8>>
        ensures signed { IfOk result (λ s. IsGiven self.now message.now s.items) }
        ensures ok { OnOk result (sign_refusal_by self.now message.now ≡ None) }
        ensures err { IfErr result (Refuses (sign_refusal_by self.now message.now)) }
    {
        if message != self.message {
            let reason = String::from_str(alloc, "another message")?;
            return Err(new_error(ErrorKind::Signing(reason)));
        }
        if !self.has_length() {
            let reason = String::from_str(alloc, length_message(self.algorithm))?;
            return Err(new_error(ErrorKind::Signing(reason)));
        }
        Ok(self.signature.to_vec(alloc)?)
    }
}

/// A signer that returns a copy of the given signature for the message that it is of.
#[derive(Drop)]
pub struct GivenSigner<'a> {
    given: SignatureProvider<'a>,
}

impl JwtSigner for GivenSigner<'_> {
    ghost signs_by = { λ s. s.given.algorithm };

    ghost sign_refusal = { λ s m. sign_refusal_by s.given m };

    ghost signs = { λ s m b. IsGiven s.given m b };

    fn algorithm(&self) -> Algorithm {
        self.given.algorithm
    }

    /// Returns a copy of the given signature. Another message is refused with `Signing("another
    /// message")`, and then a signature that does not have the algorithm's length with `Signing`.
    fn sign(&self, alloc: Global, message: &[u8]) -> Result<Vec<u8>> {
        self.given.sign(alloc, message)
    }
}

/// A verifier that accepts nothing. No provider makes one.
#[derive(Drop)]
pub struct NoVerifier {
    algorithm: Algorithm,
}

impl JwtVerifier for NoVerifier {
    ghost verifies_by = { λ v. v.algorithm };

    ghost accepts = { λ _ m s. ⊥ };

    ghost is_sparing = { λ _. ⊤ };

    fn algorithm(&self) -> Algorithm {
        self.algorithm
    }

    /// Returns false.
    fn verify(&self, _alloc: Global, _message: &[u8], _signature: &[u8]) -> Result<bool> {
        Ok(false)
    }
}

impl<'a> CryptoProvider for SignatureProvider<'a> {
    type Signer = GivenSigner<'a>;

    type Verifier = NoVerifier;

    ghost signer_refusal = { λ p a k. signer_refusal_by p a k };

    ghost verifier_refusal = { λ _ a k. Some kind.UnsupportedAlgorithm };

    ghost sign_refusal = { λ p a k m. sign_refusal_by p m };

    ghost signs = { λ p a k m s. IsGiven p m s };

    // No verifier is made. One that were would accept the given signature of its message alone.
    ghost accepts = { λ p a k m s. IsGiven p m s };

    ghost is_sparing = { λ _. ⊤ };

    ghost key_answers = { λ _. reads_no_key kind.UnsupportedAlgorithm
        (λ h bytes. Err kind.UnsupportedAlgorithm) };

    /// Returns a signer by the signature's algorithm. Another algorithm is refused with
    /// `InvalidAlgorithm`, then a key of another family with `InvalidKeyFormat`. Allocates no
    /// memory.
    fn signer_factory(
        &self,
        _alloc: Global,
        algorithm: &Algorithm,
        key: &EncodingKey,
    ) -> Result<GivenSigner<'a>> {
        if self.algorithm != *algorithm {
            return Err(new_error(ErrorKind::InvalidAlgorithm));
        }
        if key.family() != algorithm.family() {
            return Err(new_error(ErrorKind::InvalidKeyFormat));
        }
        Ok(GivenSigner {
            given: self.again(),
        })
    }

    fn verifier_factory(
        &self,
        _alloc: Global,
        _algorithm: &Algorithm,
        _key: &DecodingKey,
    ) -> Result<NoVerifier> {
        Err(unsupported_algorithm())
    }

    fn rsa_pub_components_from_private_key(
        &self,
        _alloc: Global,
        _der: &[u8],
    ) -> Result<(Vec<u8>, Vec<u8>)> {
        Err(unsupported_algorithm())
    }

    fn rsa_pub_components_from_public_key(
        &self,
        _alloc: Global,
        _der: &[u8],
    ) -> Result<(Vec<u8>, Vec<u8>)> {
        Err(unsupported_algorithm())
    }

    fn ec_pub_components_from_private_key(
        &self,
        _alloc: Global,
        _der: &[u8],
        _algorithm: Algorithm,
    ) -> Result<(EllipticCurve, Vec<u8>, Vec<u8>)> {
        Err(unsupported_algorithm())
    }

    fn ed_pub_components_from_private_key(
        &self,
        _alloc: Global,
        _der: &[u8],
        _curve: &EllipticCurve,
    ) -> Result<Vec<u8>> {
        Err(unsupported_algorithm())
    }

    fn compute_digest(
        &self,
        _alloc: Global,
        _bytes: &[u8],
        _hash: ThumbprintHash,
    ) -> Result<Vec<u8>> {
        Err(unsupported_algorithm())
    }

    ghost same_family = { λ p a k h. never_made h };
}

// Returns how many bytes a signature by the algorithm has, unless the key decides it.
fn length_of(algorithm: Algorithm) -> Option<usize>
    ensures { result ≡ signature_length algorithm }
{
    match algorithm {
        Algorithm::HS256 => Some(32),
        Algorithm::HS384 => Some(48),
        Algorithm::HS512 | Algorithm::ES256 | Algorithm::EdDSA => Some(64),
        Algorithm::ES384 => Some(96),
        _ => None,
    }
}

// Returns the string of the refusal of a signature of another length.
fn length_message(algorithm: Algorithm) -> &'static str
    ensures { result.now ≡ length_text algorithm }
{
    match algorithm {
        Algorithm::HS256 => "a signature by HS256 has 32 bytes",
        Algorithm::HS384 => "a signature by HS384 has 48 bytes",
        Algorithm::HS512 => "a signature by HS512 has 64 bytes",
        Algorithm::ES256 => "a signature by ES256 has 64 bytes: r and s, and no DER",
        Algorithm::ES384 => "a signature by ES384 has 96 bytes: r and s, and no DER",
        Algorithm::EdDSA => "a signature by EdDSA has 64 bytes",
        _ => "a signature by RSA has as many bytes as the modulus",
    }
}
