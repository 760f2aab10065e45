//! The traits of signers, verifiers and their providers, with the laws that every provider proves.

// Each provider writes the five calls that read keys and make digests itself, also if it refuses
// them all. A body in the trait is proved for every provider, whatever its `key_answers`, and a
// refusal is right only for those that refuse. A trait of its own for keys would make
// `Jwk::from_decoding_key` and `Jwk::thumbprint` take a second provider.

ghost use Rattle.std.specs.Prelude.{◌≡◌, ◌≢◌, ◌↔◌, ℕ, List, Option, Ok, Some, None, IfOk, IfErr};
ghost use Rattle.std.specs.Prelude.{OnOk, IsOk, IsTrue, string_bytes};
ghost use Rattle.jwt_base.specs.Kind.{Kind};
ghost use Rattle.jwt_base.specs.Kind as kind;
ghost use Rattle.jwt_base.specs.KindOf.{kind_of, IsMemory, Refuses};
ghost use Rattle.jwt_base.specs.Algorithm.{family_of};
ghost use Rattle.jwt_base.specs.Base64Url.{IsPart};
ghost use Rattle.jwt_base.specs.declared.algorithms.Algorithm.{Algorithm};
ghost use Rattle.jwt_keys.specs.Key.{Key, SecretKey, key_family};
ghost use Rattle.jwt_keys.specs.Provider.{KeyAnswers, first_refusal, RefusesWith, RefusesSignature};

use crate::decoding_key::DecodingKey;
use crate::encoding_key::EncodingKey;
use jwt_base::algorithms::Algorithm;
use jwt_base::errors::Result;
use jwt_base::serialization::{part_bytes, part_text};
use jwt_params::curves::EllipticCurve;
use jwt_params::thumbprints::ThumbprintHash;
use std::alloc::Global;

/// A signer of messages, by one algorithm and key.
pub trait JwtSigner: Drop {
    // The algorithm that it signs by.
    ghost signs_by: { Self → Algorithm };

    // The kind with which it refuses to sign a message, if it does.
    ghost sign_refusal: { Self → List ℕ → Option Kind };

    // It may return these bytes as the message's signature.
    ghost signs: { Self → List ℕ → List ℕ → Type 0 };

    /// Returns the algorithm that it signs by.
    fn algorithm(&self) -> Algorithm
        ensures { result ≡ signs_by self.now };

    /// Returns the bytes of a signature of the message. `OutOfMemory` aside, the signer and the
    /// message alone decide whether it is refused, and with which kind.
    fn sign(&self, alloc: Global, message: &[u8]) -> Result<Vec<u8>>
        ensures signed { IfOk result (λ s. signs self.now message.now s.items) }
        ensures ok { OnOk result (sign_refusal self.now message.now ≡ None) }
        ensures err { IfErr result (Refuses (sign_refusal self.now message.now)) };
}

/// A verifier of signatures, by one algorithm and key.
pub trait JwtVerifier: Drop {
    // The algorithm that it verifies by.
    ghost verifies_by: { Self → Algorithm };

    // It accepts this signature of the message.
    ghost accepts: { Self → List ℕ → List ℕ → Type 0 };

    // It allocates no memory.
    ghost is_sparing: { Self → Type 0 };

    /// Returns the algorithm that it verifies by.
    fn algorithm(&self) -> Algorithm
        ensures { result ≡ verifies_by self.now };

    /// Returns whether these bytes are accepted as a signature of the message. The verifier and the
    /// two arguments alone decide it. The only refusal is `OutOfMemory`.
    fn verify(&self, alloc: Global, message: &[u8], signature: &[u8]) -> Result<bool>
        ensures verdict { IfOk result (λ yes. IsTrue yes
            ↔ accepts self.now message.now signature.now) }
        ensures memory { IfErr result IsMemory }
        ensures sparing { is_sparing self.now → IsOk result };
}

/// A provider of cryptography: it makes signers and verifiers, and reads keys. Memory aside, the
/// provider and the arguments decide each result, except for the bytes that a signer returns: those
/// may be any that `signs` allows.
pub trait CryptoProvider {
    type Signer: JwtSigner;

    type Verifier: JwtVerifier;

    // The kind with which it refuses to make a signer or a verifier, if it does.
    ghost signer_refusal: { Self → Algorithm → SecretKey → Option Kind };

    ghost verifier_refusal: { Self → Algorithm → Key → Option Kind };

    // The kind with which its signer refuses a message, if it does.
    ghost sign_refusal: { Self → Algorithm → SecretKey → List ℕ → Option Kind };

    // Its signer may return these bytes as the message's signature.
    ghost signs: { Self → Algorithm → SecretKey → List ℕ → List ℕ → Type 0 };

    // Its verifier accepts this signature of the message.
    ghost accepts: { Self → Algorithm → Key → List ℕ → List ℕ → Type 0 };

    // Neither its factories nor its verifiers allocate memory.
    ghost is_sparing: { Self → Type 0 };

    // The results of reading keys in DER, and the digests that it computes.
    ghost key_answers: { Self → KeyAnswers };

    /// Returns a signer by this algorithm and key.
    fn signer_factory(
        &self,
        alloc: Global,
        algorithm: &Algorithm,
        key: &EncodingKey,
    ) -> Result<Self::Signer>
        ensures made { OnOk result (signer_refusal self.now algorithm.now key.now ≡ None) }
        ensures err { IfErr result (Refuses (signer_refusal self.now algorithm.now key.now)) }
        ensures by { IfOk result (λ s. Self.Signer.signs_by s ≡ algorithm.now) }
        ensures sign_refusal { IfOk result (λ s. (m : List ℕ) →
            Self.Signer.sign_refusal s m ≡ sign_refusal self.now algorithm.now key.now m) }
        ensures signs { IfOk result (λ s. (m b : List ℕ) →
            Self.Signer.signs s m b ↔ signs self.now algorithm.now key.now m b) }
        ensures sparing { is_sparing self.now → IfErr result (λ e. kind_of e ≢ kind.OutOfMemory) };

    /// Returns a verifier by this algorithm and key. It is made only for a key of the algorithm's
    /// family.
    fn verifier_factory(
        &self,
        alloc: Global,
        algorithm: &Algorithm,
        key: &DecodingKey,
    ) -> Result<Self::Verifier>
        ensures made { OnOk result (verifier_refusal self.now algorithm.now key.now ≡ None) }
        ensures err { IfErr result (Refuses (verifier_refusal self.now algorithm.now key.now)) }
        ensures by { IfOk result (λ v. Self.Verifier.verifies_by v ≡ algorithm.now) }
        ensures accepts { IfOk result (λ v. (m s : List ℕ) →
            Self.Verifier.accepts v m s ↔ accepts self.now algorithm.now key.now m s) }
        ensures sparing { is_sparing self.now → IfErr result (λ e. kind_of e ≢ kind.OutOfMemory) }
        ensures sparing_verifier { is_sparing self.now
            → IfOk result (λ v. Self.Verifier.is_sparing v) };

    /// Returns the modulus and the exponent of an RSA key, from a private key in DER.
    fn rsa_pub_components_from_private_key(
        &self,
        alloc: Global,
        der: &[u8],
    ) -> Result<(Vec<u8>, Vec<u8>)>
        ensures ok { IfOk result (λ p. (key_answers self.now).rsa_private der.now
            ≡ Ok (p.0.items, p.1.items)) }
        ensures err { IfErr result (RefusesWith ((key_answers self.now).rsa_private der.now)) };

    /// Returns the modulus and the exponent of an RSA key, from a public key in DER.
    fn rsa_pub_components_from_public_key(
        &self,
        alloc: Global,
        der: &[u8],
    ) -> Result<(Vec<u8>, Vec<u8>)>
        ensures ok { IfOk result (λ p. (key_answers self.now).rsa_public der.now
            ≡ Ok (p.0.items, p.1.items)) }
        ensures err { IfErr result (RefusesWith ((key_answers self.now).rsa_public der.now)) };

    /// Returns the curve and the two coordinates of an elliptic curve key, from a private key in
    /// DER for this algorithm.
    fn ec_pub_components_from_private_key(
        &self,
        alloc: Global,
        der: &[u8],
        algorithm: Algorithm,
    ) -> Result<(EllipticCurve, Vec<u8>, Vec<u8>)>
        ensures ok { IfOk result (λ p. (key_answers self.now).ec_private der.now algorithm
            ≡ Ok (p.0, p.1.items, p.2.items)) }
        ensures err { IfErr result (RefusesWith
            ((key_answers self.now).ec_private der.now algorithm)) };

    /// Returns the public key of an Edwards curve key, from a private key in DER on this curve.
    fn ed_pub_components_from_private_key(
        &self,
        alloc: Global,
        der: &[u8],
        curve: &EllipticCurve,
    ) -> Result<Vec<u8>>
        ensures ok { IfOk result (λ x. (key_answers self.now).ed_private der.now curve.now
            ≡ Ok x.items) }
        ensures err { IfErr result (RefusesWith
            ((key_answers self.now).ed_private der.now curve.now)) };

    /// Returns the digest of the bytes by this hash.
    fn compute_digest(&self, alloc: Global, bytes: &[u8], hash: ThumbprintHash) -> Result<Vec<u8>>
        ensures ok { IfOk result (λ d. (key_answers self.now).digest hash bytes.now ≡ Ok d.items) }
        ensures err { IfErr result (RefusesWith ((key_answers self.now).digest hash bytes.now)) };

    // A verifier is made only for a key of the algorithm's family.
    ghost same_family: { (p : Self) (a : Algorithm) (k : Key) → verifier_refusal p a k ≡ None
        → key_family k ≡ family_of a };
}

/// Signs the message, and returns the base64url text of the signature (RFC 7515 section 5.1).
/// `OutOfMemory` aside, every refusal is the provider's: first that of the signer, then that of the
/// signature.
pub fn sign<P: CryptoProvider>(
    alloc: Global,
    provider: &P,
    message: &[u8],
    key: &EncodingKey,
    algorithm: Algorithm,
) -> Result<String>
    ensures signed { IfOk result (λ t. (s : List ℕ)
        × (IsPart (string_bytes t) s × P.signs provider.now algorithm key.now message.now s)) }
    ensures ok { OnOk result (first_refusal (P.signer_refusal provider.now algorithm key.now)
        (P.sign_refusal provider.now algorithm key.now message.now) ≡ None) }
    ensures err { IfErr result (Refuses (first_refusal
        (P.signer_refusal provider.now algorithm key.now)
        (P.sign_refusal provider.now algorithm key.now message.now))) }
{
    let signer = provider.signer_factory(alloc, &algorithm, key)?;
    let signature = signer.sign(alloc, message)?;
    part_text(alloc, signature.as_slice())
}

/// Returns whether the provider accepts the signature, given as base64url text, of the message (RFC
/// 7515 section 5.2). `OutOfMemory` aside, the provider may refuse to make a verifier; after that,
/// text that is not canonical base64url is refused with `Base64`.
pub fn verify<P: CryptoProvider>(
    alloc: Global,
    provider: &P,
    signature: &str,
    message: &[u8],
    key: &DecodingKey,
    algorithm: Algorithm,
) -> Result<bool>
    ensures verdict { IfOk result (λ yes. (s : List ℕ) × (IsPart signature.now s
        × (IsTrue yes ↔ P.accepts provider.now algorithm key.now message.now s))) }
    ensures made { OnOk result (P.verifier_refusal provider.now algorithm key.now ≡ None) }
    ensures family { OnOk result (key_family key.now ≡ family_of algorithm) }
    ensures err { IfErr result (RefusesSignature
        (P.verifier_refusal provider.now algorithm key.now) signature.now) }
{
    let verifier = provider.verifier_factory(alloc, &algorithm, key)?;
    let bytes = part_bytes(alloc, signature.as_bytes())?;
    verifier.verify(alloc, message, bytes.as_slice())
}
