//! Signing keys.

ghost use Rattle.std.specs.Prelude.{◌≡◌, ℕ, List, IfOk, IfErr, length, replicate};
ghost use Rattle.jwt_base.specs.Kind as kind;
ghost use Rattle.jwt_base.specs.KindOf.{IsMemory, RefusesAs};
ghost use Rattle.jwt_base.specs.Base64Url.{IsStandardText, IsUrlText};
ghost use Rattle.jwt_base.specs.declared.algorithms.AlgorithmFamily.TheVariants as family;

use jwt_base::algorithms::AlgorithmFamily;
use jwt_base::errors::Result;
use jwt_base::serialization::{standard_bytes, url_bytes};
use std::alloc::Global;
use std::fmt;
use std::marker::Model;

/// A signing key: a family of algorithms, with a secret or with the bytes of a private key in DER.
/// A contract sees the family and the list of bytes.
#[derive(Drop)]
pub struct EncodingKey {
    family: AlgorithmFamily,
    bytes: Vec<u8>,
}

impl Model for EncodingKey {
    ghost use Rattle.jwt_keys.specs.Key.{SecretKey};

    ghost Value = { SecretKey };

    ghost view = { λ k. record { family = k.family; bytes = k.bytes.items } };
}

impl EncodingKey {
    /// Returns the HMAC key of these bytes. The only refusal is `OutOfMemory`.
    pub fn from_secret(alloc: Global, secret: &[u8]) -> Result<EncodingKey>
        ensures ok { IfOk result (λ k. k ≡ record { family = family.Hmac; bytes = secret.now }) }
        ensures err { IfErr result IsMemory }
    {
        EncodingKey::new(alloc, AlgorithmFamily::Hmac, secret)
    }

    /// Returns the HMAC key of the bytes that base64 text in the standard alphabet with padding
    /// stands for (RFC 4648 section 4). Any other text is refused with `Base64`.
    pub fn from_base64_secret(alloc: Global, secret: &str) -> Result<EncodingKey>
        ensures ok { IfOk result (λ k. (k.family ≡ family.Hmac)
            × IsStandardText secret.now k.bytes) }
        ensures err { IfErr result (RefusesAs kind.Base64
            ((b : List ℕ) → ¬ IsStandardText secret.now b)) }
    {
        Ok(EncodingKey {
            family: AlgorithmFamily::Hmac,
            bytes: standard_bytes(alloc, secret.as_bytes())?,
        })
    }

    /// Returns the HMAC key of the bytes that base64 text in the URL alphabet with padding stands
    /// for (RFC 4648 section 5). Any other text is refused with `Base64`.
    pub fn from_urlsafe_base64_secret(alloc: Global, secret: &str) -> Result<EncodingKey>
        ensures ok { IfOk result (λ k. (k.family ≡ family.Hmac) × IsUrlText secret.now k.bytes) }
        ensures err { IfErr result (RefusesAs kind.Base64
            ((b : List ℕ) → ¬ IsUrlText secret.now b)) }
    {
        Ok(EncodingKey {
            family: AlgorithmFamily::Hmac,
            bytes: url_bytes(alloc, secret.as_bytes())?,
        })
    }

    /// Returns the RSA key of these bytes in DER, which are not parsed. The only refusal is
    /// `OutOfMemory`.
    pub fn from_rsa_der(alloc: Global, der: &[u8]) -> Result<EncodingKey>
        ensures ok { IfOk result (λ k. k ≡ record { family = family.Rsa; bytes = der.now }) }
        ensures err { IfErr result IsMemory }
    {
        EncodingKey::new(alloc, AlgorithmFamily::Rsa, der)
    }

    /// Returns the elliptic curve key of these bytes in DER, which are not parsed. The only refusal
    /// is `OutOfMemory`.
    pub fn from_ec_der(alloc: Global, der: &[u8]) -> Result<EncodingKey>
        ensures ok { IfOk result (λ k. k ≡ record { family = family.Ec; bytes = der.now }) }
        ensures err { IfErr result IsMemory }
    {
        EncodingKey::new(alloc, AlgorithmFamily::Ec, der)
    }

    /// Returns the Edwards curve key of these bytes in DER, which are not parsed. The only refusal
    /// is `OutOfMemory`.
    pub fn from_ed_der(alloc: Global, der: &[u8]) -> Result<EncodingKey>
        ensures ok { IfOk result (λ k. k ≡ record { family = family.Ed; bytes = der.now }) }
        ensures err { IfErr result IsMemory }
    {
        EncodingKey::new(alloc, AlgorithmFamily::Ed, der)
    }

    /// Returns the family of the algorithms that the key is for.
    pub fn family(&self) -> AlgorithmFamily
        ensures { result ≡ self.now.family }
    {
        self.family
    }

    /// Returns the secret, or the bytes in DER.
    pub fn as_bytes(&self) -> &[u8]
        ensures { result.now ≡ self.now.bytes }
    {
        self.bytes.as_slice()
    }

    /// Sets every byte to 0. The number of bytes and the family stay.
    pub fn zeroize(&mut self)
        ensures { self.new ≡ record self.old { bytes = replicate (length self.old.bytes) 0 } }
    {
        self.bytes.fill(0);
    }

    /// Returns a copy. The only refusal is `OutOfMemory`.
    pub fn clone(&self, alloc: Global) -> Result<EncodingKey>
        ensures ok { IfOk result (λ k. k ≡ self.now) }
        ensures err { IfErr result IsMemory }
    {
        EncodingKey::new(alloc, self.family, self.as_bytes())
    }

    fn new(alloc: Global, family: AlgorithmFamily, bytes: &[u8]) -> Result<EncodingKey>
        ensures ok { IfOk result (λ k. k ≡ record { family = family; bytes = bytes.now }) }
        ensures err { IfErr result IsMemory }
    {
        Ok(EncodingKey {
            family,
            bytes: bytes.to_vec(alloc)?,
        })
    }
}

/// Shows the family, and `[redacted]` for the bytes.
impl fmt::Debug for EncodingKey {
    fn fmt<W: fmt::Write>(&self, f: &mut fmt::Formatter<W>) -> fmt::Result {
        f.debug_struct("EncodingKey")
            .field("family", &self.family)
            .field("content", &"[redacted]")
            .finish()
    }
}
