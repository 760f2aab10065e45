//! Verification keys.

ghost use Rattle.std.specs.Prelude.{◌≡◌, ◌∷◌, ◌++◌, ℕ, List, IfOk, IfErr};
ghost use Rattle.jwt_base.specs.Kind as kind;
ghost use Rattle.jwt_base.specs.KindOf.{kind_of, IsMemory, RefusesAs};
ghost use Rattle.jwt_base.specs.Base64Url.{IsStandardText, IsUrlText};
ghost use Rattle.jwt_base.specs.declared.algorithms.AlgorithmFamily.TheVariants as family;
ghost use Rattle.jwt_keys.specs.Key.{Key, Plain, Components, key_family, key_content, IsRsaOfParts};
ghost use Rattle.jwt_keys.specs.Key.{IsEcOfParts, IsEdOfPart, IsHmacOfPart, cleared};
ghost use Rattle.jwt_keys.specs.Key.{cleared_content};
ghost use Rattle.jwt_keys.specs.KeyOfJwk.{IsKeyOf, refusal_of};

use crate::jwk::Jwk;
use jwt_base::algorithms::AlgorithmFamily;
use jwt_base::errors::{ErrorKind, Result, new_error};
use jwt_base::serialization::{part_bytes, standard_bytes, url_bytes};
use jwt_params::parameters::AlgorithmParameters;
use std::alloc::Global;
use std::fmt;
use std::marker::Model;

/// The content of a verification key.
#[derive(Drop)]
pub enum DecodingKeyKind {
    /// A secret, or the bytes of a public key in DER.
    SecretOrDer(Vec<u8>),
    /// An RSA key's two numbers, big-endian.
    RsaModulusExponent {
        /// The modulus.
        n: Vec<u8>,
        /// The exponent.
        e: Vec<u8>,
    },
}

impl DecodingKeyKind {
    ghost use Rattle.jwt_keys.specs.KeyOf.{content_of};

    /// Sets every byte to 0. The numbers of bytes stay.
    pub fn zeroize(&mut self)
        ensures { content_of self.new ≡ cleared_content (content_of self.old) }
    {
        match self {
            DecodingKeyKind::SecretOrDer(bytes) => bytes.fill(0),
            DecodingKeyKind::RsaModulusExponent { n, e } => {
                n.fill(0);
                e.fill(0);
            }
        }
    }

    /// Returns a copy. The only refusal is `OutOfMemory`.
    pub fn clone(&self, alloc: Global) -> Result<DecodingKeyKind>
        ensures ok { IfOk result (λ k. content_of k ≡ content_of self.now) }
        ensures err { IfErr result IsMemory }
    {
        match self {
            DecodingKeyKind::SecretOrDer(bytes) => Ok(DecodingKeyKind::SecretOrDer(
                bytes.as_slice().to_vec(alloc)?,
            )),
            DecodingKeyKind::RsaModulusExponent { n, e } => Ok(
                DecodingKeyKind::RsaModulusExponent {
                    n: n.as_slice().to_vec(alloc)?,
                    e: e.as_slice().to_vec(alloc)?,
                },
            ),
        }
    }
}

/// Shows `[redacted]` for the bytes.
impl fmt::Debug for DecodingKeyKind {
    fn fmt<W: fmt::Write>(&self, f: &mut fmt::Formatter<W>) -> fmt::Result {
        match self {
            DecodingKeyKind::SecretOrDer(_) => {
                f.debug_tuple("SecretOrDer").field(&"[redacted]").finish()
            }
            DecodingKeyKind::RsaModulusExponent { .. } => f
                .debug_struct("RsaModulusExponent")
                .field("n", &"[redacted]")
                .field("e", &"[redacted]")
                .finish(),
        }
    }
}

/// A verification key: a family of algorithms, with a secret, with the bytes of a public key in
/// DER, or, in the family of RSA alone, with the key's two numbers. A contract sees the family and
/// the lists of bytes.
#[derive(Drop)]
pub struct DecodingKey {
    family: AlgorithmFamily,
    kind: DecodingKeyKind,
}

impl Model for DecodingKey {
    ghost use Rattle.jwt_keys.specs.Key.{Key};
    ghost use Rattle.jwt_keys.specs.KeyOf.{key_with, FitsFamily};

    ghost Value = { Key };

    ghost view = { λ k. key_with k.family k.kind };

    ghost invariant = { λ k. FitsFamily k.family k.kind };
}

impl DecodingKey {
    ghost use Rattle.jwt_keys.specs.KeyOf.{content_of};

    /// Returns the HMAC key of these bytes. The only refusal is `OutOfMemory`.
    pub fn from_secret(alloc: Global, secret: &[u8]) -> Result<DecodingKey>
        ensures ok { IfOk result (λ k. k ≡ Plain family.Hmac secret.now) }
        ensures err { IfErr result IsMemory }
    {
        DecodingKey::copy_bytes(alloc, AlgorithmFamily::Hmac, secret)
    }

    /// Returns the HMAC key of the bytes that base64 text in the standard alphabet with padding
    /// stands for (RFC 4648 section 4). Any other text is refused with `Base64`.
    pub fn from_base64_secret(alloc: Global, secret: &str) -> Result<DecodingKey>
        ensures ok { IfOk result (λ k. (b : List ℕ) × (k ≡ Plain family.Hmac b)
            × IsStandardText secret.now b) }
        ensures err { IfErr result (RefusesAs kind.Base64
            ((b : List ℕ) → ¬ IsStandardText secret.now b)) }
    {
        let bytes = standard_bytes(alloc, secret.as_bytes())?;
        Ok(DecodingKey::plain(AlgorithmFamily::Hmac, bytes))
    }

    /// Returns the HMAC key of the bytes that base64 text in the URL alphabet with padding stands
    /// for (RFC 4648 section 5). Any other text is refused with `Base64`.
    pub fn from_urlsafe_base64_secret(alloc: Global, secret: &str) -> Result<DecodingKey>
        ensures ok { IfOk result (λ k. (b : List ℕ) × (k ≡ Plain family.Hmac b)
            × IsUrlText secret.now b) }
        ensures err { IfErr result (RefusesAs kind.Base64
            ((b : List ℕ) → ¬ IsUrlText secret.now b)) }
    {
        let bytes = url_bytes(alloc, secret.as_bytes())?;
        Ok(DecodingKey::plain(AlgorithmFamily::Hmac, bytes))
    }

    /// Returns the RSA key of these bytes in DER, which are not parsed. The only refusal is
    /// `OutOfMemory`.
    pub fn from_rsa_der(alloc: Global, der: &[u8]) -> Result<DecodingKey>
        ensures ok { IfOk result (λ k. k ≡ Plain family.Rsa der.now) }
        ensures err { IfErr result IsMemory }
    {
        DecodingKey::copy_bytes(alloc, AlgorithmFamily::Rsa, der)
    }

    /// Returns the elliptic curve key of these bytes in DER, which are not parsed. The only refusal
    /// is `OutOfMemory`.
    pub fn from_ec_der(alloc: Global, der: &[u8]) -> Result<DecodingKey>
        ensures ok { IfOk result (λ k. k ≡ Plain family.Ec der.now) }
        ensures err { IfErr result IsMemory }
    {
        DecodingKey::copy_bytes(alloc, AlgorithmFamily::Ec, der)
    }

    /// Returns the Edwards curve key of these bytes in DER, which are not parsed. The only refusal
    /// is `OutOfMemory`.
    pub fn from_ed_der(alloc: Global, der: &[u8]) -> Result<DecodingKey>
        ensures ok { IfOk result (λ k. k ≡ Plain family.Ed der.now) }
        ensures err { IfErr result IsMemory }
    {
        DecodingKey::copy_bytes(alloc, AlgorithmFamily::Ed, der)
    }

    /// Returns the RSA key of a modulus and an exponent, each the base64url text of a big-endian
    /// number (RFC 7518 section 6.3.1). If one of them is not such a text, the refusal is `Base64`.
    pub fn from_rsa_components(alloc: Global, modulus: &str, exponent: &str) -> Result<DecodingKey>
        ensures ok { IfOk result (IsRsaOfParts modulus.now exponent.now) }
        ensures err { IfErr result (RefusesAs kind.Base64
            ((k : Key) → ¬ IsRsaOfParts modulus.now exponent.now k)) }
    {
        let n = part_bytes(alloc, modulus.as_bytes())?;
        let e = part_bytes(alloc, exponent.as_bytes())?;
        Ok(DecodingKey::components(n, e))
    }

    /// Returns the RSA key of a modulus and an exponent, each a big-endian number. The only refusal
    /// is `OutOfMemory`.
    pub fn from_rsa_raw_components(
        alloc: Global,
        modulus: &[u8],
        exponent: &[u8],
    ) -> Result<DecodingKey>
        ensures ok { IfOk result (λ k. k ≡ Components modulus.now exponent.now) }
        ensures err { IfErr result IsMemory }
    {
        let n = modulus.to_vec(alloc)?;
        let e = exponent.to_vec(alloc)?;
        Ok(DecodingKey::components(n, e))
    }

    /// Returns the elliptic curve key of a point: the byte 4 and then the two coordinates, each
    /// given as a base64url text (RFC 7518 section 6.2.1). If one of them is not such a text, the
    /// refusal is `Base64`.
    pub fn from_ec_components(alloc: Global, x: &str, y: &str) -> Result<DecodingKey>
        ensures ok { IfOk result (IsEcOfParts x.now y.now) }
        ensures err { IfErr result (RefusesAs kind.Base64
            ((k : Key) → ¬ IsEcOfParts x.now y.now k)) }
    {
        let x = part_bytes(alloc, x.as_bytes())?;
        let y = part_bytes(alloc, y.as_bytes())?;
        let point = point_bytes(alloc, x.as_slice(), y.as_slice())?;
        Ok(DecodingKey::plain(AlgorithmFamily::Ec, point))
    }

    /// Returns the Edwards curve key of a public key, given as a base64url text (RFC 8037 section
    /// 2). Any other text is refused with `Base64`.
    pub fn from_ed_components(alloc: Global, x: &str) -> Result<DecodingKey>
        ensures ok { IfOk result (IsEdOfPart x.now) }
        ensures err { IfErr result (RefusesAs kind.Base64 ((k : Key) → ¬ IsEdOfPart x.now k)) }
    {
        let bytes = part_bytes(alloc, x.as_bytes())?;
        Ok(DecodingKey::plain(AlgorithmFamily::Ed, bytes))
    }

    /// Returns the key that a JSON Web Key stands for (RFC 7518 section 6, RFC 8037 section 2): the
    /// modulus and the exponent of an RSA key, the point of one on an elliptic curve, the public
    /// key of a pair of octet strings, a secret. The curve is not checked. A member that is not
    /// base64url text is refused with `Base64`, and a key of any other type is refused with
    /// `UnsupportedAlgorithm`.
    pub fn from_jwk(alloc: Global, jwk: &Jwk) -> Result<DecodingKey>
        ensures ok { IfOk result (IsKeyOf jwk.now.algorithm) }
        ensures err { IfErr result (RefusesAs (refusal_of jwk.now.algorithm)
            ((k : Key) → ¬ IsKeyOf jwk.now.algorithm k)) }
    {
        match &jwk.algorithm {
            AlgorithmParameters::EllipticCurve(key) => {
                DecodingKey::from_ec_components(alloc, key.x.as_str(), key.y.as_str())
            }
            AlgorithmParameters::RSA(key) => {
                DecodingKey::from_rsa_components(alloc, key.n.as_str(), key.e.as_str())
            }
            AlgorithmParameters::OctetKey(key) => {
                DecodingKey::from_secret_part(alloc, key.value.as_str())
            }
            AlgorithmParameters::OctetKeyPair(key) => {
                DecodingKey::from_ed_components(alloc, key.x.as_str())
            }
            AlgorithmParameters::Other(_) => Err(new_error(ErrorKind::UnsupportedAlgorithm)),
        }
    }

    /// Returns the family of the algorithms that the key is for.
    pub fn family(&self) -> AlgorithmFamily
        ensures { result ≡ key_family self.now }
    {
        self.family
    }

    /// Returns the content of the key.
    pub fn kind(&self) -> &DecodingKeyKind
        ensures { content_of result.now ≡ key_content self.now }
    {
        &self.kind
    }

    /// Returns the secret, or the bytes in DER. A key of components has none, and is refused with
    /// `InvalidKeyFormat`.
    pub fn try_get_as_bytes(&self) -> Result<&[u8]>
        ensures ok { IfOk result (λ b. self.now ≡ Plain (key_family self.now) b.now) }
        ensures err { IfErr result (λ e. (kind_of e ≡ kind.InvalidKeyFormat)
            × ((n : List ℕ) × ((m : List ℕ) × (self.now ≡ Components n m)))) }
    {
        match &self.kind {
            DecodingKeyKind::SecretOrDer(bytes) => Ok(bytes.as_slice()),
            DecodingKeyKind::RsaModulusExponent { .. } => {
                Err(new_error(ErrorKind::InvalidKeyFormat))
            }
        }
    }

    /// Sets every byte to 0. The numbers of bytes and the family stay.
    pub fn zeroize(&mut self)
        ensures { self.new ≡ cleared self.old }
    {
        self.kind.zeroize();
    }

    /// Returns a copy. The only refusal is `OutOfMemory`.
    pub fn clone(&self, alloc: Global) -> Result<DecodingKey>
        ensures ok { IfOk result (λ k. k ≡ self.now) }
        ensures err { IfErr result IsMemory }
    {
        Ok(DecodingKey {
            family: self.family,
            kind: self.kind.clone(alloc)?,
        })
    }

    fn plain(family: AlgorithmFamily, bytes: Vec<u8>) -> DecodingKey
        ensures { result ≡ Plain family bytes.items }
    {
        DecodingKey {
            family,
            kind: DecodingKeyKind::SecretOrDer(bytes),
        }
    }

    fn copy_bytes(alloc: Global, family: AlgorithmFamily, bytes: &[u8]) -> Result<DecodingKey>
        ensures ok { IfOk result (λ k. k ≡ Plain family bytes.now) }
        ensures err { IfErr result IsMemory }
    {
        let bytes = bytes.to_vec(alloc)?;
        Ok(DecodingKey::plain(family, bytes))
    }

    fn components(n: Vec<u8>, e: Vec<u8>) -> DecodingKey
        ensures { result ≡ Components n.items e.items }
    {
        DecodingKey {
            family: AlgorithmFamily::Rsa,
            kind: DecodingKeyKind::RsaModulusExponent { n, e },
        }
    }

    fn from_secret_part(alloc: Global, secret: &str) -> Result<DecodingKey>
        ensures ok { IfOk result (IsHmacOfPart secret.now) }
        ensures err { IfErr result (RefusesAs kind.Base64
            ((k : Key) → ¬ IsHmacOfPart secret.now k)) }
    {
        let bytes = part_bytes(alloc, secret.as_bytes())?;
        Ok(DecodingKey::plain(AlgorithmFamily::Hmac, bytes))
    }
}

/// Shows the family, and `[redacted]` for the bytes.
impl fmt::Debug for DecodingKey {
    fn fmt<W: fmt::Write>(&self, f: &mut fmt::Formatter<W>) -> fmt::Result {
        f.debug_struct("DecodingKey")
            .field("family", &self.family)
            .field("kind", &self.kind)
            .finish()
    }
}

// Returns a point that is not compressed (SEC 1 section 2.3.3).
fn point_bytes(alloc: Global, x: &[u8], y: &[u8]) -> Result<Vec<u8>>
    ensures ok { IfOk result (λ p. p.items ≡ 4 ∷ x.now ++ y.now) }
    ensures err { IfErr result IsMemory }
{
    let mut point = Vec::new(alloc);
    point.push(4)?;
    point.extend_from_slice(x)?;
    point.extend_from_slice(y)?;
    Ok(point)
}
