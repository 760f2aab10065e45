//! The keys of RSA that are prepared once, and the verifiers by them.

ghost use Rattle.std.specs.Prelude.{◌≡◌, ◌↔◌, ℕ, List, [], ◌∷◌, ◌++◌, None, IfOk, IfErr, IfSome};
ghost use Rattle.std.specs.Prelude.{IsSome, OnOk, IsTrue};
ghost use Rattle.jwt_base.specs.KindOf.{IsMemory, Refuses};
ghost use Rattle.modular.specs.Octets.{os2ip};
ghost use Rattle.jwt_rsa.specs.declared.scheme.Scheme.{Scheme};
ghost use Rattle.jwt_rsa.specs.Rsa.{bit_count};
ghost use Rattle.jwt_rsa.specs.RsaSchemes.{algorithm_for, IsSignature};
ghost use Rattle.jwt_rsa.specs.RsaKeys.{components_refusal};
ghost use Rattle.jwt_rsa.specs.RsaPrepared.{prepared_key, prepared_keys, IsPrepared, IsSignatureBy};
ghost use Rattle.jwt_rsa.specs.RsaPrepared.{IsKept};

use crate::kept::PreparedKey;
use crate::key::PublicKey;
use crate::scheme::Scheme;
use jwt_base::algorithms::Algorithm;
use jwt_base::errors::Result;
use jwt_keys::provider::JwtVerifier;
use std::alloc::Global;

// The key of a verifier: one that was made for it, or one that was kept.
#[derive(Drop)]
pub(crate) enum KeyInUse<'a> {
    Fresh(PublicKey),
    Kept(&'a PublicKey),
}

impl KeyInUse<'_> {
    fn accepts(
        &self,
        alloc: Global,
        scheme: Scheme,
        message: &[u8],
        signature: &[u8],
    ) -> Result<bool>
        ensures verdict { IfOk result (λ yes. IsTrue yes
            ↔ IsSignatureBy self.now scheme message.now signature.now) }
        ensures memory { IfErr result IsMemory }
    {
        match self {
            KeyInUse::Fresh(key) => key.accepts(alloc, scheme, message, signature),
            KeyInUse::Kept(key) => key.accepts(alloc, scheme, message, signature),
        }
    }
}

/// Verifies RSA signatures with one algorithm and key, as `RsaVerifier` does.
#[derive(Drop)]
pub struct PreparedRsaVerifier<'a> {
    pub(crate) scheme: Scheme,
    pub(crate) keyed: KeyInUse<'a>,
}

impl JwtVerifier for PreparedRsaVerifier<'_> {
    ghost verifies_by = { λ v. algorithm_for v.scheme };

    ghost accepts = { λ v m s. IsSignatureBy v.keyed v.scheme m s };

    ghost is_sparing = { λ _. ⊥ };

    fn algorithm(&self) -> Algorithm {
        self.scheme.algorithm()
    }

    /// Returns whether these bytes are a signature of the message. The only refusal is
    /// `OutOfMemory`.
    fn verify(&self, alloc: Global, message: &[u8], signature: &[u8]) -> Result<bool> {
        self.keyed.accepts(alloc, self.scheme, message, signature)
    }
}

/// The keys that a provider of RSA keeps prepared: what verifying needs of a modulus is computed
/// once, and not for each token. A reference to them is the provider. For every algorithm and key
/// it returns what `RsaProvider` returns, and faster if the key is a prepared one. It compares the
/// key's octets with those that were prepared, so a number with other octets of 0 at its front is
/// not found among them.
#[derive(Drop)]
pub struct PreparedRsa {
    keys: Vec<PreparedKey>,
}

impl PreparedRsa {
    /// Returns the provider with no key prepared. Allocates no memory.
    pub fn new(alloc: Global) -> PreparedRsa
        ensures { prepared_keys result ≡ [] }
    {
        PreparedRsa {
            keys: Vec::new(alloc),
        }
    }

    /// Prepares the key of this modulus and exponent, after those before it. A key that
    /// `RsaProvider` refuses is refused with `InvalidKeyFormat`. A refusal leaves the provider
    /// unchanged.
    pub fn add(&mut self, alloc: Global, n: &[u8], e: &[u8]) -> Result<()>
        ensures prepared { OnOk result (prepared_keys self.new
            ≡ prepared_keys self.old ++ (n.now, e.now) ∷ []) }
        ensures made { OnOk result (components_refusal n.now e.now ≡ None) }
        ensures err { IfErr result (Refuses (components_refusal n.now e.now)) }
        ensures unchanged { IfErr result (λ _. prepared_keys self.new ≡ prepared_keys self.old) }
    {
        let key = PreparedKey::new(alloc, n, e)?;
        self.keys.push(key)?;
        Ok(())
    }

    /// Returns whether the key of these octets is prepared. Allocates no memory.
    pub fn is_prepared(&self, n: &[u8], e: &[u8]) -> bool
        ensures { IsTrue result ↔ IsPrepared self.now n.now e.now }
    {
        self.find(n, e).is_some()
    }

    pub(crate) fn key_of<'a>(&'a self, alloc: Global, n: &[u8], e: &[u8]) -> Result<KeyInUse<'a>>
        ensures made { OnOk result (components_refusal n.now e.now ≡ None) }
        ensures err { IfErr result (Refuses (components_refusal n.now e.now)) }
        ensures accepts { IfOk result (λ k. (scheme : Scheme) (m s : List ℕ) →
            IsSignatureBy k scheme m s ↔ IsSignature scheme (os2ip n.now) (os2ip e.now)
            (bit_count n.now) m s) }
        ensures kept { IfOk result (λ k. IsKept k ↔ IsPrepared self.now n.now e.now) }
    {
        if let Some(prepared) = self.find(n, e) {
            return Ok(KeyInUse::Kept(&prepared.key));
        }
        let key = PublicKey::new(alloc, n, e)?;
        Ok(KeyInUse::Fresh(key))
    }

    fn find(&self, n: &[u8], e: &[u8]) -> Option<&PreparedKey>
        ensures some { IfSome result (λ k. prepared_key k.now ≡ (n.now, e.now)) }
        ensures found { IsSome result ↔ IsPrepared self.now n.now e.now }
    {
        for key in self.keys.iter() {
            if key.is_of(n, e) {
                return Some(key);
            }
        }
        None
    }
}
