//! A key that is kept for many signatures.

ghost use Rattle.std.specs.Prelude.{◌≡◌, ◌↔◌, None, IfOk, IfErr, OnOk, IsTrue};
ghost use Rattle.jwt_base.specs.KindOf.{Refuses};
ghost use Rattle.modular.specs.Octets.{os2ip};
ghost use Rattle.jwt_rsa.specs.Rsa.{bit_count};
ghost use Rattle.jwt_rsa.specs.RsaKeys.{components_refusal};

use crate::key::PublicKey;
use jwt_base::errors::Result;
use std::alloc::Global;

// A modulus and an exponent, with the key that was made of them.
#[derive(Drop)]
pub(crate) struct PreparedKey {
    pub(crate) n: Vec<u8>,
    pub(crate) e: Vec<u8>,
    pub(crate) key: PublicKey,
    ghost serves: { components_refusal n.items e.items ≡ None },
    ghost modulus: { key.modulus ≡ os2ip n.items },
    ghost exponent: { key.exponent ≡ os2ip e.items },
    ghost bits: { key.bits ≡ bit_count n.items },
}

impl PreparedKey {
    pub(crate) fn new(alloc: Global, n: &[u8], e: &[u8]) -> Result<PreparedKey>
        ensures n { IfOk result (λ k. k.n.items ≡ n.now) }
        ensures e { IfOk result (λ k. k.e.items ≡ e.now) }
        ensures made { OnOk result (components_refusal n.now e.now ≡ None) }
        ensures err { IfErr result (Refuses (components_refusal n.now e.now)) }
    {
        let key = PublicKey::new(alloc, n, e)?;
        Ok(PreparedKey {
            n: n.to_vec(alloc)?,
            e: e.to_vec(alloc)?,
            key,
        })
    }

    pub(crate) fn is_of(&self, n: &[u8], e: &[u8]) -> bool
        ensures { IsTrue result ↔ (self.now.n.items ≡ n.now) × (self.now.e.items ≡ e.now) }
    {
        self.n.as_slice() == n && self.e.as_slice() == e
    }
}
