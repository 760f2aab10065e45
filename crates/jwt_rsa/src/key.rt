//! Public keys (RFC 8017 section 3.1).

ghost use Rattle.std.specs.Prelude.{◌≡◌, ◌↔◌, ℕ, ◌^◌, ◌<◌, ◌≤◌, if◌then◌else◌, Some, None, IsTrue};
ghost use Rattle.std.specs.Prelude.{IfOk, IfErr, OnOk, IfSome, IfNone, length, slice_index};
ghost use Rattle.jwt_base.specs.KindOf.{IsMemory, Refuses};
ghost use Rattle.modular.specs.Octets.{os2ip, i2osp};
ghost use Rattle.jwt_rsa.specs.Rsa.{bit_count, octet_count, IsRepresentative, rsavp1};
ghost use Rattle.jwt_rsa.specs.Pkcs1.{IsPkcs1Signature};
ghost use Rattle.jwt_rsa.specs.Pss.{IsPssSignature};
ghost use Rattle.jwt_rsa.specs.RsaSchemes.{IsSignature};
ghost use Rattle.jwt_rsa.specs.RsaKeys.{bits_fit, exponent_fits, components_refusal};

use crate::pkcs1::encode;
use crate::pss::{front_bits, is_consistent, lowest_octets};
use crate::scheme::Scheme;
use jwt_base::errors::{ErrorKind, Result, new_error};
use jwt_crypto::Hash;
use modular::{Modulus, Natural, limb_from_octets};
use std::alloc::Global;

// A public key.
#[derive(Drop)]
pub(crate) struct PublicKey {
    pub(crate) modulus: Modulus,
    pub(crate) exponent: u64,
    // The number of bits of the modulus.
    pub(crate) bits: usize,
    ghost positive: { 0 < exponent },
    ghost some_bits: { 2048 ≤ bits },
    ghost few_bits: { bits ≤ 16384 },
    ghost below: { modulus < 2 ^ bits },
}

impl PublicKey {
    // The key of a modulus and an exponent, or `InvalidKeyFormat` if they do not serve.
    pub(crate) fn new(alloc: Global, n: &[u8], e: &[u8]) -> Result<PublicKey>
        ensures made { OnOk result (components_refusal n.now e.now ≡ None) }
        ensures modulus { IfOk result (λ k. k.modulus ≡ os2ip n.now) }
        ensures exponent { IfOk result (λ k. k.exponent ≡ os2ip e.now) }
        ensures bits { IfOk result (λ k. k.bits ≡ bit_count n.now) }
        ensures err { IfErr result (Refuses (components_refusal n.now e.now)) }
    {
        let Some(bits) = modulus_bits(n) else {
            return Err(new_error(ErrorKind::InvalidKeyFormat));
        };
        let Some(exponent) = exponent_of(e) else {
            return Err(new_error(ErrorKind::InvalidKeyFormat));
        };
        let number = Natural::from_octets(alloc, n)?;
        if !number.is_odd() {
            return Err(new_error(ErrorKind::InvalidKeyFormat));
        }
        let modulus = Modulus::new(alloc, &number)?;
        Ok(PublicKey {
            modulus,
            exponent,
            bits,
        })
    }

    // Whether the signature is one of the message by this scheme.
    pub(crate) fn accepts(
        &self,
        alloc: Global,
        scheme: Scheme,
        message: &[u8],
        signature: &[u8],
    ) -> Result<bool>
        ensures verdict { IfOk result (λ yes. IsTrue yes
            ↔ IsSignature scheme self.now.modulus self.now.exponent self.now.bits message.now
            signature.now) }
        ensures memory { IfErr result IsMemory }
    {
        match scheme {
            Scheme::Pkcs1(hash) => self.accepts_pkcs1(alloc, hash, message, signature),
            Scheme::Pss(hash) => self.accepts_pss(alloc, hash, message, signature),
        }
    }

    // RSASSA-PKCS1-v1_5-VERIFY.
    fn accepts_pkcs1(
        &self,
        alloc: Global,
        hash: Hash,
        message: &[u8],
        signature: &[u8],
    ) -> Result<bool>
        ensures verdict { IfOk result (λ yes. IsTrue yes
            ↔ IsPkcs1Signature hash self.now.modulus self.now.exponent self.now.bits message.now
            signature.now) }
        ensures memory { IfErr result IsMemory }
    {
        let Some(octets) = self.open(alloc, signature)? else {
            return Ok(false);
        };
        let wanted = encode(alloc, hash, message, self.octet_count())?;
        Ok(octets.as_slice() == wanted.as_slice())
    }

    // RSAVP1 of the signature's number, in as many octets as the modulus has, if it is in range.
    fn open(&self, alloc: Global, signature: &[u8]) -> Result<Option<Vec<u8>>>
        ensures some { IfOk result (λ o. IfSome o (λ v.
            IsRepresentative self.now.modulus self.now.bits signature.now
            × (v.items ≡ i2osp (rsavp1 self.now.modulus self.now.exponent (os2ip signature.now))
            (octet_count self.now.bits))
            × (length v.items ≡ octet_count self.now.bits))) }
        ensures none { IfOk result (λ o. IfNone o
            (¬ IsRepresentative self.now.modulus self.now.bits signature.now)) }
        ensures memory { IfErr result IsMemory }
    {
        let count = self.octet_count();
        if signature.len() != count {
            return Ok(None);
        }
        let number = Natural::from_octets(alloc, signature)?;
        if !self.modulus.is_above(&number) {
            return Ok(None);
        }
        let power = self.modulus.power(alloc, &number, self.exponent)?;
        Ok(Some(power.to_octets(alloc, count)?))
    }

    // The length of the modulus in octets.
    fn octet_count(&self) -> usize
        ensures { result ≡ octet_count self.now.bits }
    {
        (self.bits + 7) / 8
    }

    // RSASSA-PSS-VERIFY.
    fn accepts_pss(
        &self,
        alloc: Global,
        hash: Hash,
        message: &[u8],
        signature: &[u8],
    ) -> Result<bool>
        ensures verdict { IfOk result (λ yes. IsTrue yes
            ↔ IsPssSignature hash self.now.modulus self.now.exponent self.now.bits message.now
            signature.now) }
        ensures memory { IfErr result IsMemory }
    {
        let Some(octets) = self.open(alloc, signature)? else {
            return Ok(false);
        };
        let em_bits = self.bits - 1;
        let Some(em) = lowest_octets(&octets, (em_bits + 7) / 8) else {
            return Ok(false);
        };
        // named for the proof
        let yes = is_consistent(alloc, hash, front_bits(em_bits), message, em)?;
        Ok(yes)
    }
}

// The number of bits of a modulus, if as many serve.
fn modulus_bits(n: &[u8]) -> Option<usize>
    ensures { result ≡ (if bits_fit (bit_count n.now) then Some (bit_count n.now) else None) }
{
    let octets = significant(n);
    if octets.len() < 256 || octets.len() > 2048 {
        return None;
    }
    let bits = 8 * octets.len() - octets[0].leading_zeros() as usize;
    (bits >= 2048).then_some(bits)
}

// The octets without those of 0 at their front.
fn significant(octets: &[u8]) -> &[u8]
    ensures number { os2ip result.now ≡ os2ip octets.now }
    ensures bits { bit_count result.now ≡ bit_count octets.now }
    ensures front { 0 < length result.now → 0 < slice_index result.now 0 }
    ensures octets { (k : ℕ) → slice_index result.now k < 256 }
{
    let mut start = 0;
    while start < octets.len() && octets[start] == 0 {
        start += 1;
    }
    &octets[start..]
}

// The exponent, if it serves.
fn exponent_of(e: &[u8]) -> Option<u64>
    ensures { result ≡ (if exponent_fits e.now then Some (os2ip e.now) else None) }
{
    let octets = significant(e);
    if octets.len() > 8 {
        return None;
    }
    let exponent = limb_from_octets(octets);
    (exponent >= 3 && exponent % 2 == 1).then_some(exponent)
}
