//! The encoded messages of RSASSA-PSS (RFC 8017 section 9.1.2).

ghost use Rattle.std.specs.Prelude.{◌≡◌, ◌↔◌, ℕ, ◌-◌, ◌+◌, ◌*◌, ◌^◌, ◌<◌, ◌≤◌, List, IsTrue, IfOk};
ghost use Rattle.std.specs.Prelude.{IfErr, IfSome, IfNone, length};
ghost use Rattle.jwt_base.specs.KindOf.{IsMemory};
ghost use Rattle.jwt_rsa.specs.Pss.{hash_len, mask_blocks, mgf1, xored, low_bits, masked_len};
ghost use Rattle.jwt_rsa.specs.Pss.{em_digest, data_block, salted_digest, front_bits, HasSalt};
ghost use Rattle.jwt_rsa.specs.Pss.{IsFramed, IsConsistent};
ghost use Rattle.modular.specs.Octets.{i2osp};

use jwt_base::errors::Result;
use jwt_crypto::Hash;
use std::alloc::Global;

// EMSA-PSS-VERIFY.
pub(crate) fn is_consistent(
    alloc: Global,
    hash: Hash,
    kept: u32,
    message: &[u8],
    em: &[u8],
) -> Result<bool>
    requires short { length em.now ≤ 2048 }
    requires kept { kept ≤ 8 }
    ensures verdict { IfOk result (λ yes. IsTrue yes ↔ IsConsistent hash kept message.now em.now) }
    ensures memory { IfErr result IsMemory }
{
    if !is_framed(hash, kept, em) {
        return Ok(false);
    }
    let size = hash_len(hash);
    let block = data_block(alloc, hash, kept, em)?;
    let Some(salt) = salt_of(&block, em.len() - 2 * size - 2) else {
        return Ok(false);
    };
    let digest = salted_digest(alloc, hash, message, salt)?;
    Ok(holds_digest(hash, em, &digest))
}

// How many bits of the first octet an encoded message of this many bits may have.
pub(crate) fn front_bits(em_bits: usize) -> u32
    requires { em_bits ≤ 16384 }
    ensures exact { result ≡ front_bits em_bits }
    ensures few { result ≤ 8 }
{
    (8 - (8 * ((em_bits + 7) / 8) - em_bits)) as u32
}

// The lowest octets of a number, as many as `count`, if it fits them. As many are given, or one
// more.
pub(crate) fn lowest_octets(octets: &[u8], count: usize) -> Option<&[u8]>
    requires least { count ≤ length octets.now }
    requires most { length octets.now ≤ count + 1 }
    ensures some { IfSome result (λ lowest. (x : ℕ) → octets.now ≡ i2osp x (length octets.now)
        → x < 256 ^ length octets.now
        → (x < 256 ^ count) × (lowest.now ≡ i2osp x count)) }
    ensures none { IfNone result ((x : ℕ) → octets.now ≡ i2osp x (length octets.now)
        → ¬ (x < 256 ^ count)) }
    ensures short { IfSome result (λ lowest. length lowest.now ≤ length octets.now) }
{
    if octets.len() == count {
        return Some(octets);
    }
    if octets[0] != 0 {
        return None;
    }
    Some(&octets[1..])
}

// The number of octets of a digest, and of a salt.
fn hash_len(hash: Hash) -> usize
    ensures exact { result ≡ hash_len hash }
    ensures some { 32 ≤ result }
    ensures few { result ≤ 64 }
{
    match hash {
        Hash::Sha256 => 32,
        Hash::Sha384 => 48,
        Hash::Sha512 => 64,
    }
}

// The first blocks of MGF1.
fn mask_blocks(alloc: Global, hash: Hash, seed: &[u8], count: u32) -> Result<Vec<u8>>
    ensures ok { IfOk result (λ v. v.items ≡ mask_blocks hash seed.now count) }
    ensures err { IfErr result IsMemory }
{
    let mut blocks = Vec::new(alloc);
    for counter in 0..count {
        let mut input = Vec::from_slice(alloc, seed)?;
        input.extend_from_slice(&counter.to_be_bytes())?;
        let block = hash.digest(alloc, &input)?;
        blocks.extend_from_slice(&block)?;
    }
    Ok(blocks)
}

// MGF1.
fn mgf1(alloc: Global, hash: Hash, seed: &[u8], len: usize) -> Result<Vec<u8>>
    requires { len ≤ 2048 }
    ensures ok { IfOk result (λ v. v.items ≡ mgf1 hash seed.now len) }
    ensures err { IfErr result IsMemory }
{
    let size = hash_len(hash);
    let count = (len + size - 1) / size;
    let mut mask = mask_blocks(alloc, hash, seed, count as u32)?;
    mask.truncate(len);
    Ok(mask)
}

// Each octet of the one xor that of the other, as far as both go.
fn xor(alloc: Global, a: &[u8], b: &[u8]) -> Result<Vec<u8>>
    ensures ok { IfOk result (λ v. v.items ≡ xored a.now b.now) }
    ensures err { IfErr result IsMemory }
{
    Ok(a.iter().zip(b).map(|(x, y)| *x ^ *y).collect(alloc)?)
}

// The digest that an encoded message holds.
fn em_digest(hash: Hash, em: &[u8]) -> &[u8]
    requires { 2 * hash_len hash + 2 ≤ length em.now }
    ensures { result.now ≡ em_digest hash em.now }
{
    let size = hash_len(hash);
    let start = em.len() - size - 1;
    &em[start..start + size]
}

// The data block of an encoded message.
fn data_block(alloc: Global, hash: Hash, kept: u32, em: &[u8]) -> Result<Vec<u8>>
    requires long { 2 * hash_len hash + 2 ≤ length em.now }
    requires short { length em.now ≤ 2048 }
    requires kept { kept ≤ 8 }
    ensures ok { IfOk result (λ v. v.items ≡ data_block hash kept em.now) }
    ensures err { IfErr result IsMemory }
{
    let len = em.len() - hash_len(hash) - 1;
    let mask = mgf1(alloc, hash, em_digest(hash, em), len)?;
    let block = xor(alloc, &em[..len], &mask)?;
    Ok(with_low_bits(block, kept))
}

// The octets with this many bits of the first.
fn with_low_bits(mut octets: Vec<u8>, kept: u32) -> Vec<u8>
    requires { kept ≤ 8 }
    ensures { result.items ≡ low_bits kept octets.items }
{
    if !octets.is_empty() {
        octets[0] = (u32::from(octets[0]) % (1 << kept)) as u8;
    }
    octets
}

// The digest of eight octets of 0, the message's digest and the salt.
fn salted_digest(alloc: Global, hash: Hash, message: &[u8], salt: &[u8]) -> Result<Vec<u8>>
    ensures ok { IfOk result (λ v. v.items ≡ salted_digest hash message.now salt.now) }
    ensures err { IfErr result IsMemory }
{
    let digest = hash.digest(alloc, message)?;
    let mut input = vec![in alloc; 0; 8]?;
    input.extend_from_slice(&digest)?;
    input.extend_from_slice(salt)?;
    hash.digest(alloc, &input)
}

// Whether the length, the trailer and the first octet are those of an encoded message.
fn is_framed(hash: Hash, kept: u32, em: &[u8]) -> bool
    requires { kept ≤ 8 }
    ensures { IsTrue result ↔ IsFramed hash kept em.now }
{
    let long = em.len() >= 2 * hash_len(hash) + 2;
    long && em[em.len() - 1] == 0xbc && u32::from(em[0]) < 1 << kept
}

// The salt at the end of a data block, after this many octets of 0 and one of 1.
fn salt_of(block: &[u8], zeros: usize) -> Option<&[u8]>
    ensures some { IfSome result (λ salt. HasSalt zeros block.now salt.now) }
    ensures none { IfNone result ((salt : List ℕ) → ¬ HasSalt zeros block.now salt) }
{
    if block.len() <= zeros || block[zeros] != 1 {
        return None;
    }
    if block[..zeros].iter().any(|octet| *octet != 0) {
        return None;
    }
    Some(&block[zeros + 1..])
}

// Whether these octets are the digest that the encoded message holds.
fn holds_digest(hash: Hash, em: &[u8], digest: &[u8]) -> bool
    requires { 2 * hash_len hash + 2 ≤ length em.now }
    ensures { IsTrue result ↔ (digest.now ≡ em_digest hash em.now) }
{
    digest == em_digest(hash, em)
}
