//! A secret that is kept for many messages: the hashers that have taken its two blocks in (RFC 2104
//! section 4).

// A verifier keeps two hashers and no block. They hold a secret's blocks (`HoldSecret`), but which
// secret can't be told from them, up to a collision of the hash's steps. So a signature is defined
// as the code under every secret that they hold, of which there is at least one (a ghost field),
// and which all give one code. A call clears the room for the hashers that it returns and moves them
// afterwards, so those that a token takes are inlined.

ghost use Rattle.std.specs.Prelude.{◌≡◌, ◌↔◌, ℕ, List, ◌++◌, IfOk, IfErr, IsTrue};
ghost use Rattle.jwt_base.specs.KindOf.{IsMemory};
ghost use Rattle.jwt_keys.specs.Key.{zeros};
ghost use Rattle.sha2.specs.Hashers.{Holds256, Holds384, Holds512};
ghost use Rattle.jwt_crypto.specs.Hmac.{inner_block, outer_block, hmac};
ghost use Rattle.jwt_crypto.specs.HmacHashers.{hash_of, HoldSecret, IsCodeByHeld};

use crate::comparison::is_same;
use crate::hmac::{Blocks, Hash};
use jwt_base::errors::Result;
use sha2::{Digest, Sha256, Sha384, Sha512};
use std::alloc::Global;

// The hashers of the inner and of the outer block.
#[derive(Drop)]
pub(crate) enum Hashers {
    By256(Sha256, Sha256),
    By384(Sha384, Sha384),
    By512(Sha512, Sha512),
}

impl Hashers {
    fn new(hash: Hash, secret: &[u8]) -> Hashers
        ensures hash { hash_of result ≡ hash }
        ensures secret { HoldSecret result secret.now }
    {
        let blocks = Blocks::new(hash, secret);
        match hash {
            Hash::Sha256 => Hashers::By256(
                Sha256::new_with_prefix(&blocks.inner[..64]),
                Sha256::new_with_prefix(&blocks.outer[..64]),
            ),
            Hash::Sha384 => Hashers::By384(
                Sha384::new_with_prefix(blocks.inner.as_slice()),
                Sha384::new_with_prefix(blocks.outer.as_slice()),
            ),
            Hash::Sha512 => Hashers::By512(
                Sha512::new_with_prefix(blocks.inner.as_slice()),
                Sha512::new_with_prefix(blocks.outer.as_slice()),
            ),
        }
    }

    #[inline(always)]
    fn clone(&self) -> Hashers
        ensures { result ≡ self.now }
    {
        match self {
            Hashers::By256(first, second) => Hashers::By256(copy_256(first), copy_256(second)),
            Hashers::By384(first, second) => Hashers::By384(copy_384(first), copy_384(second)),
            Hashers::By512(first, second) => Hashers::By512(copy_512(first), copy_512(second)),
        }
    }

    fn hash(&self) -> Hash
        ensures { result ≡ hash_of self.now }
    {
        match self {
            Hashers::By256(..) => Hash::Sha256,
            Hashers::By384(..) => Hash::Sha384,
            Hashers::By512(..) => Hash::Sha512,
        }
    }

    fn sign(&self, alloc: Global, message: &[u8]) -> Result<Vec<u8>>
        ensures ok { IfOk result (λ s. IsCodeByHeld self.now message.now s.items) }
        ensures err { IfErr result IsMemory }
    {
        Ok(match self {
            Hashers::By256(first, second) => code_256(first, second, message).to_vec(alloc)?,
            Hashers::By384(first, second) => code_384(first, second, message).to_vec(alloc)?,
            Hashers::By512(first, second) => code_512(first, second, message).to_vec(alloc)?,
        })
    }

    fn verify(&self, message: &[u8], signature: &[u8]) -> bool
        ensures { (secret : List ℕ) → HoldSecret self.now secret
            → IsTrue result ↔ (signature.now ≡ hmac (hash_of self.now) secret message.now) }
    {
        match self {
            Hashers::By256(first, second) => {
                is_same(code_256(first, second, message).as_slice(), signature)
            }
            Hashers::By384(first, second) => {
                is_same(code_384(first, second, message).as_slice(), signature)
            }
            Hashers::By512(first, second) => {
                is_same(code_512(first, second, message).as_slice(), signature)
            }
        }
    }
}

// The hashers of some secret.
#[derive(Drop)]
pub(crate) struct PreparedHashers {
    pub(crate) hashers: Hashers,
    ghost of_a_secret: { ∥ ((secret : List ℕ) × HoldSecret hashers secret) ∥₁ },
}

impl PreparedHashers {
    pub(crate) fn new(hash: Hash, secret: &[u8]) -> PreparedHashers
        ensures hash { hash_of result.hashers ≡ hash }
        ensures secret { HoldSecret result.hashers secret.now }
    {
        PreparedHashers {
            hashers: Hashers::new(hash, secret),
        }
    }

    #[inline(always)]
    pub(crate) fn clone(&self) -> PreparedHashers
        ensures { result.hashers ≡ self.now.hashers }
    {
        PreparedHashers {
            hashers: self.hashers.clone(),
        }
    }

    pub(crate) fn hash(&self) -> Hash
        ensures { result ≡ hash_of self.now.hashers }
    {
        self.hashers.hash()
    }

    pub(crate) fn sign(&self, alloc: Global, message: &[u8]) -> Result<Vec<u8>>
        ensures ok { IfOk result (λ s. IsCodeByHeld self.now.hashers message.now s.items) }
        ensures err { IfErr result IsMemory }
    {
        self.hashers.sign(alloc, message)
    }

    pub(crate) fn verify(&self, message: &[u8], signature: &[u8]) -> bool
        ensures { IsTrue result ↔ IsCodeByHeld self.now.hashers message.now signature.now }
    {
        self.hashers.verify(message, signature)
    }
}

// A secret, with the hashers that hold its blocks.
#[derive(Drop)]
pub(crate) struct PreparedKey {
    pub(crate) secret: Vec<u8>,
    pub(crate) held: PreparedHashers,
    ghost of_secret: { ∥ HoldSecret held.hashers secret.items ∥₁ },
}

impl PreparedKey {
    pub(crate) fn new(alloc: Global, hash: Hash, secret: &[u8]) -> Result<PreparedKey>
        ensures secret { IfOk result (λ k. k.secret.items ≡ secret.now) }
        ensures hash { IfOk result (λ k. hash_of k.held.hashers ≡ hash) }
        ensures err { IfErr result IsMemory }
    {
        Ok(PreparedKey {
            secret: secret.to_vec(alloc)?,
            held: PreparedHashers::new(hash, secret),
        })
    }

    pub(crate) fn is_for(&self, hash: Hash, secret: &[u8]) -> bool
        ensures { IsTrue result ↔ (hash_of self.now.held.hashers ≡ hash)
            × (self.now.secret.items ≡ secret.now) }
    {
        self.held.hash() == hash && is_same(secret, self.secret.as_slice())
    }

    // Sets every byte of the secret to 0, and the hashers to those of the cleared secret.
    pub(crate) fn zeroize(&mut self)
        ensures secret { self.new.secret.items ≡ zeros self.old.secret.items }
        ensures hash { hash_of self.new.held.hashers ≡ hash_of self.old.held.hashers }
    {
        self.secret.fill(0);
        self.held = PreparedHashers::new(self.held.hash(), self.secret.as_slice());
    }
}

fn copy_256(hasher: &Sha256) -> Sha256
    ensures { result ≡ hasher.now }
{
    let Ok(copy) = hasher.clone() else {
        unreachable!()
    };
    copy
}

fn copy_384(hasher: &Sha384) -> Sha384
    ensures { result ≡ hasher.now }
{
    let Ok(copy) = hasher.clone() else {
        unreachable!()
    };
    copy
}

fn copy_512(hasher: &Sha512) -> Sha512
    ensures { result ≡ hasher.now }
{
    let Ok(copy) = hasher.clone() else {
        unreachable!()
    };
    copy
}

#[inline(always)]
fn code_256(first: &Sha256, second: &Sha256, message: &[u8]) -> [u8; 32]
    ensures { (secret : List ℕ) → Holds256 first.now (inner_block Hash.Sha256 secret)
        → Holds256 second.now (outer_block Hash.Sha256 secret)
        → result ≡ hmac Hash.Sha256 secret message.now }
{
    finish_by::<32, Sha256>(copy_256(first), copy_256(second), message)
}

// Feeds the message to the first hasher, and its digest to the second.
#[inline(always)]
fn finish_by<const N: usize, D: Digest<Output = [u8; N]>>(
    mut first: D,
    mut second: D,
    message: &[u8],
) -> [u8; N]
    ensures { (inner outer : List ℕ) → D.holds first inner → D.holds second outer
        → (i : List ℕ) × D.digest_of (inner ++ message.now) i × D.digest_of (outer ++ i) result }
{
    first.update(message);
    second.update(first.finalize().as_slice());
    second.finalize()
}

fn code_384(first: &Sha384, second: &Sha384, message: &[u8]) -> [u8; 48]
    ensures { (secret : List ℕ) → Holds384 first.now (inner_block Hash.Sha384 secret)
        → Holds384 second.now (outer_block Hash.Sha384 secret)
        → result ≡ hmac Hash.Sha384 secret message.now }
{
    finish_by::<48, Sha384>(copy_384(first), copy_384(second), message)
}

fn code_512(first: &Sha512, second: &Sha512, message: &[u8]) -> [u8; 64]
    ensures { (secret : List ℕ) → Holds512 first.now (inner_block Hash.Sha512 secret)
        → Holds512 second.now (outer_block Hash.Sha512 secret)
        → result ≡ hmac Hash.Sha512 secret message.now }
{
    finish_by::<64, Sha512>(copy_512(first), copy_512(second), message)
}
