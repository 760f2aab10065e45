//! The verdicts of ES256 and ES384 by keys that are prepared once.

ghost use Rattle.std.specs.Prelude.{◌≡◌, ◌↔◌, IsTrue, IfOk, MatchOption, true, false};
ghost use Rattle.ecdsa.specs.Curves.{IsEs256, is_p256_key, IsEs384, is_p384_key};

use crate::constants::{b_256, b_384};
use crate::curves::{digest_256, digest_384, is_es256_over, is_es384_over};
use crate::moduli::{
    Field256, Field384, FieldModulus256, FieldModulus384, Order256, Order384, OrderModulus256,
    OrderModulus384,
};
use crate::prepared::{PreparedKey, prepare_key};
use residues::montgomery::Montgomery;
use std::alloc::{AllocError, Global};

/// A prepared public key of P-256, which keeps 16 KiB.
pub type P256Key = PreparedKey<Montgomery<FieldModulus256, 4>, 32>;

/// A prepared public key of P-384, which keeps 24 KiB.
pub type P384Key = PreparedKey<Montgomery<FieldModulus384, 6>, 48>;

/// Returns the prepared key of these bytes. Returns `None` if they are no public key of P-256, as
/// `is_p256_key` says.
pub fn prepare_p256(alloc: Global, public: &[u8]) -> Result<Option<P256Key>, AllocError>
    ensures { IfOk result (λ o. MatchOption o (is_p256_key public.now ≡ false)
        (λ k. (is_p256_key public.now ≡ true) × (k.public.items ≡ public.now))) }
{
    prepare_p256_over::<Montgomery<FieldModulus256, 4>>(alloc, public)
}

/// Returns the prepared key of these bytes. Returns `None` if they are no public key of P-384, as
/// `is_p384_key` says.
pub fn prepare_p384(alloc: Global, public: &[u8]) -> Result<Option<P384Key>, AllocError>
    ensures { IfOk result (λ o. MatchOption o (is_p384_key public.now ≡ false)
        (λ k. (is_p384_key public.now ≡ true) × (k.public.items ≡ public.now))) }
{
    prepare_p384_over::<Montgomery<FieldModulus384, 6>>(alloc, public)
}

/// Returns the bytes of the key, which are a public key of P-256.
pub fn p256_bytes(key: &P256Key) -> &[u8]
    ensures value { result.now ≡ key.now.public.items }
    ensures is_key { is_p256_key key.now.public.items ≡ true }
{
    p256_bytes_over(key)
}

/// Returns the bytes of the key, which are a public key of P-384.
pub fn p384_bytes(key: &P384Key) -> &[u8]
    ensures value { result.now ≡ key.now.public.items }
    ensures is_key { is_p384_key key.now.public.items ≡ true }
{
    p384_bytes_over(key)
}

/// Returns what `is_es256` returns for the bytes of the key. Allocates no memory.
pub fn is_es256_by(key: &P256Key, message: &[u8], signature: &[u8]) -> bool
    ensures { IsTrue result ↔ IsEs256 key.now.public.items message.now signature.now }
{
    is_es256_by_over::<Montgomery<FieldModulus256, 4>, Montgomery<OrderModulus256, 4>>(
        key, message, signature,
    )
}

/// Returns what `is_es384` returns for the bytes of the key. Allocates no memory.
pub fn is_es384_by(key: &P384Key, message: &[u8], signature: &[u8]) -> bool
    ensures { IsTrue result ↔ IsEs384 key.now.public.items message.now signature.now }
{
    is_es384_by_over::<Montgomery<FieldModulus384, 6>, Montgomery<OrderModulus384, 6>>(
        key, message, signature,
    )
}

fn prepare_p256_over<F: Field256>(
    alloc: Global,
    public: &[u8],
) -> Result<Option<PreparedKey<F, 32>>, AllocError>
    ensures { IfOk result (λ o. MatchOption o (is_p256_key public.now ≡ false)
        (λ k. (is_p256_key public.now ≡ true) × (k.public.items ≡ public.now))) }
{
    prepare_key::<F, 32>(alloc, b_256(), public)
}

fn prepare_p384_over<F: Field384>(
    alloc: Global,
    public: &[u8],
) -> Result<Option<PreparedKey<F, 48>>, AllocError>
    ensures { IfOk result (λ o. MatchOption o (is_p384_key public.now ≡ false)
        (λ k. (is_p384_key public.now ≡ true) × (k.public.items ≡ public.now))) }
{
    prepare_key::<F, 48>(alloc, b_384(), public)
}

fn p256_bytes_over<F: Field256>(key: &PreparedKey<F, 32>) -> &[u8]
    ensures value { result.now ≡ key.now.public.items }
    ensures is_key { is_p256_key key.now.public.items ≡ true }
{
    key.public.as_slice()
}

fn p384_bytes_over<F: Field384>(key: &PreparedKey<F, 48>) -> &[u8]
    ensures value { result.now ≡ key.now.public.items }
    ensures is_key { is_p384_key key.now.public.items ≡ true }
{
    key.public.as_slice()
}

fn is_es256_by_over<F: Field256, N: Order256>(
    key: &PreparedKey<F, 32>,
    message: &[u8],
    signature: &[u8],
) -> bool
    ensures { IsTrue result ↔ IsEs256 key.now.public.items message.now signature.now }
{
    if !key.has_comb() {
        return is_es256_over::<F, N>(key.public.as_slice(), message, signature);
    }
    key.is_signature::<N, 4>(&digest_256(message), signature)
}

fn is_es384_by_over<F: Field384, N: Order384>(
    key: &PreparedKey<F, 48>,
    message: &[u8],
    signature: &[u8],
) -> bool
    ensures { IsTrue result ↔ IsEs384 key.now.public.items message.now signature.now }
{
    if !key.has_comb() {
        return is_es384_over::<F, N>(key.public.as_slice(), message, signature);
    }
    key.is_signature::<N, 6>(&digest_384(message), signature)
}
