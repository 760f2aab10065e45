//! Public keys that are prepared once for many signatures.

ghost use Rattle.std.specs.Prelude.{◌≡◌, ◌↔◌, IsTrue, IfOk, MatchOption, true, false, length};
ghost use Rattle.ed25519.specs.Ed25519.{is_public_key, IsSignature};
ghost use Rattle.ed25519.specs.private_clauses.Combs.{IsCombOf};
ghost use Rattle.ed25519.specs.declared.field.FieldElement.{FieldElement};

use crate::comb::{comb_of, joint_by_combs};
use crate::decoding::decode;
use crate::encoding::is_encoding;
use crate::field::FieldElement;
use crate::joint::negative;
use crate::moduli::{Order, OrderModulus};
use crate::verification::challenge;
use edwards::factors::Addend;
use residues::montgomery::Montgomery;
use residues::residue::Residue;
use std::alloc::{AllocError, Global};

/// A public key, with a comb of the negative of its point, which keeps 32 KiB.
#[derive(Drop)]
pub struct PreparedKey {
    pub public: Vec<u8>,
    table: Vec<Addend<FieldElement>>,
    ghost is_key: { is_public_key public.items ≡ true },
    ghost size: { length table.items ≡ 256 },
    ghost comb: { ∥ IsCombOf FieldElement ⟦<FieldElement as Residue>⟧.number public.items table.items ∥₁ },
}

/// Returns the prepared key of these bytes. Returns `None` if they are no public key, as
/// `is_public_key` says.
pub fn prepare_key(alloc: Global, public: &[u8]) -> Result<Option<PreparedKey>, AllocError>
    ensures { IfOk result (λ o. MatchOption o (is_public_key public.now ≡ false)
        (λ k. (is_public_key public.now ≡ true) × (k.public.items ≡ public.now))) }
{
    if public.len() != 32 {
        return Ok(None);
    }
    let Some(key) = decode::<FieldElement>(public) else {
        return Ok(None);
    };
    let kept = public.to_vec(alloc)?;
    let table = comb_of(alloc, negative(key))?;
    Ok(Some(PreparedKey {
        public: kept,
        table,
    }))
}

/// Returns the bytes of the key, which are a public key.
pub fn public_bytes(key: &PreparedKey) -> &[u8]
    ensures value { result.now ≡ key.now.public.items }
    ensures is_key { is_public_key key.now.public.items ≡ true }
{
    key.public.as_slice()
}

/// Returns what `is_signature` returns for the bytes of the key. Allocates no memory.
pub fn is_signature_by(key: &PreparedKey, message: &[u8], signature: &[u8]) -> bool
    ensures { IsTrue result ↔ IsSignature key.now.public.items message.now signature.now }
{
    is_signature_by_over::<Montgomery<OrderModulus, 4>>(key, message, signature)
}

fn is_signature_by_over<N: Order>(key: &PreparedKey, message: &[u8], signature: &[u8]) -> bool
    ensures { IsTrue result ↔ IsSignature key.now.public.items message.now signature.now }
{
    if signature.len() != 64 {
        return false;
    }
    let (first, second) = signature.split_at(32);
    let Some(_s) = N::from_bytes(second) else {
        return false;
    };
    let challenge = challenge::<N>(first, key.public.as_slice(), message);
    is_encoding(
        first,
        joint_by_combs(key.table.as_slice(), second, &challenge),
    )
}
