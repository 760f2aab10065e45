//! Points of curves y^2 = x^3 - 3x + b, over any residues. Nothing here allocates, and nothing runs
//! in constant time.
//!
//! For `ecdsa`, and for whoever needs another such curve. [`points`] has a point in homogeneous
//! projective coordinates X, Y and Z with x = X / Z and y = Y / Z, the point at infinity, and sums
//! and doubles by the complete formulas of Renes, Costello and Batina: `add(b, one, other)` has no
//! exception. [`jacobian`] doubles and adds with fewer products, in Jacobian coordinates, and
//! [`entries`] adds the rows of a table.
//!
//! The contracts say which numbers the formulas give. That these are sums by chords and tangents,
//! and that the points are a group, is a theorem, for every field over which the curve has no point
//! of order 2: [`group_law`] does nothing, and its contract is the theorem, for the definitions of
//! `specs/Group.antt`. Associativity is an identity of polynomials, by cases of which points are
//! the same, which `tools/certificates/weierstrass_identities` writes and the prover computes by
//! one multiplication of large numbers (`algebra`).
#![tactic(auto)]

ghost use Rattle.std.specs.Prelude.{ℕ};
ghost use Rattle.weierstrass.specs.Group.{IsCurve, IsGroup};

pub mod entries;
pub mod jacobian;
pub mod points;

/// States the group law: does nothing, and its contract is the theorem.
pub fn group_law()
    ensures { (p b : ℕ) → IsCurve p b → IsGroup p b }
{}
