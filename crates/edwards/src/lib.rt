//! Points of twisted Edwards curves -x^2 + y^2 = 1 + d x^2 y^2 in extended homogeneous coordinates
//! (RFC 8032 section 5.1.4), over any residues. Nothing here allocates, and nothing runs in
//! constant time.
//!
//! For `ed25519`, and for whoever needs another such curve. [`points::ExtendedPoint`] is a point,
//! and `is_same_point` compares two. [`factors`] has sums and doubles whose last products are left
//! out until they are asked for: `extend(add_to(point, prepare(twice_d, other)))` is the sum of two
//! points.
//!
//! The contracts say which numbers the formulas give, by the text of the RFC. That the points are a
//! group is a theorem, for every field in which -1 is a square and d is none: [`group_law`] does
//! nothing, and its contract is the theorem, for the definitions of `specs/Group.antt`. The sum of
//! the definition has no exception then, which is proved first; associativity is an identity of
//! polynomials modulo the three points' equations, which `tools/certificates/edwards_identities`
//! writes and the prover computes. What a proof of another crate takes from here stands in
//! `proofs/`, such as that multiples add up, and that a point's y has the x that its equation says.
#![tactic(auto)]

ghost use Rattle.std.specs.Prelude.{ℕ};
ghost use Rattle.edwards.specs.Group.{IsField, IsCurve, IsGroup};

pub mod factors;
pub mod points;

/// States the group law: does nothing, and its contract is the theorem.
pub fn group_law()
    ensures { (p d : ℕ) → IsField p → IsCurve p d → IsGroup p d }
{}
