//! The group of the curve's points.

ghost use Rattle.ed25519.specs.Ed25519.{p, d};
ghost use Rattle.ed25519.specs.Joint.{IsBase};
ghost use Rattle.edwards.specs.Group.{IsCurve, IsGroup};
ghost use Rattle.algebra.specs.Primes.{IsPrime};

/// States that the points of Ed25519 are a group: does nothing, and its contract is the theorem.
/// The number modulo which points are taken is a prime, the sum of the definition has no exception,
/// and the base point's multiple by the order is the neutral point.
pub fn group_law()
    ensures prime { IsPrime p }
    ensures curve { IsCurve p d }
    ensures group { IsGroup p d }
    ensures base { IsBase }
{}
