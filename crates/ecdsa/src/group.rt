//! The groups of the two curves' points.

ghost use Rattle.ecdsa.specs.Curves.{p256, n256, b256, base256, p384, n384, b384, base384};
ghost use Rattle.algebra.specs.Primes.{IsPrime};
ghost use Rattle.weierstrass.specs.Group.{IsCurve, IsPoint, IsGroup, HasOrder};

/// States that the points of P-256 are a group: does nothing, and its contract is the theorem. The
/// sum of the definition is the one by chords and tangents, without an exception; the number modulo
/// which points are taken and the order of the base point are primes.
pub fn group_law_256()
    ensures prime { IsPrime p256 }
    ensures order_prime { IsPrime n256 }
    ensures curve { IsCurve p256 b256 }
    ensures group { IsGroup p256 b256 }
    ensures base { IsPoint p256 b256 base256 }
    ensures order { HasOrder p256 b256 n256 base256 }
{}

/// States this for P-384.
pub fn group_law_384()
    ensures prime { IsPrime p384 }
    ensures order_prime { IsPrime n384 }
    ensures curve { IsCurve p384 b384 }
    ensures group { IsGroup p384 b384 }
    ensures base { IsPoint p384 b384 base384 }
    ensures order { HasOrder p384 b384 n384 base384 }
{}
