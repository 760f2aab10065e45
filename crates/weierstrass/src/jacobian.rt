//! Sums in Jacobian coordinates: x = X / Z^2 and y = Y / Z^3, and Z = 0 at the point at infinity.

// P-256 and P-384 are computed in Jacobian coordinates, whose double takes 8 products, where the
// complete formulas take 14; a sum asks for its exceptional cases.

ghost use Rattle.std.specs.Prelude.{◌≡◌};
ghost use Rattle.weierstrass.specs.Group.{spot_point};
ghost use Rattle.weierstrass.specs.private_clauses.Formulas.{jacobian_double};
ghost use Rattle.weierstrass.specs.private_clauses.Formulas.{jacobian_finite, jacobian_last};
ghost use Rattle.weierstrass.specs.private_clauses.Formulas.{jacobian_sum, projective_of};
ghost use Rattle.residues.specs.Modulo.{times};
ghost use Rattle.weierstrass.specs.Numbers.{numbers};

use crate::points::{ProjectivePoint, point_at_infinity, three_times};
use residues::residue::Residue;

/// Returns twice the point.
pub fn double<F: Residue>(point: ProjectivePoint<F>) -> ProjectivePoint<F>
    ensures { numbers F.number result ≡ jacobian_double F.modulus (numbers F.number point) }
{
    let delta = point.z.times(point.z);
    let y2 = point.y.plus(point.y);
    let gamma2 = y2.times(point.y);
    let b2 = point.x.times(gamma2);
    let alpha = three_times(point.x.minus(delta).times(point.x.plus(delta)));
    let b4 = b2.plus(b2);
    let x = alpha.times(alpha).minus(b4.plus(b4));
    let g4 = gamma2.times(gamma2);
    ProjectivePoint {
        x,
        y: alpha.times(b4.minus(x)).minus(g4.plus(g4)),
        z: y2.times(point.z),
    }
}

/// Returns the point at infinity.
pub fn nothing<F: Residue>() -> ProjectivePoint<F>
    ensures { numbers F.number result ≡ record { x = 1; y = 1; z = 0 } }
{
    ProjectivePoint {
        x: F::one(),
        y: F::one(),
        z: F::zero(),
    }
}

/// Returns the sum of two points, of which the other comes with the square and the cube of its z.
pub fn add<F: Residue>(
    one: ProjectivePoint<F>,
    other: ProjectivePoint<F>,
    zz: F,
    zzz: F,
) -> ProjectivePoint<F>
    requires square { F.number zz ≡ times F.modulus (F.number other.z) (F.number other.z) }
    requires cube { F.number zzz ≡ times F.modulus (F.number other.z) (times F.modulus
        (F.number other.z) (F.number other.z)) }
    ensures { numbers F.number result
        ≡ jacobian_sum F.modulus (numbers F.number one) (numbers F.number other) }
{
    if one.z.is_same(F::zero()) {
        return other;
    }
    if other.z.is_same(F::zero()) {
        return one;
    }
    add_finite(one, other, zz, zzz)
}

/// Returns the sum of a point and the start with these coordinates, whose z is 1.
pub fn add_affine<F: Residue>(start: ProjectivePoint<F>, x: F, y: F) -> ProjectivePoint<F>
    ensures { numbers F.number result
        ≡ jacobian_sum F.modulus (numbers F.number start) (spot_point (F.number x) (F.number y)) }
{
    if start.z.is_same(F::zero()) {
        return ProjectivePoint { x, y, z: F::one() };
    }
    add_finite_affine(start, x, y)
}

/// Returns the projective point.
pub fn projective<F: Residue>(point: ProjectivePoint<F>) -> ProjectivePoint<F>
    ensures { numbers F.number result ≡ projective_of F.modulus (numbers F.number point) }
{
    if point.z.is_same(F::zero()) {
        return point_at_infinity();
    }
    ProjectivePoint {
        x: point.x.times(point.z),
        y: point.y,
        z: point.z.times(point.z.times(point.z)),
    }
}

// The sum of finite points, of which the other comes with the square and the cube of its z.
fn add_finite<F: Residue>(
    one: ProjectivePoint<F>,
    other: ProjectivePoint<F>,
    zz: F,
    zzz: F,
) -> ProjectivePoint<F>
    requires square { F.number zz ≡ times F.modulus (F.number other.z) (F.number other.z) }
    requires cube { F.number zzz ≡ times F.modulus (F.number other.z) (times F.modulus
        (F.number other.z) (F.number other.z)) }
    ensures { numbers F.number result
        ≡ jacobian_finite F.modulus (numbers F.number one) (numbers F.number other) }
{
    let square = one.z.times(one.z);
    let u = one.x.times(zz);
    let s = one.y.times(zzz);
    let h = other.x.times(square).minus(u);
    let r = other.y.times(one.z.times(square)).minus(s);
    if h.is_same(F::zero()) {
        if r.is_same(F::zero()) {
            return double(one);
        }
        return nothing();
    }
    last(one.z.times(other.z), u, s, h, r)
}

// The last lines of a sum.
#[inline(always)]
fn last<F: Residue>(zz: F, u: F, s: F, h: F, r: F) -> ProjectivePoint<F>
    ensures { numbers F.number result
        ≡ jacobian_last F.modulus (F.number zz) (F.number u) (F.number s) (F.number h)
        (F.number r) }
{
    let hh = h.times(h);
    let hhh = h.times(hh);
    let v = u.times(hh);
    let x = r.times(r).minus(hhh).minus(v.plus(v));
    ProjectivePoint {
        x,
        y: r.times(v.minus(x)).minus(s.times(hhh)),
        z: zz.times(h),
    }
}

// The sum of finite points, of which the other has z = 1.
fn add_finite_affine<F: Residue>(start: ProjectivePoint<F>, x: F, y: F) -> ProjectivePoint<F>
    ensures { numbers F.number result
        ≡ jacobian_finite F.modulus (numbers F.number start) (spot_point (F.number x)
        (F.number y)) }
{
    let square = start.z.times(start.z);
    let h = x.times(square).minus(start.x);
    let r = y.times(start.z.times(square)).minus(start.y);
    if h.is_same(F::zero()) {
        if r.is_same(F::zero()) {
            return double(start);
        }
        return nothing();
    }
    last(start.z, start.x, start.y, h, r)
}
