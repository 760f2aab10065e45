//! Sums and doubles, whose last products are left out until they are asked for: a double needs
//! three of the four.

ghost use Rattle.std.specs.Prelude.{◌≡◌};
ghost use Rattle.edwards.specs.Edwards.{neutral, double_of};
ghost use Rattle.edwards.specs.Factors.{addend_of, sum_with, factor_numbers, addend_numbers};
ghost use Rattle.edwards.specs.Factors.{affine_numbers};
ghost use Rattle.edwards.specs.Numbers.{numbers};

use crate::points::ExtendedPoint;
use residues::residue::Residue;

/// The factors of a point's coordinates: X = E F, Y = G H, Z = F G, T = E H.
#[derive(Clone, Copy)]
pub struct Factors<F> {
    pub e: F,
    pub f: F,
    pub g: F,
    pub h: F,
}

/// The numbers that a sum takes of its second point: y + x, y - x, 2 z and 2 d t.
#[derive(Clone, Copy)]
pub struct Addend<F> {
    pub sum: F,
    pub difference: F,
    pub twice_z: F,
    pub scaled_t: F,
}

/// The numbers that a sum takes of a second point with z = 1: y + x, y - x and 2 d t.
#[derive(Clone, Copy)]
pub struct AffineAddend<F> {
    pub sum: F,
    pub difference: F,
    pub scaled_t: F,
}

/// Returns the factors of the neutral point.
pub fn neutral_factors<F: Residue>() -> Factors<F>
    ensures { factor_numbers F.number F.modulus result ≡ neutral }
{
    Factors {
        e: F::zero(),
        f: F::one(),
        g: F::one(),
        h: F::one(),
    }
}

/// Returns the point of these factors.
pub fn extend<F: Residue>(factors: Factors<F>) -> ExtendedPoint<F>
    ensures { numbers F.number result ≡ factor_numbers F.number F.modulus factors }
{
    ExtendedPoint {
        x: factors.e.times(factors.f),
        y: factors.g.times(factors.h),
        z: factors.f.times(factors.g),
        t: factors.e.times(factors.h),
    }
}

/// Returns twice the point.
pub fn double_factors<F: Residue>(factors: Factors<F>) -> Factors<F>
    ensures { factor_numbers F.number F.modulus result
        ≡ double_of F.modulus (factor_numbers F.number F.modulus factors) }
{
    let x = factors.e.times(factors.f);
    let y = factors.g.times(factors.h);
    let z = factors.f.times(factors.g);
    let a = x.square();
    let b = y.square();
    let zz = z.square();
    let c = zz.plus(zz);
    let h = a.plus(b);
    let e = h.minus(x.plus(y).square());
    let g = a.minus(b);
    let f = c.plus(g);
    Factors { e, f, g, h }
}

/// Returns the numbers that a sum takes of this point. `twice_d` is twice the curve's d.
pub fn prepare<F: Residue>(twice_d: F, point: ExtendedPoint<F>) -> Addend<F>
    ensures { addend_numbers F.number result
        ≡ addend_of F.modulus (F.number twice_d) (numbers F.number point) }
{
    Addend {
        sum: point.y.plus(point.x),
        difference: point.y.minus(point.x),
        twice_z: point.z.plus(point.z),
        scaled_t: twice_d.times(point.t),
    }
}

/// Returns the sum of the point and the one that the addend is of.
pub fn add_to<F: Residue>(point: ExtendedPoint<F>, other: Addend<F>) -> Factors<F>
    ensures { factor_numbers F.number F.modulus result
        ≡ sum_with F.modulus (numbers F.number point) (addend_numbers F.number other) }
{
    let a = point.y.minus(point.x).times(other.difference);
    let b = point.y.plus(point.x).times(other.sum);
    let c = point.t.times(other.scaled_t);
    let d = point.z.times(other.twice_z);
    Factors {
        e: b.minus(a),
        f: d.minus(c),
        g: d.plus(c),
        h: b.plus(a),
    }
}

/// Returns the sum of the point and the one that the addend is of, whose z is 1.
pub fn add_affine<F: Residue>(point: ExtendedPoint<F>, other: AffineAddend<F>) -> Factors<F>
    ensures { factor_numbers F.number F.modulus result
        ≡ sum_with F.modulus (numbers F.number point)
        (affine_numbers F.number F.modulus other) }
{
    let a = point.y.minus(point.x).times(other.difference);
    let b = point.y.plus(point.x).times(other.sum);
    let c = point.t.times(other.scaled_t);
    let d = point.z.plus(point.z);
    Factors {
        e: b.minus(a),
        f: d.minus(c),
        g: d.plus(c),
        h: b.plus(a),
    }
}
