//! Points, and their sums by complete formulas (J. Renes, C. Costello and L. Batina, "Complete
//! addition formulas for prime order elliptic curves", 2016).

ghost use Rattle.std.specs.Prelude.{◌≡◌};
ghost use Rattle.weierstrass.specs.Weierstrass.{infinity, triple, products, sum_of, double_of};
ghost use Rattle.weierstrass.specs.Numbers.{numbers};
ghost use Rattle.residues.specs.Modulo.{plus, times};

use residues::residue::Residue;

/// A point: x = X / Z and y = Y / Z, and Z = 0 at the point at infinity.
#[derive(Clone, Copy)]
pub struct ProjectivePoint<F> {
    pub x: F,
    pub y: F,
    pub z: F,
}

/// Returns the point at infinity.
pub fn point_at_infinity<F: Residue>() -> ProjectivePoint<F>
    ensures { numbers F.number result ≡ infinity }
{
    ProjectivePoint {
        x: F::zero(),
        y: F::one(),
        z: F::zero(),
    }
}

/// Returns three times the residue.
#[inline(always)]
pub fn three_times<F: Residue>(a: F) -> F
    ensures { F.number result ≡ triple F.modulus (F.number a) }
{
    a.plus(a).plus(a)
}

/// Returns the sum of two points of the curve with this b.
pub fn add<F: Residue>(
    b: F,
    one: ProjectivePoint<F>,
    other: ProjectivePoint<F>,
) -> ProjectivePoint<F>
    ensures { numbers F.number result
        ≡ sum_of F.modulus (F.number b) (numbers F.number one) (numbers F.number other) }
{
    let xx = one.x.times(other.x);
    let yy = one.y.times(other.y);
    let zz = one.z.times(other.z);
    let xy = one.x.times(other.y).plus(other.x.times(one.y));
    let xz = one.x.times(other.z).plus(other.x.times(one.z));
    let yz = one.y.times(other.z).plus(other.y.times(one.z));
    let n = three_times(xz.minus(b.times(zz)));
    let w = three_times(b.times(xz).minus(xx).minus(three_times(zz)));
    let t = three_times(xx.minus(zz));
    multiply(xy, yz, yy, n, w, t)
}

/// Returns twice the point of the curve with this b.
pub fn double<F: Residue>(b: F, point: ProjectivePoint<F>) -> ProjectivePoint<F>
    ensures { numbers F.number result ≡ double_of F.modulus (F.number b) (numbers F.number point) }
{
    let xx = point.x.times(point.x);
    let yy = point.y.times(point.y);
    let zz = point.z.times(point.z);
    let xy = twice_product(point.x, point.y);
    let xz = twice_product(point.x, point.z);
    let yz = twice_product(point.y, point.z);
    let n = three_times(xz.minus(b.times(zz)));
    let w = three_times(b.times(xz).minus(xx).minus(three_times(zz)));
    let t = three_times(xx.minus(zz));
    multiply(xy, yz, yy, n, w, t)
}

// The last six products of a sum.
#[inline(always)]
fn multiply<F: Residue>(xy: F, yz: F, yy: F, n: F, w: F, t: F) -> ProjectivePoint<F>
    ensures { numbers F.number result
        ≡ products F.modulus (F.number xy) (F.number yz) (F.number yy) (F.number n) (F.number w)
        (F.number t) }
{
    let more = yy.plus(n);
    let less = yy.minus(n);
    ProjectivePoint {
        x: xy.times(more).minus(yz.times(w)),
        y: less.times(more).plus(t.times(w)),
        z: yz.times(less).plus(xy.times(t)),
    }
}

// a * b + a * b.
#[inline(always)]
fn twice_product<F: Residue>(a: F, b: F) -> F
    ensures { F.number result
        ≡ plus F.modulus (times F.modulus (F.number a) (F.number b))
        (times F.modulus (F.number a) (F.number b)) }
{
    let product = a.times(b);
    product.plus(product)
}
