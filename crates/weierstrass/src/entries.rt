//! Points in Jacobian coordinates with the powers of Z that sums with them need, and sixteen of
//! these.

ghost use Rattle.std.specs.Prelude.{◌≡◌, ◌<◌};
ghost use Rattle.weierstrass.specs.Group.{spot_point};
ghost use Rattle.weierstrass.specs.private_clauses.Entries.{picked, entry_of, IsEntry};
ghost use Rattle.weierstrass.specs.private_clauses.Formulas.{jacobian_sum};
ghost use Rattle.weierstrass.specs.Numbers.{numbers};

use crate::jacobian::{add, add_affine};
use crate::points::ProjectivePoint;
use residues::residue::Residue;

/// A point, Z^2 and Z^3.
#[derive(Clone, Copy)]
pub struct Entry<F> {
    pub point: ProjectivePoint<F>,
    pub zz: F,
    pub zzz: F,
}

/// Four points.
#[derive(Clone, Copy)]
pub struct Four<F> {
    pub zero: Entry<F>,
    pub one: Entry<F>,
    pub two: Entry<F>,
    pub three: Entry<F>,
}

/// Sixteen points.
#[derive(Clone, Copy)]
pub struct Sixteen<F> {
    pub zero: Four<F>,
    pub one: Four<F>,
    pub two: Four<F>,
    pub three: Four<F>,
}

/// Returns the entry of the point.
pub fn entry_for<F: Residue>(point: ProjectivePoint<F>) -> Entry<F>
    ensures same { result.point ≡ point }
    ensures kept { IsEntry F F.modulus F.number result }
{
    let zz = point.z.times(point.z);
    let zzz = point.z.times(zz);
    Entry { point, zz, zzz }
}

/// Returns the entry of this digit, which is below 16.
pub fn entry_at<F: Residue>(table: &Sixteen<F>, digit: u8) -> Entry<F>
    requires { digit < 16 }
    ensures { result ≡ entry_of table.now digit }
{
    let high = digit / 4;
    if high == 0 {
        return pick(&table.zero, digit % 4);
    }
    if high == 1 {
        return pick(&table.one, digit % 4);
    }
    if high == 2 {
        return pick(&table.two, digit % 4);
    }
    pick(&table.three, digit % 4)
}

/// Returns the sum with the entry's point.
pub fn add_entry<F: Residue>(start: ProjectivePoint<F>, more: Entry<F>) -> ProjectivePoint<F>
    requires { IsEntry F F.modulus F.number more }
    ensures { numbers F.number result
        ≡ jacobian_sum F.modulus (numbers F.number start) (numbers F.number more.point) }
{
    let Entry { point, zz, zzz } = more;
    add(start, point, zz, zzz)
}

/// Returns four entries: this one, and each the sum of the one before and the point of these
/// coordinates, whose z is 1.
pub fn four_from<F: Residue>(start: Entry<F>, x: F, y: F) -> Four<F>
    requires { IsEntry F F.modulus F.number start }
    ensures start { result.zero.point ≡ start.point }
    ensures zero { IsEntry F F.modulus F.number result.zero }
    ensures one { IsEntry F F.modulus F.number result.one }
    ensures two { IsEntry F F.modulus F.number result.two }
    ensures three { IsEntry F F.modulus F.number result.three }
    ensures one_is { numbers F.number result.one.point
        ≡ jacobian_sum F.modulus (numbers F.number result.zero.point) (spot_point (F.number x)
        (F.number y)) }
    ensures two_is { numbers F.number result.two.point
        ≡ jacobian_sum F.modulus (numbers F.number result.one.point) (spot_point (F.number x)
        (F.number y)) }
    ensures three_is { numbers F.number result.three.point
        ≡ jacobian_sum F.modulus (numbers F.number result.two.point) (spot_point (F.number x)
        (F.number y)) }
{
    let Entry { point, zz, zzz } = start;
    let one = add_affine(point, x, y);
    let two = add_affine(one, x, y);
    let three = add_affine(two, x, y);
    Four {
        zero: Entry { point, zz, zzz },
        one: entry_for(one),
        two: entry_for(two),
        three: entry_for(three),
    }
}

/// Returns the entry of the sum of the last of these and the point of these coordinates, whose z is
/// 1.
pub fn following<F: Residue>(four: &Four<F>, x: F, y: F) -> Entry<F>
    ensures kept { IsEntry F F.modulus F.number result }
    ensures sum { numbers F.number result.point
        ≡ jacobian_sum F.modulus (numbers F.number four.now.three.point) (spot_point (F.number x)
        (F.number y)) }
{
    entry_for(add_affine(four.three.point, x, y))
}

// The entry of this digit, which is below 4.
fn pick<F: Residue>(four: &Four<F>, digit: u8) -> Entry<F>
    requires { digit < 4 }
    ensures { result ≡ picked four.now digit }
{
    if digit == 0 {
        return four.zero;
    }
    if digit == 1 {
        return four.one;
    }
    if digit == 2 {
        return four.two;
    }
    four.three
}
