//! The sum of a multiple of the base point and a multiple of another point, by windows of four bits
//! over both numbers at once.

// Windows have four bits, and the base point's multiples below the 16th are constants: a table of
// 255 would save 5 % and be 17 times as long.

ghost use Rattle.std.specs.Prelude.{◌≡◌, ◌+◌, ◌*◌, ◌<◌, ℕ, length};
ghost use Rattle.edwards.specs.Edwards.{Point};
ghost use Rattle.edwards.specs.Factors.{factor_numbers};
ghost use Rattle.edwards.specs.Numbers.{numbers};
ghost use Rattle.residues.specs.Bytes.{little_endian};
ghost use Rattle.edwards.specs.Group.{IsPoint, negative_of};
ghost use Rattle.ed25519.specs.Ed25519.{p, d, base};
ghost use Rattle.ed25519.specs.private_clauses.Prepared.{ArePrepared};
ghost use Rattle.ed25519.specs.Joint.{IsJoint};

use crate::base_table::base_addend;
use crate::field::FieldElement;
use crate::moduli::Field;
use edwards::factors::{
    Addend, Factors, add_affine, add_to, double_factors, extend, neutral_factors, prepare,
};
use edwards::points::{ExtendedPoint, neutral_point};
use residues::residue::Residue;

/// Returns the point (-x, y).
pub fn negative<F: Field>(point: ExtendedPoint<F>) -> ExtendedPoint<F>
    ensures { numbers F.number result ≡ negative_of p (numbers F.number point) }
{
    ExtendedPoint {
        x: F::zero().minus(point.x),
        y: point.y,
        z: point.z,
        t: F::zero().minus(point.t),
    }
}

/// Returns the sum of the base point's multiple by the first number and the point's multiple by the
/// second. The least significant byte of a number is its first.
pub fn joint_multiple(
    first: &[u8],
    second: &[u8],
    point: ExtendedPoint<FieldElement>,
) -> ExtendedPoint<FieldElement>
    requires first { length first.now ≡ 32 }
    requires second { length second.now ≡ 32 }
    ensures { IsPoint p d (numbers ⟦<FieldElement as Residue>⟧.number point)
        → IsJoint (numbers ⟦<FieldElement as Residue>⟧.number point)
        (little_endian first.now)
        (little_endian second.now)
        (numbers ⟦<FieldElement as Residue>⟧.number result) }
{
    let others = multiples(point);
    let mut result = neutral_factors();
    let mut i = 32;
    while i > 0 {
        i -= 1;
        let u = first[i];
        let v = second[i];
        result = step(result, &others, u / 16, v / 16);
        result = step(result, &others, u % 16, v % 16);
    }
    extend(result)
}

// The multiples of the point below the 16th.
fn multiples<F: Field>(point: ExtendedPoint<F>) -> [Addend<F>; 16]
    ensures { IsPoint p d (numbers F.number point)
        → ArePrepared F.number (numbers F.number point) 16 result }
{
    let twice_d = F::twice_curve_d();
    let one = prepare(twice_d, point);
    let mut last = neutral_point();
    let mut table = [prepare(twice_d, last); 16];
    for i in 1..16 {
        last = extend(add_to(last, one));
        table[i] = prepare(twice_d, last);
    }
    table
}

// Half a byte more of each number.
fn step(
    start: Factors<FieldElement>,
    others: &[Addend<FieldElement>; 16],
    first: u8,
    second: u8,
) -> Factors<FieldElement>
    requires first { first < 16 }
    requires second { second < 16 }
    ensures { (P : Point) (m n : ℕ)
        → ArePrepared ⟦<FieldElement as Residue>⟧.number P 16 others.now
        → IsJoint P m n (factor_numbers ⟦<FieldElement as Residue>⟧.number p start)
        → IsJoint P (16 * m + first) (16 * n + second)
        (factor_numbers ⟦<FieldElement as Residue>⟧.number p result) }
{
    add_of_base(add_of_other(sixteenfold(start), others, second), first)
}

// One of the base point's multiples more.
fn add_of_base(point: Factors<FieldElement>, digit: u8) -> Factors<FieldElement>
    requires { digit < 16 }
    ensures { (P : Point) (m n : ℕ)
        → IsJoint P m n (factor_numbers ⟦<FieldElement as Residue>⟧.number p point)
        → IsJoint P (m + digit) n
        (factor_numbers ⟦<FieldElement as Residue>⟧.number p result) }
{
    if digit == 0 {
        return point;
    }
    add_affine(extend(point), base_addend(digit))
}

// One of the other point's multiples more.
fn add_of_other<F: Field>(point: Factors<F>, others: &[Addend<F>; 16], digit: u8) -> Factors<F>
    requires { digit < 16 }
    ensures { (P : Point) (m n : ℕ) → ArePrepared F.number P 16 others.now
        → IsJoint P m n (factor_numbers F.number p point)
        → IsJoint P m (n + digit) (factor_numbers F.number p result) }
{
    if digit == 0 {
        return point;
    }
    add_to(extend(point), others[usize::from(digit)])
}

// 16 times the point.
fn sixteenfold<F: Field>(point: Factors<F>) -> Factors<F>
    ensures { (P : Point) (m n : ℕ) → IsJoint P m n (factor_numbers F.number p point)
        → IsJoint P (16 * m) (16 * n) (factor_numbers F.number p result) }
{
    double_factors(double_factors(double_factors(double_factors(point))))
}
