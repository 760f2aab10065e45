//! The sum of a multiple of the base point and a multiple of another point that has a table, by
//! combs of eight teeth.

ghost use Rattle.std.specs.Prelude.{◌≡◌, ◌+◌, ◌*◌, ◌^◌, ◌<◌, ℕ, length, IfOk};
ghost use Rattle.combs.specs.Combs.{spread};
ghost use Rattle.edwards.specs.Edwards.{Point};
ghost use Rattle.edwards.specs.Factors.{factor_numbers, addend_numbers};
ghost use Rattle.edwards.specs.Numbers.{numbers};
ghost use Rattle.residues.specs.Bytes.{little_endian};
ghost use Rattle.edwards.specs.Group.{IsPoint};
ghost use Rattle.ed25519.specs.Ed25519.{p, d, base};
ghost use Rattle.ed25519.specs.private_clauses.Prepared.{IsMultiple, IsPrepared};
ghost use Rattle.ed25519.specs.private_clauses.Combs.{AreSpread, IsComb};
ghost use Rattle.ed25519.specs.Joint.{IsJoint};

use crate::base_comb::comb_addend;
use crate::field::FieldElement;
use crate::moduli::Field;
use combs::comb_digit;
use edwards::factors::{
    Addend, Factors, add_affine, add_to, double_factors, extend, neutral_factors, prepare,
};
use edwards::points::{ExtendedPoint, neutral_point};
use residues::residue::Residue;
use std::alloc::{AllocError, Global};

/// Returns the multiples of the point by the numbers below 256, whose bits stand 32 places apart.
pub(crate) fn comb_of<F: Field>(
    alloc: Global,
    point: ExtendedPoint<F>,
) -> Result<Vec<Addend<F>>, AllocError>
    ensures size { IfOk result (λ t. length t.items ≡ 256) }
    ensures comb { IfOk result (λ t. IsPoint p d (numbers F.number point)
        → IsComb F F.number (numbers F.number point) t.items) }
{
    let points = multiples(alloc, point)?;
    addends(alloc, points.as_slice())
}

/// Returns the sum of the base point's multiple by the first number and the multiple of the table's
/// point by the second. The least significant byte of a number is its first.
pub(crate) fn joint_by_combs(
    table: &[Addend<FieldElement>],
    first: &[u8],
    second: &[u8],
) -> ExtendedPoint<FieldElement>
    requires table { length table.now ≡ 256 }
    requires first { length first.now ≡ 32 }
    requires second { length second.now ≡ 32 }
    ensures { (P : Point) → IsPoint p d P
        → IsComb FieldElement ⟦<FieldElement as Residue>⟧.number P table.now
        → IsJoint P (little_endian first.now) (little_endian second.now)
        (numbers ⟦<FieldElement as Residue>⟧.number result) }
{
    let mut result = neutral_factors();
    let mut place = 32;
    while place > 0 {
        place -= 1;
        result = column(
            result,
            table,
            comb_digit(first, place),
            comb_digit(second, place),
        );
    }
    extend(result)
}

// The multiples by the numbers below 256, spread.
fn multiples<F: Field>(
    alloc: Global,
    point: ExtendedPoint<F>,
) -> Result<Vec<ExtendedPoint<F>>, AllocError>
    ensures size { IfOk result (λ v. length v.items ≡ 256) }
    ensures spread { IfOk result (λ v. IsPoint p d (numbers F.number point)
        → AreSpread F F.number (numbers F.number point) v.items) }
{
    let mut points = Vec::new(alloc);
    points.push(neutral_point())?;
    let mut tooth = point;
    for _t in 0..8u8 {
        add_tooth(&mut points, prepare(F::twice_curve_d(), tooth))?;
        tooth = doubled(tooth);
    }
    Ok(points)
}

// The points, and after them the sum of each with the tooth.
fn add_tooth<F: Field>(
    points: &mut Vec<ExtendedPoint<F>>,
    tooth: Addend<F>,
) -> Result<(), AllocError>
    ensures size { IfOk result (λ _. length points.new.items ≡ 2 * length points.old.items) }
    ensures spread { IfOk result (λ _. (t : ℕ) (P : Point) → t < 8
        → length points.old.items ≡ 2 ^ t
        → IsPoint p d P
        → AreSpread F F.number P points.old.items
        → IsPrepared P (2 ^ (32 * t)) (addend_numbers F.number tooth)
        → AreSpread F F.number P points.new.items) }
{
    for i in 0..points.len() {
        let sum = extend(add_to(points[i], tooth));
        points.push(sum)?;
    }
    Ok(())
}

// 2 ^ 32 times the point.
fn doubled<F: Field>(point: ExtendedPoint<F>) -> ExtendedPoint<F>
    ensures { (P : Point) (m : ℕ) → IsPoint p d P → IsMultiple P m (numbers F.number point)
        → IsMultiple P (2 ^ 32 * m) (numbers F.number result) }
{
    let mut result = point;
    for _i in 0..32u8 {
        result = extend(add_to(result, prepare(F::twice_curve_d(), result)));
    }
    result
}

// What sums take of the points.
fn addends<F: Field>(
    alloc: Global,
    points: &[ExtendedPoint<F>],
) -> Result<Vec<Addend<F>>, AllocError>
    ensures size { IfOk result (λ t. length t.items ≡ length points.now) }
    ensures comb { IfOk result (λ t. (P : Point) → AreSpread F F.number P points.now
        → IsComb F F.number P t.items) }
{
    let twice_d = F::twice_curve_d();
    let mut table = Vec::new(alloc);
    for i in 0..points.len() {
        table.push(prepare(twice_d, points[i]))?;
    }
    Ok(table)
}

// Twice the point, and a multiple of each comb more.
fn column(
    start: Factors<FieldElement>,
    table: &[Addend<FieldElement>],
    first: u8,
    second: u8,
) -> Factors<FieldElement>
    requires { length table.now ≡ 256 }
    ensures { (P : Point) (m n : ℕ)
        → IsComb FieldElement ⟦<FieldElement as Residue>⟧.number P table.now
        → IsJoint P m n (factor_numbers ⟦<FieldElement as Residue>⟧.number p start)
        → IsJoint P (2 * m + spread 32 8 first) (2 * n + spread 32 8 second)
        (factor_numbers ⟦<FieldElement as Residue>⟧.number p result) }
{
    add_of_table(add_of_base(double_factors(start), first), table, second)
}

// A multiple of the base point more.
fn add_of_base(point: Factors<FieldElement>, digit: u8) -> Factors<FieldElement>
    ensures { (P : Point) (m n : ℕ)
        → IsJoint P m n (factor_numbers ⟦<FieldElement as Residue>⟧.number p point)
        → IsJoint P (m + spread 32 8 digit) n
        (factor_numbers ⟦<FieldElement as Residue>⟧.number p result) }
{
    if digit == 0 {
        return point;
    }
    add_affine(extend(point), comb_addend(digit))
}

// A multiple of the table's point more.
fn add_of_table<F: Field>(point: Factors<F>, table: &[Addend<F>], digit: u8) -> Factors<F>
    requires { length table.now ≡ 256 }
    ensures { (P : Point) (m n : ℕ) → IsComb F F.number P table.now
        → IsJoint P m n (factor_numbers F.number p point)
        → IsJoint P m (n + spread 32 8 digit) (factor_numbers F.number p result) }
{
    if digit == 0 {
        return point;
    }
    add_to(extend(point), table[usize::from(digit)])
}
