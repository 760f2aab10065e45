//! The sum of a multiple of a curve's base point and a multiple of another point, by windows of
//! four bits over both numbers at once.

// Windows have four bits, and the base point's multiples below the 16th are constants: a table of
// 255 would save 5 % and be 17 times as long.

ghost use Rattle.std.specs.Prelude.{◌≡◌, ℕ, ◌+◌, ◌*◌, ◌<◌, length};
ghost use Rattle.weierstrass.specs.Numbers.{numbers};
ghost use Rattle.weierstrass.specs.Weierstrass.{Point};
ghost use Rattle.weierstrass.specs.Group.{spot_point};
ghost use Rattle.weierstrass.specs.Joint.{IsJoint};
ghost use Rattle.weierstrass.specs.private_clauses.Entries.{entry_of, IsEntry, AreMultiples};
ghost use Rattle.weierstrass.specs.private_clauses.Formulas.{IsJointOf, jacobian_times};

use crate::bases::BaseMultiples;
use residues::residue::Residue;
use weierstrass::entries::{Sixteen, add_entry, entry_at, entry_for, following, four_from};
use weierstrass::jacobian::{add_affine, double, nothing, projective};
use weierstrass::points::ProjectivePoint;

/// Returns the sum of the base point's multiple by the first number and the multiple of a point, of
/// Z = 1, by the second. The least significant byte of a number is its first.
pub fn joint_multiple<F: BaseMultiples>(
    first: &[u8],
    second: &[u8],
    point: ProjectivePoint<F>,
) -> ProjectivePoint<F>
    requires lengths { length first.now ≡ length second.now }
    requires affine { F.number point.z ≡ 1 }
    ensures { IsJoint F.modulus F.b first.now F.base second.now (numbers F.number point)
        (numbers F.number result) }
{
    let others = entries(point.x, point.y);
    let mut result = nothing();
    let mut i = first.len();
    while i > 0 {
        i -= 1;
        let u = first[i];
        let v = second[i];
        result = step(result, &others, u / 16, v / 16);
        result = step(result, &others, u % 16, v % 16);
    }
    projective(result)
}

// The entries from the point at infinity on, each the sum of the one before and the point of these
// coordinates, whose z is 1.
fn entries<F: Residue>(x: F, y: F) -> Sixteen<F>
    ensures kept { (k : ℕ) → k < 16 → IsEntry F F.modulus F.number (entry_of result k) }
    ensures sums { (k : ℕ) → k < 16 → numbers F.number (entry_of result k).point
        ≡ jacobian_times F.modulus k (spot_point (F.number x) (F.number y)) }
{
    let zero = four_from(entry_for(nothing()), x, y);
    let one = four_from(following(&zero, x, y), x, y);
    let two = four_from(following(&one, x, y), x, y);
    let three = four_from(following(&two, x, y), x, y);
    Sixteen {
        zero,
        one,
        two,
        three,
    }
}

// Half a byte more of each number.
fn step<F: BaseMultiples>(
    start: ProjectivePoint<F>,
    others: &Sixteen<F>,
    first: u8,
    second: u8,
) -> ProjectivePoint<F>
    requires first { first < 16 }
    requires second { second < 16 }
    requires kept { (k : ℕ) → k < 16 → IsEntry F F.modulus F.number (entry_of others.now k) }
    ensures { (P : Point) (m n : ℕ) → AreMultiples F F.modulus F.b F.number P others.now
        → IsJointOf F.modulus F.b m F.base n P (numbers F.number start)
        → IsJointOf F.modulus F.b (16 * m + first) F.base (16 * n + second) P
        (numbers F.number result) }
{
    add_of_base(add_of_other(sixteenfold(start), others, second), first)
}

// One of the base point's multiples more.
fn add_of_base<F: BaseMultiples>(start: ProjectivePoint<F>, digit: u8) -> ProjectivePoint<F>
    requires { digit < 16 }
    ensures { (P : Point) (m n : ℕ) → IsJointOf F.modulus F.b m F.base n P (numbers F.number start)
        → IsJointOf F.modulus F.b (m + digit) F.base n P (numbers F.number result) }
{
    if digit == 0 {
        return start;
    }
    let (x, y) = F::base_multiple(digit);
    add_affine(start, x, y)
}

// One of the other point's multiples more.
fn add_of_other<F: BaseMultiples>(
    start: ProjectivePoint<F>,
    others: &Sixteen<F>,
    digit: u8,
) -> ProjectivePoint<F>
    requires few { digit < 16 }
    requires kept { (k : ℕ) → k < 16 → IsEntry F F.modulus F.number (entry_of others.now k) }
    ensures { (P : Point) (m n : ℕ) → AreMultiples F F.modulus F.b F.number P others.now
        → IsJointOf F.modulus F.b m F.base n P (numbers F.number start)
        → IsJointOf F.modulus F.b m F.base (n + digit) P (numbers F.number result) }
{
    add_entry(start, entry_at(others, digit))
}

// 16 times the point.
fn sixteenfold<F: BaseMultiples>(start: ProjectivePoint<F>) -> ProjectivePoint<F>
    ensures { (P : Point) (m n : ℕ) → IsJointOf F.modulus F.b m F.base n P (numbers F.number start)
        → IsJointOf F.modulus F.b (16 * m) F.base (16 * n) P (numbers F.number result) }
{
    double(double(double(double(start))))
}
