//! The sum of a multiple of a curve's base point and a multiple of another point that has a table,
//! by combs of eight teeth: a number is cut into eight parts, and the bits at one place of all parts
//! choose a multiple of the table.

ghost use Rattle.std.specs.Prelude.{◌≡◌, ℕ, ◌+◌, ◌*◌, ◌%◌, length};
ghost use Rattle.weierstrass.specs.Numbers.{numbers};
ghost use Rattle.weierstrass.specs.Weierstrass.{Point};
ghost use Rattle.weierstrass.specs.Joint.{IsJoint};
ghost use Rattle.weierstrass.specs.private_clauses.Formulas.{IsJointOf};
ghost use Rattle.combs.specs.Combs.{spread};
ghost use Rattle.ecdsa.specs.private_clauses.Combs.{IsComb};

use crate::base_combs::BaseCombs;
use crate::spots::Spot;
use combs::comb_digit;
use residues::residue::Residue;
use weierstrass::jacobian::{add_affine, double, nothing, projective};
use weierstrass::points::ProjectivePoint;

/// Returns the sum of the base point's multiple by the first number and the multiple of the table's
/// point by the second. The least significant byte of a number is its first.
pub(crate) fn joint_by_combs<F: BaseCombs>(
    table: &[Spot<F>],
    first: &[u8],
    second: &[u8],
) -> ProjectivePoint<F>
    requires table { length table.now ≡ 255 }
    requires first { length first.now ≡ F.spacing }
    requires second { length second.now ≡ F.spacing }
    requires parts { F.spacing % 8 ≡ 0 }
    ensures { (P : Point) → IsComb F F.modulus F.b F.number F.spacing P table.now
        → IsJoint F.modulus F.b first.now F.base second.now P (numbers F.number result) }
{
    let mut result = nothing();
    let mut place = first.len();
    while place > 0 {
        place -= 1;
        result = column(
            result,
            table,
            comb_digit(first, place),
            comb_digit(second, place),
        );
    }
    projective(result)
}

// Twice the point, and a multiple of each comb more.
fn column<F: BaseCombs>(
    start: ProjectivePoint<F>,
    table: &[Spot<F>],
    first: u8,
    second: u8,
) -> ProjectivePoint<F>
    requires { length table.now ≡ 255 }
    ensures { (m n : ℕ) (P : Point) → IsComb F F.modulus F.b F.number F.spacing P table.now
        → IsJointOf F.modulus F.b m F.base n P (numbers F.number start)
        → IsJointOf F.modulus F.b (2 * m + spread F.spacing 8 first) F.base
        (2 * n + spread F.spacing 8 second) P (numbers F.number result) }
{
    add_of_table(add_of_base(double(start), first), table, second)
}

// A multiple of the base point more.
fn add_of_base<F: BaseCombs>(start: ProjectivePoint<F>, digit: u8) -> ProjectivePoint<F>
    ensures { (m n : ℕ) (P : Point)
        → IsJointOf F.modulus F.b m F.base n P (numbers F.number start)
        → IsJointOf F.modulus F.b (m + spread F.spacing 8 digit) F.base n P
        (numbers F.number result) }
{
    if digit == 0 {
        return start;
    }
    let (x, y) = F::comb_multiple(digit);
    add_affine(start, x, y)
}

// A multiple of the table's point more.
fn add_of_table<F: BaseCombs>(
    start: ProjectivePoint<F>,
    table: &[Spot<F>],
    digit: u8,
) -> ProjectivePoint<F>
    requires { length table.now ≡ 255 }
    ensures { (m n : ℕ) (P : Point) → IsComb F F.modulus F.b F.number F.spacing P table.now
        → IsJointOf F.modulus F.b m F.base n P (numbers F.number start)
        → IsJointOf F.modulus F.b m F.base (n + spread F.spacing 8 digit) P
        (numbers F.number result) }
{
    if digit == 0 {
        return start;
    }
    let spot = table[usize::from(digit) - 1];
    let Spot { x, y } = spot;
    add_affine(start, x, y)
}
