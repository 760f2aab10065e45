//! Points of P-256 and P-384, which stand in a row as the octets of their uncompressed form (SEC 1
//! section 2.3.3), and the point at infinity as none; and points of Ed25519, as those of their
//! encoding (RFC 8032 section 5.1.2).

ghost use Rattle.std.specs.Prelude.{◌≤◌};

use crate::arithmetic::joint::{base_point, joint};
use crate::arithmetic::joint_edwards::edwards_joint_multiple;
use crate::arithmetic::octets;
use algebra::inverses::read;
use ecdsa::bases::BaseMultiples;
use ecdsa::constants::{b_256, b_384};
use ecdsa::keys::read_key;
use ecdsa::moduli::{Field256, Field384, FieldModulus256, FieldModulus384};
use jwt_rows::{Answer, Row};
use residues::montgomery::Montgomery;
use residues::residue::Residue;
use weierstrass::points::{ProjectivePoint, add, double, point_at_infinity};

type Residues256 = Montgomery<FieldModulus256, 4>;

type Residues384 = Montgomery<FieldModulus384, 6>;

/// Makes a call about the points of a curve.
pub fn by_curve(call: &str, row: &Row<'_>) -> Answer {
    by_residues::<Residues256, Residues384>(call, row)
}

fn by_residues<F: Field256, G: Field384>(call: &str, row: &Row<'_>) -> Answer {
    match row.text("curve") {
        "P-256" => on_curve::<F, 32>(call, row, b_256()),
        "P-384" => on_curve::<G, 48>(call, row, b_384()),
        "Ed25519" if call == "is_joint_multiple" => edwards_joint_multiple(row),
        _ => None,
    }
}

fn on_curve<F: BaseMultiples, const S: usize>(call: &str, row: &Row<'_>, b: F) -> Answer
    requires { S ≤ 66 }
{
    match call {
        "right_sums" => sums::<F, S>(row, b),
        "is_multiple" => multiple::<F, S>(row, b),
        _ => joint_multiple::<F, S>(row, b),
    }
}

// Counts the right ones among the sums of the multiples of a point by -k to k with each other.
// `multiples` lists those by -2k to 2k, and the coordinates of the first of both points are
// multiplied by `scale`.
fn sums<F: Residue, const S: usize>(row: &Row<'_>, b: F) -> Answer
    requires { S ≤ 66 }
{
    let points = multiples::<F, S>(row, b)?;
    let scale = scale::<F, S>(row)?;
    row.begin();
    row.give(&count_sums(b, points.as_slice(), scale))
}

// Returns the points of the list at `multiples`.
fn multiples<F: Residue, const S: usize>(row: &Row<'_>, b: F) -> Option<Vec<ProjectivePoint<F>>>
    requires { S ≤ 66 }
{
    let mut points = Vec::new(row.alloc());
    for value in row.list("multiples") {
        points
            .push(point_of::<F, S>(row, b, value.as_str()?)?)
            .ok()?;
    }
    Some(points)
}

// Returns the point that hexadecimal digits describe, on the curve with this b and with coordinates
// of `S` octets.
fn point_of<F: Residue, const S: usize>(
    row: &Row<'_>,
    b: F,
    digits: &str,
) -> Option<ProjectivePoint<F>>
    requires { S ≤ 66 }
{
    if digits.is_empty() {
        return Some(point_at_infinity());
    }
    let octets = hex::decode(row.alloc(), digits).ok()?;
    read_key::<F, S>(b, octets.as_slice())
}

// Returns the residue at `scale`, which is not 0.
fn scale<F: Residue, const S: usize>(row: &Row<'_>) -> Option<F> {
    let octets = octets(row, "scale");
    let octets = octets.as_slice();
    if octets.len() != S {
        return None;
    }
    let scale = read::<F, S>(octets)?;
    (!scale.is_same(F::zero())).then_some(scale)
}

// Counts the right ones among the sums of the multiples by -k to k with each other. The list has
// the multiples by -2k to 2k.
fn count_sums<F: Residue>(b: F, points: &[ProjectivePoint<F>], scale: F) -> u64 {
    let quarter = points.len() / 4;
    let mut right = 0_u64;
    for place in quarter..points.len().saturating_sub(quarter) {
        for other_place in quarter..points.len().saturating_sub(quarter) {
            let wanted_place = place
                .saturating_add(other_place)
                .saturating_sub(2 * quarter);
            if is_sum(b, points, scale, (place, other_place, wanted_place)) {
                right = right.saturating_add(1);
            }
        }
    }
    right
}

// Whether the sum of the points at two places of a list of multiples is the one at the wanted
// place, and for one place twice, its double too.
fn is_sum<F: Residue>(
    b: F,
    points: &[ProjectivePoint<F>],
    scale: F,
    (place, other_place, wanted_place): (usize, usize, usize),
) -> bool {
    let one = points.get(place).copied();
    let other = points.get(other_place).copied();
    let wanted = points.get(wanted_place).copied();
    let (Some(one), Some(other), Some(wanted)) = (one, other, wanted) else {
        return false;
    };
    let one = rescale(one, scale);
    is_point(add(b, one, other), wanted)
        && (place != other_place || is_point(double(b, one), wanted))
}

// Returns the same point by other coordinates.
fn rescale<F: Residue>(point: ProjectivePoint<F>, scale: F) -> ProjectivePoint<F> {
    ProjectivePoint {
        x: point.x.times(scale),
        y: point.y.times(scale),
        z: point.z.times(scale),
    }
}

// Whether the first is the second, whose Z is 0 or 1: x = X / Z and y = Y / Z, and at infinity only
// Y is not 0.
fn is_point<F: Residue>(given: ProjectivePoint<F>, wanted: ProjectivePoint<F>) -> bool {
    let zero = F::zero();
    if wanted.z.is_same(zero) {
        return given.x.is_same(zero) && !given.y.is_same(zero) && given.z.is_same(zero);
    }
    !given.z.is_same(zero)
        && given.x.is_same(wanted.x.times(given.z))
        && given.y.is_same(wanted.y.times(given.z))
}

// Whether the multiple of the base point by the number at `scalar` is the point at `multiple`.
fn multiple<F: BaseMultiples, const S: usize>(row: &Row<'_>, b: F) -> Answer
    requires { S ≤ 66 }
{
    let wanted = point_of::<F, S>(row, b, row.text("multiple"))?;
    let scalar = scalar(row, "scalar");
    row.begin();
    let given = joint(scalar.as_slice(), &[0_u8; S], base_point::<F>())?;
    row.give(&is_point(given, wanted))
}

// The number at a name, in octets of which the least significant is the first.
fn scalar(row: &Row<'_>, name: &'static str) -> Vec<u8> {
    let mut scalar = octets(row, name);
    scalar.as_mut_slice().reverse();
    scalar
}

// Whether the sum of the base point's multiple by the number at `scalar` and that of the point at
// `other` by the number at `other_scalar` is the point at `multiple`.
fn joint_multiple<F: BaseMultiples, const S: usize>(row: &Row<'_>, b: F) -> Answer
    requires { S ≤ 66 }
{
    let other = point_of::<F, S>(row, b, row.text("other"))?;
    let wanted = point_of::<F, S>(row, b, row.text("multiple"))?;
    let first = scalar(row, "scalar");
    let second = scalar(row, "other_scalar");
    row.begin();
    let given = joint(first.as_slice(), second.as_slice(), other)?;
    row.give(&is_point(given, wanted))
}
