//! Sums of multiples of two points of P-256 or P-384.

use ecdsa::bases::BaseMultiples;
use ecdsa::joint::joint_multiple;
use residues::residue::Residue;
use weierstrass::points::ProjectivePoint;

/// Returns the base point.
pub fn base_point<F: BaseMultiples>() -> ProjectivePoint<F> {
    let (x, y) = F::base_multiple(1);
    ProjectivePoint { x, y, z: F::one() }
}

/// Returns the sum of the base point's multiple by the first number and the point's by the second.
/// There is none if the numbers have other lengths, or the point is at infinity.
pub fn joint<F: BaseMultiples>(
    first: &[u8],
    second: &[u8],
    point: ProjectivePoint<F>,
) -> Option<ProjectivePoint<F>> {
    if first.len() != second.len() || !point.z.is_same(F::one()) {
        return None;
    }
    Some(joint_multiple(first, second, point))
}
