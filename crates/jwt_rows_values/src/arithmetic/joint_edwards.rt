//! Sums of multiples of two points of Ed25519.

use crate::arithmetic::octets;
use ed25519::decoding::decode;
use ed25519::field::FieldElement;
use ed25519::joint::joint_multiple;
use edwards::points::{ExtendedPoint, is_same_point};
use jwt_rows::{Answer, Row};

type Point = ExtendedPoint<FieldElement>;

/// Returns whether the sum of the multiples is the point at `multiple`.
pub fn edwards_joint_multiple(row: &Row<'_>) -> Answer {
    let other = point(row, "other")?;
    let wanted = point(row, "multiple")?;
    let first = scalar(row, "scalar");
    let second = scalar(row, "other_scalar");
    row.begin();
    let given = joint_multiple(&first, &second, other);
    row.give(&is_same_point(given, wanted))
}

// The number at a name, in 32 octets of which the least significant is the first.
fn scalar(row: &Row<'_>, name: &'static str) -> [u8; 32] {
    let mut scalar = [0_u8; 32];
    let octets = octets(row, name);
    if octets.len() != 32 {
        return row.found(name, None, scalar);
    }
    scalar.as_mut_slice().copy_from_slice(octets.as_slice());
    scalar.as_mut_slice().reverse();
    scalar
}

// The point of an encoding.
fn point(row: &Row<'_>, name: &'static str) -> Option<Point> {
    let octets = octets(row, name);
    let octets = octets.as_slice();
    if octets.len() != 32 {
        return None;
    }
    decode(octets)
}
