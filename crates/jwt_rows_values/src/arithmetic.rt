//! Rows about the arithmetic below RSA and the curves: numbers of any size and arithmetic modulo
//! one (crate `modular`), points (`weierstrass`, `ecdsa`, `edwards` and `ed25519`), and signatures
//! on curves, by the bytes of a key and by the key that is prepared.
//!
//! `tests/rows/arithmetic` answers the rows about numbers and points too, by Python's integers.
//! Octets stand in a row as hexadecimal digits, the most significant octet of a number first.

mod joint;
mod joint_edwards;
pub mod numbers;
pub mod points;
pub mod signatures;

use jwt_rows::Row;

// Returns the octets that the hexadecimal string at a name stands for.
fn octets(row: &Row<'_>, name: &'static str) -> Vec<u8> {
    let octets = hex::decode(row.alloc(), row.text(name)).ok();
    row.found(name, octets, Vec::new(row.alloc()))
}
