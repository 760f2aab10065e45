//! Numbers of any size, and arithmetic modulo one.

ghost use Rattle.std.specs.Prelude.{◌≡◌, ◌<◌, IfOk, IfSome};

use crate::arithmetic::octets;
use jwt_rows::{Answer, Row};
use modular::{Modulus, Natural, limb_from_octets};
use std::alloc::{AllocError, Global};

/// Makes a call of `Natural`.
pub fn natural(method: &str, row: &Row<'_>) -> Answer {
    match method {
        "to_octets" => to_octets(row),
        "is_odd" => is_odd(row),
        "is_below" | "is_same" => compare(method, row),
        _ => None,
    }
}

fn to_octets(row: &Row<'_>) -> Answer {
    let number = natural_at(row, "octets")?;
    let count = row.number("count") as usize;
    row.end(number.to_octets(row.begin(), count))
}

fn natural_at(row: &Row<'_>, name: &'static str) -> Option<Natural> {
    Natural::from_octets(row.alloc(), octets(row, name).as_slice()).ok()
}

fn is_odd(row: &Row<'_>) -> Answer {
    let number = natural_at(row, "a")?;
    row.begin();
    row.give(&number.is_odd())
}

fn compare(method: &str, row: &Row<'_>) -> Answer {
    let a = natural_at(row, "a")?;
    let b = natural_at(row, "b")?;
    row.begin();
    row.give(&match method {
        "is_below" => a.is_below(&b),
        _ => a.is_same(&b),
    })
}

/// Makes a call of `Modulus`.
pub fn modulus(method: &str, row: &Row<'_>) -> Answer {
    let modulus = modulus_at(row)?;
    match method {
        "multiply" => multiply(row, &modulus),
        "power" => power(row, &modulus),
        _ => None,
    }
}

fn modulus_at(row: &Row<'_>) -> Option<Modulus> {
    let number = natural_at(row, "modulus")?;
    let one = one(row.alloc()).ok()?;
    if number.is_odd() && one.is_below(&number) {
        return Modulus::new(row.alloc(), &number).ok();
    }
    None
}

fn one(alloc: Global) -> Result<Natural, AllocError>
    ensures { IfOk result (λ n. n ≡ 1) }
{
    Natural::from_octets(alloc, &[1])
}

fn multiply(row: &Row<'_>, modulus: &Modulus) -> Answer {
    let a = below(row, "a", modulus)?;
    let b = below(row, "b", modulus)?;
    end(row, modulus.multiply(row.begin(), &a, &b))
}

// The number at a name, which is below the modulus.
fn below(row: &Row<'_>, name: &'static str, modulus: &Modulus) -> Option<Natural>
    ensures { IfSome result (λ n. n < modulus.now) }
{
    let number = natural_at(row, name)?;
    if modulus.is_above(&number) {
        return Some(number);
    }
    None
}

fn power(row: &Row<'_>, modulus: &Modulus) -> Answer {
    let base = below(row, "base", modulus)?;
    let exponent = limb_at(row, "exponent")?;
    if exponent == 0 {
        return None;
    }
    end(row, modulus.power(row.begin(), &base, exponent))
}

// The result of a call that gave this number: it in as many octets as the row has for its modulus.
fn end(row: &Row<'_>, answer: Result<Natural, AllocError>) -> Answer {
    row.stop();
    match answer {
        Ok(number) => row.end(number.to_octets(row.alloc(), octets(row, "modulus").len())),
        Err(refusal) => row.refuse(&refusal),
    }
}

/// Calls `limb_from_octets`.
pub fn limb(row: &Row<'_>) -> Answer {
    let limb = limb_at(row, "octets")?;
    row.give(&limb.to_be_bytes().to_vec(row.alloc()).ok()?)
}

// The limb at a name, of at most eight octets.
fn limb_at(row: &Row<'_>, name: &'static str) -> Option<u64> {
    let octets = octets(row, name);
    let octets = octets.as_slice();
    if octets.len() <= 8 {
        return Some(limb_from_octets(octets));
    }
    None
}
