//! Tokens that are verified with the kept keys of a set, which is read item by item.

use jsonwebtoken::errors::{Error, ErrorKind};
use jsonwebtoken::jwk::{Jwk, KeyAlgorithm};
use jsonwebtoken::{Algorithm, DecodingKey, Validation};
use jwt_key_items::{KeyItems, Reason, Usage, usage_of};
use jwt_rows::answer::{Answer, object, string};
use jwt_rows::{Input, Output, Refuse, Row};
use jwt_verifier::{KeyProblem, Keys, Verifier, VerifierRefusal};
use serde_json::Value;
use std::alloc::Global;

/// Why there is no verifier.
#[derive(Clone, Copy)]
enum Problem {
    BadKey,
    NoUsableKey,
    Memory,
}

impl From<Error> for Problem {
    fn from(refused: Error) -> Problem {
        match refused.kind() {
            ErrorKind::OutOfMemory => Problem::Memory,
            _ => Problem::BadKey,
        }
    }
}

impl From<KeyProblem> for Problem {
    fn from(problem: KeyProblem) -> Problem {
        match problem {
            KeyProblem::Memory => Problem::Memory,
            _ => Problem::NoUsableKey,
        }
    }
}

impl Refuse for Problem {
    fn refuse(&self, alloc: Global) -> Answer {
        let name = match self {
            Problem::BadKey => "BadKey",
            Problem::NoUsableKey => "NoUsableKey",
            Problem::Memory => "OutOfMemory",
        };
        object(alloc, "err", string(alloc, name))
    }
}

/// Verifies a token with the kept keys of a set, or with one key.
pub fn decode(row: &Row<'_>) -> Answer {
    let set = row.bytes("set");
    let token = row.bytes("token");
    let options = options(row)?;
    let time = row.number("time");
    let alloc = row.begin();
    let verifier = match verifier(alloc, set.as_slice(), options) {
        Ok(verifier) => verifier,
        Err(problem) => return row.refuse(&problem),
    };
    match verifier.decode::<Value>(alloc, token.as_slice(), time) {
        Ok(decoded) => row.give(&decoded.claims),
        Err(VerifierRefusal::Failed(refused)) => row.refuse(&refused),
        Err(VerifierRefusal::TooLong) => None,
    }
}

// Returns the default options with the algorithms of the row.
fn options(row: &Row<'_>) -> Option<Validation> {
    let mut options = Validation::new(row.alloc(), Algorithm::HS256).ok()?;
    options.algorithms.clear();
    for name in row.list("algorithms") {
        let algorithm = Algorithm::read(row.alloc(), name)?;
        options.algorithms.push(algorithm).ok()?;
    }
    Some(options)
}

fn verifier(alloc: Global, text: &[u8], options: Validation) -> Result<Verifier, Problem> {
    match KeyItems::from_slice(alloc, text) {
        Ok(items) => {
            let set = items.kept(alloc)?;
            Ok(Verifier::new(alloc, Keys::Set(set), options)?)
        }
        Err(refused) => match refused.kind() {
            ErrorKind::OutOfMemory => Err(Problem::Memory),
            _ => verifier_of_one(alloc, text, options),
        },
    }
}

// Returns the verifier of a key that is not in a set. A key with an `alg` verifies only with that
// algorithm.
fn verifier_of_one(alloc: Global, text: &[u8], options: Validation) -> Result<Verifier, Problem> {
    let jwk = Jwk::from_slice(alloc, text)?;
    match usage_of(alloc, &jwk)? {
        Usage::Kept(_) => {}
        Usage::Skipped(reason) => return Err(problem_of(reason)),
    }
    let key = DecodingKey::from_jwk(alloc, &jwk)?;
    let mut options = options;
    if let Some(own) = jwk.common.key_algorithm {
        options.algorithms = agreeing(alloc, options.algorithms.as_slice(), own)?;
    }
    Ok(Verifier::new(alloc, Keys::One(key), options)?)
}

// A text that stands for no key is not a key.
fn problem_of(reason: Reason) -> Problem {
    match reason {
        Reason::NotAKey | Reason::Unsupported | Reason::Base64 => Problem::BadKey,
        _ => Problem::NoUsableKey,
    }
}

fn agreeing(
    alloc: Global,
    algorithms: &[Algorithm],
    own: KeyAlgorithm,
) -> Result<Vec<Algorithm>, Error> {
    let mut left = Vec::new(alloc);
    for algorithm in algorithms {
        if KeyAlgorithm::from(*algorithm) == own {
            left.push(*algorithm)?;
        }
    }
    Ok(left)
}
