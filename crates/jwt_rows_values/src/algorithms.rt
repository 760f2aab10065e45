//! The names of algorithms, their families, and their JSON values.

use jsonwebtoken::jwk::KeyAlgorithm;
use jsonwebtoken::{Algorithm, AlgorithmFamily};
use jwt_rows::calls::{debug, eq, hash};
use jwt_rows::output::List;
use jwt_rows::{Answer, Row};

/// Makes a call of `Algorithm`.
pub fn algorithm(method: &str, row: &Row<'_>) -> Answer {
    match method {
        "from_str" => {
            let text = row.text("text");
            row.begin();
            row.end(text.parse::<Algorithm>())
        }
        "from_value" => {
            let value = row.value("value")?;
            row.begin();
            row.end(Algorithm::from_value(value))
        }
        "try_from" => {
            let algorithm = row.read::<KeyAlgorithm>("key_algorithm")?;
            row.begin();
            row.end(Algorithm::try_from(algorithm))
        }
        "default" => {
            row.begin();
            row.give(&Algorithm::default())
        }
        "eq" => eq::<Algorithm>(row),
        "hash" => hash::<Algorithm>(row),
        "debug" => debug::<Algorithm>(row, "algorithm"),
        _ => of_algorithm(method, row),
    }
}

/// Makes a call of `AlgorithmFamily`.
pub fn family(method: &str, row: &Row<'_>) -> Answer {
    match method {
        "from_value" => {
            let value = row.value("value")?;
            row.begin();
            row.end(AlgorithmFamily::from_value(value))
        }
        "eq" => eq::<AlgorithmFamily>(row),
        "debug" => debug::<AlgorithmFamily>(row, "family"),
        _ => of_family(method, row),
    }
}

/// Makes a call of `KeyAlgorithm`, which names the algorithms of keys (RFC 7517 section 4.4).
pub fn key_algorithm(method: &str, row: &Row<'_>) -> Answer {
    match method {
        "from_str" => {
            let text = row.text("text");
            row.begin();
            row.end(text.parse::<KeyAlgorithm>())
        }
        "from_value" => {
            let value = row.value("value")?;
            row.begin();
            row.end(KeyAlgorithm::from_value(value))
        }
        "from" => {
            let algorithm = row.algorithm("algorithm");
            row.begin();
            row.give(&KeyAlgorithm::from(algorithm))
        }
        "eq" => eq::<KeyAlgorithm>(row),
        "hash" => hash::<KeyAlgorithm>(row),
        "debug" => debug::<KeyAlgorithm>(row, "key_algorithm"),
        _ => of_key_algorithm(method, row),
    }
}

fn of_algorithm(method: &str, row: &Row<'_>) -> Answer {
    let algorithm = row.algorithm("algorithm");
    let alloc = row.begin();
    match method {
        "name" => row.give(&algorithm.name()),
        "family" => row.give(&algorithm.family()),
        "to_value" => row.end(algorithm.to_value(alloc)),
        "clone" => row.end(algorithm.clone()),
        _ => None,
    }
}

fn of_family(method: &str, row: &Row<'_>) -> Answer {
    let family = row.read::<AlgorithmFamily>("family")?;
    let alloc = row.begin();
    match method {
        "algorithms" => row.give(&List(family.algorithms())),
        "to_value" => row.end(family.to_value(alloc)),
        "clone" => row.end(family.clone()),
        _ => None,
    }
}

fn of_key_algorithm(method: &str, row: &Row<'_>) -> Answer {
    let algorithm = row.read::<KeyAlgorithm>("key_algorithm")?;
    let alloc = row.begin();
    match method {
        "name" => row.give(&algorithm.name()),
        "to_string" => row.end(algorithm.to_string(alloc)),
        "to_value" => row.end(algorithm.to_value(alloc)),
        "clone" => row.end(algorithm.clone()),
        _ => None,
    }
}
