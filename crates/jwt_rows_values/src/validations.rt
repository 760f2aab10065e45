//! Validations: their JSON values and their setters.

use jsonwebtoken::options::options_fault;
use jsonwebtoken::{AlgorithmFamily, Validation};
use jwt_rows::calls::{debug, eq};
use jwt_rows::{Answer, Row};

/// Makes a call of `Validation`.
pub fn validation(method: &str, row: &Row<'_>) -> Answer {
    match method {
        "new" | "new_strict" => of_algorithm(method, row),
        "new_for_family" => {
            let family = row.read::<AlgorithmFamily>("family")?;
            row.end(Validation::new_for_family(row.begin(), family))
        }
        "from_value" => {
            let value = row.json("value", "value_json");
            row.end(Validation::from_value(row.begin(), &value))
        }
        "from_slice" => {
            let bytes = row.bytes("bytes");
            row.end(Validation::from_slice(row.begin(), bytes.as_slice()))
        }
        "clone" => {
            let options = row.input::<Validation>("validation")?;
            row.end(options.clone(row.begin()))
        }
        "eq" => eq::<Validation>(row),
        "debug" => debug::<Validation>(row, "validation"),
        "set_subject" | "require_configured" => set_one(method, row),
        _ => set_texts(method, row),
    }
}

/// Calls `options_fault`.
pub fn fault(row: &Row<'_>) -> Answer {
    let value = row.json("value", "value_json");
    row.begin();
    row.give(&options_fault(&value))
}

fn of_algorithm(method: &str, row: &Row<'_>) -> Answer {
    let algorithm = row.algorithm("algorithm");
    let alloc = row.begin();
    let answer = match method {
        "new" => Validation::new(alloc, algorithm),
        _ => Validation::new_strict(alloc, algorithm),
    };
    row.end(answer)
}

// Sets the subject to the string at `text`, or requires what is configured.
fn set_one(method: &str, row: &Row<'_>) -> Answer {
    let before = row.input::<Validation>("validation")?;
    let mut after = row.input::<Validation>("validation")?;
    let answer = match method {
        "set_subject" => {
            let subject = row.text("text");
            let alloc = row.begin();
            after.set_subject(alloc, subject)
        }
        _ => {
            let alloc = row.begin();
            after.require_configured(alloc)
        }
    };
    row.end_change(answer, &*before, &*after)
}

// Calls the setter of this name with the strings at `texts`.
fn set_texts(method: &str, row: &Row<'_>) -> Answer {
    let texts = row.texts("texts");
    let texts = texts.as_slice();
    let before = row.input::<Validation>("validation")?;
    let mut after = row.input::<Validation>("validation")?;
    let alloc = row.begin();
    let answer = match method {
        "set_audience" => after.set_audience(alloc, texts),
        "set_issuer" => after.set_issuer(alloc, texts),
        "set_understood_crit" => after.set_understood_crit(alloc, texts),
        "set_required_spec_claims" => after.set_required_spec_claims(alloc, texts),
        _ => return None,
    };
    row.end_change(answer, &*before, &*after)
}
