//! Parameters of keys: those that keys of every type may have, those of any type, and the members
//! of a key of the type `Other`.

use crate::json::{json_call, membered_call};
use jsonwebtoken::jwk::{AlgorithmParameters, CommonParameters, FreeMembers};
use jwt_rows::calls::{eq, hash};
use jwt_rows::{Answer, Row};
use serde_json::{Map, Value};

/// Makes a call of `CommonParameters`.
pub fn common(method: &str, row: &Row<'_>) -> Answer {
    match method {
        "default" => {
            row.begin();
            row.give(&CommonParameters::default())
        }
        "with_members" => {
            let members = row.read::<Map<String, Value>>("members")?;
            let common = row.input::<CommonParameters>("value")?;
            row.end(common.with_members(row.begin(), members))
        }
        _ => json_call::<CommonParameters>(method, row),
    }
}

/// Makes a call of `AlgorithmParameters`.
pub fn of_algorithms(method: &str, row: &Row<'_>) -> Answer {
    match method {
        "from_known_type" => {
            let value = row.value("value")?;
            row.end(AlgorithmParameters::from_known_type(row.begin(), value))
        }
        "has_common_name" => {
            let parameters = row.input::<AlgorithmParameters>("value")?;
            row.begin();
            row.give(&parameters.has_common_name())
        }
        _ => membered_call::<AlgorithmParameters>(method, row),
    }
}

/// Makes a call of `FreeMembers`.
pub fn free_members(method: &str, row: &Row<'_>) -> Answer {
    match method {
        "from" => {
            let members = row.read::<Map<String, Value>>("value")?;
            row.begin();
            row.give(&FreeMembers::from(members))
        }
        "among" => {
            let members = row.read::<Map<String, Value>>("value")?;
            row.end(FreeMembers::among(row.begin(), &members))
        }
        "into_map" => {
            let members = row.read::<FreeMembers>("value")?;
            row.begin();
            row.give(&members.into_map())
        }
        "eq" => eq::<FreeMembers>(row),
        "hash" => hash::<FreeMembers>(row),
        _ => of_free_members(method, row),
    }
}

fn of_free_members(method: &str, row: &Row<'_>) -> Answer {
    let members = row.input::<FreeMembers>("value")?;
    let alloc = row.begin();
    match method {
        "inner" => row.give(members.inner()),
        "clone" => row.end(members.clone(alloc)),
        "has_common_name" => row.give(&members.has_common_name()),
        _ => None,
    }
}
