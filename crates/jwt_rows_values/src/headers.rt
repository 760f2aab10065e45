//! Headers (RFC 7515 section 4).

use crate::json::{json_call, json_input};
use jsonwebtoken::Header;
use jwt_rows::{Answer, Row};

/// Makes a call of `Header`.
pub fn header(method: &str, row: &Row<'_>) -> Answer {
    match method {
        "new" => {
            let algorithm = row.algorithm("algorithm");
            row.end(Header::new(row.begin(), algorithm))
        }
        "x5c_der" => {
            let header = row.input::<Header>("value")?;
            row.end(header.x5c_der(row.begin()))
        }
        "to_text" => {
            let header = json_input::<Header>(row)?;
            row.end(header.to_text(row.begin()))
        }
        "from_slice" => {
            let bytes = row.bytes("bytes");
            row.end(Header::from_slice(row.begin(), bytes.as_slice()))
        }
        _ => json_call::<Header>(method, row),
    }
}
