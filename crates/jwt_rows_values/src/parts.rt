//! The parts of a token, and other base64 texts.

use jwt_base::serialization::{json_value, part_bytes, part_text, standard_bytes, url_bytes};
use jwt_rows::{Answer, Row};

/// Makes a call that decodes a text.
pub fn decode(call: &str, row: &Row<'_>) -> Answer {
    let text = row.bytes("text");
    let text = text.as_slice();
    let alloc = row.begin();
    let answer = match call {
        "part_bytes" => part_bytes(alloc, text),
        "standard_bytes" => standard_bytes(alloc, text),
        _ => url_bytes(alloc, text),
    };
    row.end(answer)
}

/// Makes a call that takes bytes.
pub fn of_bytes(call: &str, row: &Row<'_>) -> Answer {
    let bytes = row.bytes("bytes");
    let alloc = row.begin();
    match call {
        "part_text" => row.end(part_text(alloc, bytes.as_slice())),
        _ => row.end(json_value(alloc, bytes.as_slice())),
    }
}
