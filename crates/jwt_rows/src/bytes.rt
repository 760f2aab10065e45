//! Bytes, as a row describes them: a string stands for its UTF-8 bytes, a list for its pieces
//! joined. A piece is a string, or an object: `{"hex": ..}` for these bytes, `{"repeat": ..,
//! "times": N}` for the string this many times, and `{"base64url": ..}` for the base64url text of a
//! string or of a list of such pieces.

use jwt_base::serialization::part_text;
use serde_json::Value;
use std::alloc::Global;

/// Returns the bytes that a value describes.
pub fn bytes_of(alloc: Global, value: &Value) -> Option<Vec<u8>> {
    let mut bytes = Vec::new(alloc);
    match value {
        Value::Array(pieces) => {
            for piece in pieces {
                add_piece(alloc, &mut bytes, piece)?;
            }
        }
        piece => add_piece(alloc, &mut bytes, piece)?,
    }
    Some(bytes)
}

fn add_piece(alloc: Global, bytes: &mut Vec<u8>, piece: &Value) -> Option<()> {
    match piece.get("base64url") {
        Some(inner) => {
            let inner = plain_bytes(alloc, inner)?;
            let text = part_text(alloc, inner.as_slice()).ok()?;
            bytes.extend_from_slice(text.as_bytes()).ok()
        }
        None => add_plain(alloc, bytes, piece),
    }
}

// Returns the bytes of pieces, none of which is base64url text.
fn plain_bytes(alloc: Global, value: &Value) -> Option<Vec<u8>> {
    let mut bytes = Vec::new(alloc);
    match value {
        Value::Array(pieces) => {
            for piece in pieces {
                add_plain(alloc, &mut bytes, piece)?;
            }
        }
        piece => add_plain(alloc, &mut bytes, piece)?,
    }
    Some(bytes)
}

fn add_plain(alloc: Global, bytes: &mut Vec<u8>, piece: &Value) -> Option<()> {
    if let Value::String(text) = piece {
        return bytes.extend_from_slice(text.as_bytes()).ok();
    }
    match piece.get("hex") {
        Some(digits) => add_hex(alloc, bytes, digits),
        None => add_repeated(bytes, piece),
    }
}

fn add_hex(alloc: Global, bytes: &mut Vec<u8>, digits: &Value) -> Option<()> {
    let decoded = hex::decode(alloc, digits.as_str()?).ok()?;
    bytes.extend_from_slice(decoded.as_slice()).ok()
}

fn add_repeated(bytes: &mut Vec<u8>, piece: &Value) -> Option<()> {
    let text = piece.get("repeat")?.as_str()?;
    let times = piece.get("times")?.as_u64()?;
    for _ in 0..times {
        bytes.extend_from_slice(text.as_bytes()).ok()?;
    }
    Some(())
}
