//! The text in which a JSON part of a token is handed out: as it was signed.

// A payload is returned byte for byte, so that digits and order stay. One in which a name comes twice
// is not: what was checked is the last member, and a reader of the caller's may take the first.

ghost use Rattle.std.specs.Prelude.{IfOk};
ghost use Rattle.serde_json.specs.View.{view};
ghost use Rattle.jwt_base.specs.JsonText.{IsJson};
ghost use Rattle.jwt_c_calls.specs.AsSigned.{IsShownAs};

use jwt_unique_names::has_unique_names;
use serde_json::Value;
use std::alloc::{AllocError, Global};
use std::result::Result;

/// The text of a JSON part.
#[derive(Drop)]
pub struct Shown {
    pub text: Vec<u8>,
    /// Whether the text is the part's own bytes.
    pub as_signed: bool,
}

/// Returns the text of the value that these bytes are.
pub fn show(alloc: Global, bytes: Vec<u8>, value: &Value) -> Result<Shown, AllocError>
    ensures { IfOk result (λ s. IsJson bytes.items (view value.now)
        → IsShownAs bytes.items (view value.now) s.text.items s.as_signed) }
{
    if has_unique_names(bytes.as_slice(), value) {
        return Ok(Shown {
            text: bytes,
            as_signed: true,
        });
    }
    Ok(Shown {
        text: value.to_vec(alloc)?,
        as_signed: false,
    })
}
