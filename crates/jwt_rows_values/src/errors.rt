//! Errors: the kinds, their strings and their equality.

use base64::engine::general_purpose::{STANDARD, URL_SAFE_NO_PAD};
use base64::{DecodeAllocError, DecodeError};
use jsonwebtoken::errors::{Error, ErrorKind, new_error};
use jwt_rows::calls::{debug, eq};
use jwt_rows::{Answer, Row};
use serde_json::Value;
use std::alloc::{AllocError, AllocFailed};

/// Makes a call of `ErrorKind`.
pub fn kind(method: &str, row: &Row<'_>) -> Answer {
    match method {
        "eq" => eq::<ErrorKind>(row),
        "debug" => debug::<ErrorKind>(row, "kind"),
        _ => of_kind(method, row),
    }
}

/// Makes a call of `Error`.
pub fn error(method: &str, row: &Row<'_>) -> Answer {
    match method {
        "eq" => eq::<Error>(row),
        "from" if row.value("fault").is_some() => of_fault(row.text("fault"), row),
        "from" | "new" => of_kind_alone(method, row),
        "into_kind" => {
            let error = row.read::<Error>("kind")?;
            row.begin();
            row.give(&error.into_kind())
        }
        _ => of_error(method, row),
    }
}

fn of_kind(method: &str, row: &Row<'_>) -> Answer {
    let kind = row.input::<ErrorKind>("kind")?;
    let alloc = row.begin();
    match method {
        "name" => row.give(&kind.name()),
        "to_string" => row.end(kind.to_string(alloc)),
        "clone" => row.end(kind.clone(alloc)),
        _ => None,
    }
}

// Converts a fault of another library. The row names the fault's type, and gives the bytes that are
// refused with it.
fn of_fault(fault: &str, row: &Row<'_>) -> Answer {
    match fault {
        "AllocError" => convert::<(), AllocError>(row, Err(AllocError)),
        "AllocFailed" => convert::<(), AllocFailed<u8>>(row, Err(AllocFailed { value: 0u8 })),
        "DecodeAllocError::OutOfMemory" => {
            convert::<(), DecodeAllocError>(row, Err(DecodeAllocError::OutOfMemory))
        }
        _ => of_bytes(fault, row),
    }
}

fn convert<T: Drop, E: Into<Error> + Drop>(row: &Row<'_>, answer: Result<T, E>) -> Answer {
    let fault = answer.err()?;
    row.begin();
    let error: Error = fault.into();
    row.give(&error)
}

fn of_bytes(fault: &str, row: &Row<'_>) -> Answer {
    let bytes = row.bytes("bytes");
    match fault {
        "serde_json::Error" => {
            let answer = Value::from_slice(row.alloc(), bytes.as_slice());
            convert(row, answer)
        },
        "Utf8Error" => convert(row, std::str::from_utf8(bytes.as_slice())),
        "FromUtf8Error" => convert(row, String::from_utf8(bytes)),
        _ => of_base64(fault, row, bytes.as_slice()),
    }
}

fn of_base64(fault: &str, row: &Row<'_>, text: &[u8]) -> Answer {
    let mut room = [0u8; 1];
    match fault {
        "DecodeAllocError" => convert(row, URL_SAFE_NO_PAD.decode(row.alloc(), text)),
        "DecodeError" => match STANDARD.decode(row.alloc(), text) {
            Err(DecodeAllocError::DecodeError(fault)) => convert::<(), DecodeError>(
                row,
                Err(fault),
            ),
            _ => None,
        },
        "DecodeSliceError" => convert(row, STANDARD.decode_slice(text, &mut room)),
        _ => None,
    }
}

fn of_kind_alone(method: &str, row: &Row<'_>) -> Answer {
    let kind = row.read::<ErrorKind>("kind")?;
    row.begin();
    match method {
        "from" => row.give(&Error::from(kind)),
        _ => row.give(&new_error(kind)),
    }
}

fn of_error(method: &str, row: &Row<'_>) -> Answer {
    let error = row.input::<Error>("kind")?;
    let alloc = row.begin();
    match method {
        "kind" => row.give(error.kind()),
        "to_string" => row.end(error.to_string(alloc)),
        "clone" => row.end(error.clone(alloc)),
        _ => None,
    }
}
