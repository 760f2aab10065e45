//! The answer of a command, and how it reaches the caller.

ghost use Rattle.std.specs.Prelude.{◌≡◌, IfOk, IfErr, OnOk, string_bytes};
ghost use Rattle.std.specs.Io.KnownBytes.{Appends};
ghost use Rattle.serde_json.specs.View.{view};
ghost use Rattle.jwt_command.specs.Answers.{IsLineOf};

use jwt_requests::Fault;
use serde_json::Value;
use std::alloc::{AllocError, Global};
use std::io::Write;

/// The answer of a command.
#[derive(Drop)]
pub struct Answer {
    /// The exit status: 0 for success, 1 for a refusal.
    pub status: u8,
    /// The text for standard output.
    pub output: String,
    /// The text for standard error.
    pub message: String,
}

/// Returns the JSON text of a value, and a newline.
pub fn value_line(alloc: Global, value: &Value) -> Result<String, AllocError>
    ensures { IfOk result (λ text. IsLineOf (view value.now) (string_bytes text)) }
{
    let mut line = value.to_string(alloc)?;
    line.push('\n')?;
    Ok(line)
}

/// Writes the output, all of it or as far as the writer takes it.
pub fn write_output<W: Write>(writer: &mut W, output: &str) -> Result<(), Fault<'static>>
    ensures written { OnOk result (Appends (W.contents writer.old) (W.contents writer.new)
        output.now) }
    ensures err { IfErr result (λ e. e ≡ Fault.Output) }
{
    if writer.write_all(output.as_bytes()).is_err() || writer.flush().is_err() {
        return Err(Fault::Output);
    }
    Ok(())
}
