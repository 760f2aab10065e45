//! Reading the whole input.

// An interrupted read is made again, as Rust's `read_to_end` does; any other failure is a fault. No
// contract says that `run` reads at most 16777216 times: the meaning of a reader (`Read`) says
// which bytes remain, and not how often it was asked. `tests/programs/tool` counts the calls.

ghost use Rattle.std.specs.Prelude.{◌≡◌, ◌≢◌, ℕ, List, IfOk, IfErr, IfSome};
ghost use Rattle.std.specs.Io.KnownBytes.{Consumes};
ghost use Rattle.jwt_tool_command.specs.Line.{without_final_newline};

use crate::fault::ToolFault;
use std::alloc::Global;
use std::io::{ErrorKind, Read};

/// The greatest number of calls of `read`.
const READS: u32 = 16_777_216;

/// Returns the bytes, less one final newline.
pub fn without_newline(bytes: &[u8]) -> &[u8]
    ensures { result.now ≡ without_final_newline bytes.now }
{
    bytes.strip_suffix(b"\n").unwrap_or(bytes)
}

/// Reads to the end. A reader that has not ended after `READS` calls is refused with `Read`, and so
/// is one that fails; a call that was interrupted is made again.
pub fn gather<R: Read>(alloc: Global, reader: &mut R) -> Result<Vec<u8>, ToolFault>
    ensures whole { IfOk result (λ input. IfSome (R.remaining reader.old)
        (λ all. input.items ≡ all)) }
    ensures failed { IfErr result (λ e. e ≢ ToolFault.Write) }

    // Whatever it returns, the front of the input was taken from the reader.
    ensures taken { (front : List ℕ) × Consumes (R.remaining reader.old)
        (R.remaining reader.new) front }
{
    let mut input = Vec::new(alloc);
    let mut buffer = [0u8; 4096];
    'reads: for _ in 0..READS {
        match reader.read(&mut buffer) {
            Ok(0) => return Ok(input),
            Ok(count) => {
                if input.extend_from_slice(&buffer[..count]).is_err() {
                    return Err(ToolFault::Memory);
                }
            }
            Err(e) if e.kind() == ErrorKind::Interrupted => {}
            Err(_) => return Err(ToolFault::Read),
        }
    }
    Err(ToolFault::Read)
}
