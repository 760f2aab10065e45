//! Headers and payloads that are signed byte for byte.

// What is signed is what the caller gives: its order, its spaces and its digits. A text in which an
// object has a name twice is refused, since two readers could see two values.

ghost use Rattle.std.specs.Prelude.{◌≡◌, IfOk, IfErr, OnOk, string_bytes};
ghost use Rattle.serde_json.specs.Data.{Data};
ghost use Rattle.jwt_base.specs.Kind as kind;
ghost use Rattle.jwt_base.specs.KindOf.{IsMemory, RefusesAs};
ghost use Rattle.jwt_header.specs.declared.header.Header.{Header as HeaderValue};
ghost use Rattle.jwt_c_calls.specs.Calls.{Returns, answer_of};
ghost use Rattle.jwt_c_calls.specs.BySignature.{AnswersInput, NamesAlgorithm};
ghost use Rattle.jwt_c_calls.specs.Exact.{IsMessageOf, ReadsExactHeader, ReadsExactPayload};

use crate::inputs::{CallError, Input, read_as, read_claims};
use jsonwebtoken::errors::{Error, ErrorKind, new_error};
use jsonwebtoken::{Algorithm, Header, SigningInput};
use jwt_base::serialization::{json_value, part_text};
use jwt_unique_names::has_unique_names;
use std::alloc::Global;
use std::result::Result;

/// Returns the message of a token that is to be signed, and the header's algorithm. The header is
/// read first.
pub fn input_answer(alloc: Global, header: &[u8], payload: &[u8]) -> Result<SigningInput, CallError>
    ensures ok { IfOk result (λ s. AnswersInput header.now payload.now
        (Returns (string_bytes s.message))) }
    ensures algorithm { IfOk result (λ s. NamesAlgorithm header.now s.algorithm) }
    ensures err { IfErr result (λ r. AnswersInput header.now payload.now (answer_of r)) }
{
    let algorithm = read_as(Input::Header, exact_header(alloc, header))?;
    read_as(Input::Claims, check_payload(alloc, payload))?;
    let message = message_of(alloc, header, payload)?;
    Ok(SigningInput { algorithm, message })
}

/// Returns the algorithm of the header that a text describes. Any other text, and one in which an
/// object has a name twice, is refused with `Json`.
pub fn exact_header(alloc: Global, text: &[u8]) -> Result<Algorithm, Error>
    ensures ok { IfOk result (NamesAlgorithm text.now) }
    ensures err { IfErr result (RefusesAs kind.Json
        ((h : HeaderValue) → ¬ ReadsExactHeader text.now h)) }
{
    let value = json_value(alloc, text)?;
    let header = Header::from_value(alloc, &value)?;
    let algorithm = header.alg;
    drop(header);
    if has_unique_names(text, &value) {
        Ok(algorithm)
    } else {
        Err(new_error(ErrorKind::Json))
    }
}

/// Refuses with `Json` a text that is not the JSON of an object, and one in which an object has a
/// name twice.
pub fn check_payload(alloc: Global, text: &[u8]) -> Result<(), Error>
    ensures ok { OnOk result ((d : Data) × ReadsExactPayload text.now d) }
    ensures err { IfErr result (RefusesAs kind.Json ((d : Data) → ¬ ReadsExactPayload text.now d)) }
{
    let value = read_claims(alloc, text)?;
    if has_unique_names(text, &value) {
        Ok(())
    } else {
        Err(new_error(ErrorKind::Json))
    }
}

fn message_of(alloc: Global, header: &[u8], payload: &[u8]) -> Result<String, Error>
    ensures ok { IfOk result (λ m. IsMessageOf header.now payload.now (string_bytes m)) }
    ensures err { IfErr result IsMemory }
{
    let mut message = part_text(alloc, header)?;
    let payload = part_text(alloc, payload)?;
    message.push('.')?;
    message.push_str(payload.as_str())?;
    Ok(message)
}
