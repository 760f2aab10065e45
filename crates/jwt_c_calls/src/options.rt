//! The results of the calls for C that write a text into options, and that name what keeps a text
//! from being options.

ghost use Rattle.std.specs.Prelude.{◌≡◌, ◌++◌, IfOk, IfErr};
ghost use Rattle.serde_json.specs.Data.{string};
ghost use Rattle.serde_json.specs.View.{view};
ghost use Rattle.serde_json.specs.Written.{compact_text};
ghost use Rattle.jwt_base.specs.Kind as kind;
ghost use Rattle.jwt_validation.specs.Options.{Options};
ghost use Rattle.jwt_validation.specs.OptionsRead.{ReadsOptions};
ghost use Rattle.jwt_c_calls.specs.Asked.{usual_part};
ghost use Rattle.jwt_c_calls.specs.Calls.{Returns, Refuses, answer_of};
ghost use Rattle.jwt_c_calls.specs.JsonTexts.{IsTextOf};
ghost use Rattle.jwt_c_calls.specs.Options.{AnswersFault, AnswersQuoted, IsValueFault};
ghost use Rattle.jwt_c_calls.specs.Options.{fault_text, form_text};

use crate::asked::usual_part;
use crate::inputs::{CallError, empty_member};
use jsonwebtoken::errors::{ErrorKind, new_error};
use jwt_base::serialization::json_value;
use jwt_further::malformed_further;
use jwt_validation::{Form, OptionsFault, options_fault};
use serde_json::Value;
use std::alloc::Global;
use std::result::Result;
use std::str;

/// Returns a text as a JSON string. Bytes that are not UTF-8 are refused with `Utf8`.
pub fn quoted_answer(alloc: Global, text: &[u8]) -> Result<Vec<u8>, CallError>
    ensures ok { IfOk result (λ b. AnswersQuoted text.now (Returns b.items)) }
    ensures err { IfErr result (λ r. AnswersQuoted text.now (answer_of r)) }
{
    let Ok(text) = str::from_utf8(text) else {
        return Err(CallError::Token(new_error(ErrorKind::Utf8)));
    };
    // named for the proof
    let quoted = quoted(alloc, text)?;
    Ok(quoted)
}

/// Returns what keeps a text from being options: which member, and why; or nothing, if it is the
/// JSON text of options.
pub fn options_answer(alloc: Global, text: &[u8]) -> Result<Vec<u8>, CallError>
    ensures ok { IfOk result (λ b. AnswersFault text.now (Returns b.items)) }
    ensures err { IfErr result (λ r. AnswersFault text.now (answer_of r)) }
{
    let value = match json_value(alloc, text) {
        Ok(value) => value,
        Err(refused) => {
            return if *refused.kind() == ErrorKind::OutOfMemory {
                Err(CallError::Token(refused))
            } else {
                text_bytes(alloc, "the options are not JSON")
            };
        }
    };
    value_fault(alloc, &value)
}

fn fault_text(alloc: Global, fault: OptionsFault<'_>) -> Result<Vec<u8>, CallError>
    ensures ok { IfOk result (λ b. b.items ≡ fault_text fault.entry) }
    ensures err { IfErr result (λ r. answer_of r ≡ Refuses kind.OutOfMemory) }
{
    match fault {
        OptionsFault::NotAnObject => text_bytes(alloc, "the options are not a JSON object"),
        OptionsFault::Unknown(name) => name_and_text(alloc, name, " is not an option"),
        OptionsFault::Malformed(name, form) => name_and_text(alloc, name, form_text(form)),
    }
}

fn text_bytes(alloc: Global, text: &str) -> Result<Vec<u8>, CallError>
    ensures ok { IfOk result (λ b. b.items ≡ text.now) }
    ensures err { IfErr result (λ r. answer_of r ≡ Refuses kind.OutOfMemory) }
{
    Ok(text.as_bytes().to_vec(alloc)?)
}

// Returns the name as JSON, and this text after it.
fn name_and_text(alloc: Global, name: &str, text: &str) -> Result<Vec<u8>, CallError>
    ensures ok { IfOk result (λ b. b.items ≡ compact_text (string name.now) ++ text.now) }
    ensures err { IfErr result (λ r. answer_of r ≡ Refuses kind.OutOfMemory) }
{
    let mut said = quoted(alloc, name)?;
    said.extend_from_slice(text.as_bytes())?;
    Ok(said)
}

fn quoted(alloc: Global, text: &str) -> Result<Vec<u8>, CallError>
    ensures ok { IfOk result (λ b. IsTextOf b.items (string text.now)) }
    ensures text { IfOk result (λ b. b.items ≡ compact_text (string text.now)) }
    ensures err { IfErr result (λ r. answer_of r ≡ Refuses kind.OutOfMemory) }
{
    let value = Value::String(String::from_str(alloc, text)?);
    let quoted = value.to_vec(alloc)?;
    Ok(quoted)
}

fn form_text(form: Form) -> &'static str
    ensures { result.now ≡ form_text form }
{
    match form {
        Form::Whole => " is not a whole number from 0 to 2^64 - 1",
        Form::Flag => " is not true or false",
        Form::OneText => " is not a string",
        Form::TextList => " is not a list of strings",
        Form::AlgorithmList => " is not a list of names of algorithms",
        Form::NonEmptyList => " is empty in strict options",
        Form::ClaimList => " has another claim than exp, nbf, aud, iss and sub in strict options",
    }
}

// Returns what keeps a value from being options, or nothing.
fn value_fault(alloc: Global, value: &Value) -> Result<Vec<u8>, CallError>
    ensures ok { IfOk result (λ b. IsValueFault (view value.now) b.items) }
    ensures err { IfErr result (λ r. answer_of r ≡ Refuses kind.OutOfMemory) }
{
    let usual = usual_part(alloc, value)?;
    match options_fault(&usual) {
        Some(fault) => fault_text(alloc, fault),
        None => own_fault(alloc, value),
    }
}

// The same of a value without a fault of the options of `jsonwebtoken`.
fn own_fault(alloc: Global, value: &Value) -> Result<Vec<u8>, CallError>
    requires { (o : Options) × ReadsOptions (usual_part (view value.now)) o }
    ensures ok { IfOk result (λ b. IsValueFault (view value.now) b.items) }
    ensures err { IfErr result (λ r. answer_of r ≡ Refuses kind.OutOfMemory) }
{
    if let Some((name, form)) = malformed_further(value) {
        return name_and_text(alloc, name, form_text(form));
    }
    match empty_member(value) {
        Some(name) => name_and_text(alloc, name, " has an empty text"),
        None => Ok(Vec::new(alloc)),
    }
}
