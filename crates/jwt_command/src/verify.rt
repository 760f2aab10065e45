//! The command `verify`.

ghost use Rattle.std.specs.Prelude.{◌≡◌, IfOk, option_map, string_bytes};
ghost use Rattle.serde_json.specs.View.{view};
ghost use Rattle.jwt_validation.specs.Options.{Options};
ghost use Rattle.jwt_validation.specs.OptionsOf.{options_of};
ghost use Rattle.jwt_command.specs.Answers.{IsHeaderLine, IsAcceptedText, IsRefusedText};
ghost use Rattle.jwt_command.specs.Answers.{IsSeenLineOf, IsVerifyAnswer};
ghost use Rattle.jwt_command.specs.Commands.{ChoosesAlgorithm};

pub(crate) mod case;
pub(crate) mod lines;
pub(crate) mod options;
pub(crate) mod verdict;

use crate::answer::Answer;
use crate::verify::case::Case;
use crate::verify::verdict::verify_with_type;
use jsonwebtoken::{Header, TokenData, Validation};
use jwt_findings::{
    TokenRefusal, escape_unseen, refusal_json, short_refusal_json, token_refusal_lines,
};
use jwt_requests::Fault;
use serde_json::Value;
use std::alloc::{AllocError, Global};

/// The room for what a line has besides the claims.
const LINE: usize = 24;

/// How an answer is written.
#[derive(Clone, Copy)]
pub enum OutputForm {
    /// The claims as JSON.
    Claims,
    /// The header as JSON, and the claims as JSON.
    HeaderAndClaims,
    /// One line of JSON, for a refusal too, with what the failed test found and wanted.
    Json,
    /// One line of JSON for one of many tokens, with the name of the failed test alone.
    Line,
}

/// Returns the answer to a token: status 0 and its claims if it is accepted, and status 1 if it is
/// refused. If the options name no algorithm, that of the token's key is accepted.
pub fn verify_answer(
    alloc: Global,
    case: Case<'_>,
    validation: &Validation,
    form: OutputForm,
) -> Result<Answer, Fault<'static>>
    ensures { let keys = case.entry.loaded.now.keys.keys in let token = case.entry.token.now in
        IfOk result (λ a. (settled : Options)
        × ChoosesAlgorithm keys token (options_of validation.now) settled
        × IsVerifyAnswer token keys settled case.entry.time
        (option_map (λ s. s.now) case.entry.typ) form a.status (string_bytes a.output)) }
{
    match verify_with_type(alloc, case, validation)? {
        Ok(contents) => {
            let answer = accepted_answer(alloc, &contents, form);
            // one drop
            drop(contents);
            answer
        }
        Err(reason) => refused_answer(alloc, case, validation, &reason, form),
    }
}

/// Returns the answer to a token that is accepted.
fn accepted_answer(
    alloc: Global,
    contents: &TokenData<Value>,
    form: OutputForm,
) -> Result<Answer, Fault<'static>>
    ensures { IfOk result (λ a. (a.status ≡ 0) × IsAcceptedText form contents.now.header
        (view contents.now.claims) (string_bytes a.output)) }
{
    Ok(Answer {
        status: 0,
        output: accepted_text(alloc, contents, form)?,
        message: String::new(alloc),
    })
}

fn accepted_text(
    alloc: Global,
    contents: &TokenData<Value>,
    form: OutputForm,
) -> Result<String, Fault<'static>>
    ensures { IfOk result (λ text. IsAcceptedText form contents.now.header
        (view contents.now.claims) (string_bytes text)) }
{
    match form {
        OutputForm::Claims => Ok(seen_line(alloc, &contents.claims)?),
        OutputForm::HeaderAndClaims => {
            let mut text = header_line(alloc, &contents.header)?;
            text.push_str(seen_line(alloc, &contents.claims)?.as_str())?;
            Ok(text)
        }
        OutputForm::Json | OutputForm::Line => Ok(accepted_line(alloc, &contents.claims)?),
    }
}

/// Returns the JSON text of a header, and a newline.
fn header_line(alloc: Global, header: &Header) -> Result<String, Fault<'static>>
    ensures { IfOk result (λ text. IsHeaderLine header.now (string_bytes text)) }
{
    match header.to_value(alloc) {
        Ok(value) => Ok(seen_line(alloc, &value)?),
        Err(_) => Err(Fault::Memory),
    }
}

/// Returns the JSON text of a value, with the characters that are not seen escaped, and a newline.
fn seen_line(alloc: Global, value: &Value) -> Result<String, AllocError>
    ensures { IfOk result (λ text. IsSeenLineOf (view value.now) (string_bytes text)) }
{
    let mut line = escape_unseen(alloc, value.to_string(alloc)?)?;
    line.push('\n')?;
    Ok(line)
}

/// Returns one line of JSON with the claims, as [`seen_line`] writes them.
fn accepted_line(alloc: Global, claims: &Value) -> Result<String, AllocError> {
    let claims = escape_unseen(alloc, claims.to_string(alloc)?)?;
    let mut line = String::with_capacity(alloc, claims.len() + LINE)?;
    line.push_str("{\"ok\":true,\"claims\":")?;
    line.push_str(claims.as_str())?;
    line.push_str("}\n")?;
    Ok(line)
}

/// Returns the answer to a token that is not accepted.
fn refused_answer(
    alloc: Global,
    case: Case<'_>,
    validation: &Validation,
    reason: &TokenRefusal,
    form: OutputForm,
) -> Result<Answer, Fault<'static>>
    ensures { IfOk result (λ a. (a.status ≡ 1) × IsRefusedText form (string_bytes a.output)) }
{
    let output = refused_text(alloc, case, validation, reason, form)?;
    Ok(Answer {
        status: 1,
        output,
        message: token_refusal_lines(alloc, reason, case.loaded.has_line_end)?,
    })
}

fn refused_text(
    alloc: Global,
    case: Case<'_>,
    validation: &Validation,
    reason: &TokenRefusal,
    form: OutputForm,
) -> Result<String, Fault<'static>>
    ensures { IfOk result (λ text. IsRefusedText form (string_bytes text)) }
{
    match form {
        OutputForm::Json => Ok(refusal_json(alloc, case.checked(), validation, reason)?),
        OutputForm::Line => Ok(short_refusal_json(alloc, reason)?),
        _ => Ok(String::new(alloc)),
    }
}
