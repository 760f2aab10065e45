//! The result of the call for C that verifies a token whose signature the caller has checked.

ghost use Rattle.std.specs.Prelude.{IfOk, IfErr};
ghost use Rattle.serde_json.specs.View.{view};
ghost use Rattle.jwt_base.specs.JsonText.{IsJson};
ghost use Rattle.jsonwebtoken.specs.Order.{Passes};
ghost use Rattle.jsonwebtoken.specs.Tests.{Contents, header_call, payload_bytes_order, token_tests};
ghost use Rattle.jwt_c_calls.specs.AsSigned.{IsShownAs};
ghost use Rattle.jwt_c_calls.specs.Asked.{asked_of};
ghost use Rattle.jwt_c_calls.specs.Calls.{Returns, AnswersVerdict, AnswersVerdictOf, AnswersGivenVerdict};
ghost use Rattle.jwt_c_calls.specs.Calls.{IsCheckedText, answer_of, answer_in, said_value};
ghost use Rattle.jwt_c_calls.specs.Status.{algorithm_numbered};

use crate::as_signed::{Shown, show};
use crate::asked::{Asked, read_options};
use crate::inputs::{CallError, Input, read_as};
use crate::status::numbered_algorithm;
use jsonwebtoken::crypto::verdict::VerdictProvider;
use jsonwebtoken::dangerous::insecure_payload_bytes;
use jsonwebtoken::decode_by_verdict;
use jsonwebtoken::errors::{ErrorKind, new_error};
use jwt_further::further_fault;
use serde_json::Value;
use std::alloc::{AllocError, Global};
use std::result::Result;

/// The verdict of a caller on a signature of a message, by the algorithm of this number.
#[derive(Drop)]
pub struct CallerVerdict<'a> {
    pub algorithm: u32,
    pub message: &'a [u8],
    pub signature: &'a [u8],
    pub verdict: bool,
}

/// Returns the claims of a token whose signature the caller has checked.
pub fn given_verdict_answer(
    alloc: Global,
    token: &[u8],
    said: &CallerVerdict<'_>,
    options: &[u8],
    time: u64,
) -> Result<Vec<u8>, CallError>
    ensures { AnswersGivenVerdict (algorithm_numbered said.now.algorithm) options.now token.now
        (said_value said.now) time (answer_in (λ b. b.items) result) }
{
    match numbered_algorithm(said.algorithm) {
        Some(by) => {
            let verdict = VerdictProvider::new(by, said.message, said.signature, said.verdict);
            verdict_answer(alloc, token, &verdict, options, time)
        }
        None => Err(CallError::Token(new_error(ErrorKind::InvalidAlgorithmName))),
    }
}

fn verdict_answer(
    alloc: Global,
    token: &[u8],
    verdict: &VerdictProvider<'_>,
    options: &[u8],
    time: u64,
) -> Result<Vec<u8>, CallError>
    ensures ok { IfOk result (λ b. AnswersVerdict options.now token.now verdict.now time
        (Returns b.items)) }
    ensures err { IfErr result (λ r. AnswersVerdict options.now token.now verdict.now time
        (answer_of r)) }
{
    let asked = read_as(Input::Options, read_options(alloc, options))?;
    let answer = answer_by_verdict(alloc, token, verdict, &asked, time);
    drop(asked);
    answer
}

fn answer_by_verdict(
    alloc: Global,
    token: &[u8],
    verdict: &VerdictProvider<'_>,
    asked: &Asked,
    time: u64,
) -> Result<Vec<u8>, CallError>
    ensures ok { IfOk result (λ b. AnswersVerdictOf (asked_of asked.now) token.now verdict.now time
        (Returns b.items)) }
    ensures err { IfErr result (λ r. AnswersVerdictOf (asked_of asked.now) token.now verdict.now
        time (answer_of r)) }
{
    let data = decode_by_verdict::<Value>(alloc, token, verdict, &asked.validation, time)?;
    let text = checked_text(alloc, token, &data.claims, asked, time);
    // one drop
    drop(data);
    text
}

// Returns the text of claims that meet the further rules.
fn checked_text(
    alloc: Global,
    token: &[u8],
    claims: &Value,
    asked: &Asked,
    time: u64,
) -> Result<Vec<u8>, CallError>
    ensures { IsCheckedText token.now (view claims.now) (asked_of asked.now) time
        (answer_in (λ b. b.items) result) }
{
    if let Some(fault) = further_fault(claims, &asked.further, asked.validation.leeway, time) {
        return Err(CallError::Further(fault));
    }
    let shown = payload_shown(alloc, token, claims)?;
    Ok(shown.text)
}

/// Returns the text of a token's payload, which was read as these claims.
pub fn payload_shown(alloc: Global, token: &[u8], claims: &Value) -> Result<Shown, AllocError>
    ensures { IfOk result (λ s. (t : Contents)
        → Passes (token_tests (header_call token.now)) payload_bytes_order t
        → IsJson t.payload_bytes (view claims.now)
        → IsShownAs t.payload_bytes (view claims.now) s.text.items s.as_signed) }
{
    match insecure_payload_bytes(alloc, token) {
        Ok(bytes) => show(alloc, bytes, claims),
        // the token was accepted, so that it has a payload
        Err(_) => Err(AllocError),
    }
}
