//! The result of the call for C that checks claims by the rules of options.

ghost use Rattle.std.specs.Prelude.{[], IfErr, IsSome, OnOk};
ghost use Rattle.serde_json.specs.Find.{as_object};
ghost use Rattle.serde_json.specs.View.{view};
ghost use Rattle.jwt_c_calls.specs.Asked.{asked_of};
ghost use Rattle.jwt_c_calls.specs.Calls.{Returns, answer_of};
ghost use Rattle.jwt_c_calls.specs.ClaimRules.{AnswersRules, AnswersRulesOf};

use crate::asked::{Asked, read_options};
use crate::inputs::{CallError, Input, read_as, read_claims};
use jwt_further::further_fault;
use jwt_validation::validate;
use serde_json::Value;
use std::alloc::Global;
use std::result::Result;

/// Checks claims, which are the JSON text of an object, by the rules of the options that a text
/// describes. The options are read first.
pub fn rules_answer(
    alloc: Global,
    claims: &[u8],
    options: &[u8],
    time: u64,
) -> Result<(), CallError>
    ensures ok { OnOk result (AnswersRules options.now claims.now time (Returns [])) }
    ensures err { IfErr result (λ r. AnswersRules options.now claims.now time (answer_of r)) }
{
    let asked = read_as(Input::Options, read_options(alloc, options))?;
    let claims = read_as(Input::Claims, read_claims(alloc, claims))?;
    let checked = check_rules(alloc, &claims, &asked, time);
    // one drop
    drop(claims);
    drop(asked);
    checked
}

fn check_rules(alloc: Global, claims: &Value, asked: &Asked, time: u64) -> Result<(), CallError>
    requires { IsSome (as_object (view claims.now)) }
    ensures ok { OnOk result (AnswersRulesOf (asked_of asked.now) (view claims.now) time (Returns [])) }
    ensures err { IfErr result (λ r. AnswersRulesOf (asked_of asked.now) (view claims.now) time
        (answer_of r)) }
{
    validate(alloc, claims, &asked.validation, time)?;
    match further_fault(claims, &asked.further, asked.validation.leeway, time) {
        Some(fault) => Err(CallError::Further(fault)),
        None => Ok(()),
    }
}
