//! The command `explain`.

ghost use Rattle.std.specs.Prelude.{◌≡◌, IfOk, option_map};
ghost use Rattle.jwt_validation.specs.Options.{Options};
ghost use Rattle.jwt_validation.specs.OptionsOf.{options_of};
ghost use Rattle.jwt_command.specs.Answers.{IsVerdict};
ghost use Rattle.jwt_command.specs.Commands.{ChoosesAlgorithm};

pub(crate) mod orders;

use crate::answer::Answer;
use crate::explain::orders::order;
use crate::verify::case::Case;
use crate::verify::options::strict_validation;
use crate::verify::verdict::refusal_of;
use jsonwebtoken::Validation;
use jwt_findings::{ExplanationForm, TokenRefusal, acceptance_text, refusal_text};
use jwt_requests::{Checks, Fault};
use std::alloc::{AllocError, Global};

/// Returns the answer that explains a token: each test with its result, the first that fails with
/// what it found and what it asks for, the times at which the token is accepted, and whether it
/// is accepted without strict options only, which `checks` name as they were asked for. The status
/// is that of [`verify_answer`](crate::verify::verify_answer).
pub fn explain_answer(
    alloc: Global,
    case: Case<'_>,
    validation: &Validation,
    checks: &Checks<'_, '_>,
    form: ExplanationForm,
) -> Result<Answer, Fault<'static>>
    ensures { let keys = case.entry.loaded.now.keys.keys in let token = case.entry.token.now in
        IfOk result (λ a. (settled : Options)
        × ChoosesAlgorithm keys token (options_of validation.now) settled
        × IsVerdict token keys settled case.entry.time (option_map (λ s. s.now) case.entry.typ)
        a.status) }
{
    let reason = refusal_of(alloc, case, validation)?;
    match reason {
        None => explain_acceptance(alloc, case, validation, checks, form),
        Some(reason) => explain_refusal(alloc, case, validation, &reason, form),
    }
}

fn explain_acceptance(
    alloc: Global,
    case: Case<'_>,
    validation: &Validation,
    checks: &Checks<'_, '_>,
    form: ExplanationForm,
) -> Result<Answer, Fault<'static>>
    ensures { IfOk result (λ a. a.status ≡ 0) }
{
    let strict = strict_options(alloc, validation, checks)?;
    let order = order(case.loaded.keys.keys());
    let output = acceptance_text(
        alloc,
        case.checked(),
        order,
        validation,
        strict.as_ref(),
        form,
    );
    // one drop
    drop(strict);
    Ok(Answer {
        status: 0,
        output: output?,
        message: String::new(alloc),
    })
}

/// Returns strict options, unless the arguments ask for them: the token is accepted by these then.
fn strict_options(
    alloc: Global,
    validation: &Validation,
    checks: &Checks<'_, '_>,
) -> Result<Option<Validation>, Fault<'static>> {
    if checks.is_strict {
        return Ok(None);
    }
    Ok(Some(strict_validation(alloc, validation, checks)?))
}

fn explain_refusal(
    alloc: Global,
    case: Case<'_>,
    validation: &Validation,
    reason: &TokenRefusal,
    form: ExplanationForm,
) -> Result<Answer, Fault<'static>>
    ensures { IfOk result (λ a. a.status ≡ 1) }
{
    let order = order(case.loaded.keys.keys());
    Ok(Answer {
        status: 1,
        output: refusal_text(alloc, case.checked(), order, validation, reason, form)?,
        message: skipped_note(alloc, case.loaded.skipped)?,
    })
}

/// Returns a note about skipped items of the set, or nothing if there are none.
fn skipped_note(alloc: Global, skipped: usize) -> Result<String, AllocError> {
    if skipped == 0 {
        return Ok(String::new(alloc));
    }
    format!(in alloc; "note: skipped {skipped} of the items of this set; 'jwt keys' shows why\n")
}
