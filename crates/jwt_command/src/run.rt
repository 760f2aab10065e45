//! From a request to its answer.

ghost use Rattle.std.specs.Prelude.{◌≡◌, ℕ, List, Some, IfOk, OnOk, is_some, string_bytes};
ghost use Rattle.jwt_validation.specs.OptionsOf.{options_of};
ghost use Rattle.jwt_verifier.specs.declared.keys.Keys.{Keys};
ghost use Rattle.jwt_command.specs.BySignature.{IsAttached};
ghost use Rattle.jwt_command.specs.Commands.{AreAsked, AreGiven, AreVerified, IsAnswer, IsAttaching};
ghost use Rattle.jwt_command.specs.Commands.{IsExplanation, IsSigningInput};
ghost use Rattle.jwt_command.specs.Commands.{IsGiven, IsGivenToken, IsShown};
ghost use Rattle.jwt_command.specs.Commands.{IsSigned, IsSigning, IsTokenAnswer, IsTokenVerdict};
ghost use Rattle.jwt_command.specs.Commands.{IsVerification, form_asked};
ghost use Rattle.jwt_command.specs.FileKeys.{AreLoaded, IsJwkLine};
ghost use Rattle.jwt_command.specs.Own.{with_key_algorithm};

use crate::answer::Answer;
use crate::clock::current_time;
use crate::explain::explain_answer;
use crate::files::{file_bytes, input_bytes, is_file_name, strip_line_end, token_input};
use crate::keys::jwk::jwk_answer;
use crate::keys::table::keys_answer;
use crate::keys::thumbprint::thumbprint_answer;
use crate::keys::{LoadedKeys, Preparation, given_secret, load, names_algorithm};
use crate::show::show_answer;
use crate::sign::by_signature::{attached_answer, input_answer};
use crate::sign::{claims, claims_answer};
use crate::verify::case::Case;
use crate::verify::lines::answer_lines;
use crate::verify::options::{lists_none, requested_validation};
use crate::verify::{OutputForm, verify_answer};
use jsonwebtoken::Validation;
use jwt_findings::ExplanationForm;
use jwt_requests::{
    AttachArgs, Draft, Fault, KeyFile, KeysArgs, Request, ShowArgs, SignArgs, ThumbprintArgs,
    VerifyArgs,
};
use jwt_verifier::PREPARED_LIMIT;
use std::alloc::Global;
use std::rt::{Clock, Files};

/// Returns the answer to a request.
pub fn answer<'a, R: Files + Input + Print + Eprint + Clock + AllocGlobal>(
    rt: &R,
    request: &Request<'_, 'a>,
) -> Result<Answer, Fault<'a>>
    ensures { IfOk result (λ a. IsAnswer request.now a.status (string_bytes a.output)) }
{
    match request {
        Request::Verify(request) if request.is_lines => run_verify_lines(rt, request),
        Request::Verify(request) => run_verify(rt, request),
        Request::Explain(request) => run_explain(rt, request),
        Request::Show(request) => run_show(rt, request),
        Request::Sign(request) => run_sign(rt, request),
        Request::SigningInput(draft) => run_signing_input(rt, draft),
        Request::Attach(request) => run_attach(rt, request),
        Request::Keys(request) => run_keys(rt, request),
        Request::Jwk(path) => run_jwk(rt, path),
        Request::Thumbprint(request) => run_thumbprint(rt, request),
    }
}

/// Answers each line of standard input, and returns the status. The answers are written by then, and
/// how many tokens were accepted and refused.
fn run_verify_lines<'a, R: Files + Input + Print + Eprint + Clock + AllocGlobal>(
    rt: &R,
    request: &VerifyArgs<'_, 'a>,
) -> Result<Answer, Fault<'a>>
    ensures { IfOk result (λ a. AreVerified request.entry.now a.status) }
{
    let (loaded, validation) = keys_and_options(rt, request)?;
    let tally = answer_lines(rt, request, &loaded, &validation);
    // one drop
    drop(loaded);
    drop(validation);
    let tally = tally?;
    // not in the answer, whose text would be allocated after the lines are written
    let _ = eprintln!(rt; "{} accepted, {} refused", tally.accepted, tally.refused);
    Ok(Answer {
        status: tally.status,
        output: String::new(rt.alloc()),
        message: String::new(rt.alloc()),
    })
}

/// Returns the keys and the options that tokens are checked with. If neither the arguments nor a
/// file name an algorithm, the keys have to.
fn keys_and_options<'a, R: Files + AllocGlobal>(
    rt: &R,
    request: &VerifyArgs<'_, 'a>,
) -> Result<(LoadedKeys, Validation), Fault<'a>>
    ensures { IfOk result (λ p. AreAsked request.entry.now p.0 (options_of p.1)) }
{
    let options = options_bytes(rt, request.checks.options)?;
    let mut validation = requested_validation(rt.alloc(), &request.checks, options.as_deref())?;
    match keys_for(rt, request, &mut validation) {
        Ok(loaded) => Ok((loaded, validation)),
        Err(fault) => {
            // one drop
            drop(validation);
            Err(fault)
        }
    }
}

/// Returns the bytes of the file of options, if the arguments have one.
fn options_bytes<'a, R: Files + AllocGlobal>(
    rt: &R,
    path: Option<&'a str>,
) -> Result<Option<Vec<u8>>, Fault<'a>>
    ensures { IfOk result (λ bytes. is_some bytes ≡ is_some path.entry) }
{
    match path {
        Some(path) => Ok(Some(file_bytes(rt, path)?)),
        None => Ok(None),
    }
}

/// Returns the keys that the arguments name, prepared if they serve many tokens. If the options name
/// no algorithm, the keys have to, and that of one key is listed in the options.
fn keys_for<'a, R: Files + AllocGlobal>(
    rt: &R,
    request: &VerifyArgs<'_, 'a>,
    validation: &mut Validation,
) -> Result<LoadedKeys, Fault<'a>>
    ensures { IfOk result (λ l. ((key : List ℕ)
        × AreLoaded request.entry.now.key key l.keys.keys l.own)
        × (options_of validation.new ≡ with_key_algorithm l.own (options_of validation.old))) }
{
    let key = file_bytes(rt, path_of(request.key))?;
    let preparation = Preparation {
        algorithms: validation.algorithms.as_slice(),
        bytes: if request.is_lines { PREPARED_LIMIT } else { 0 },
    };
    let loaded = load(rt.alloc(), request.key, &key, preparation)?;
    match list_own(validation, &loaded) {
        Ok(()) => Ok(loaded),
        Err(fault) => {
            drop(loaded);
            Err(fault)
        }
    }
}

/// Lists the algorithm that the one key is for, if the options name none.
fn list_own(validation: &mut Validation, loaded: &LoadedKeys) -> Result<(), Fault<'static>>
    ensures { OnOk result (options_of validation.new
        ≡ with_key_algorithm loaded.now.own (options_of validation.old)) }
{
    if !lists_none(validation) {
        return Ok(());
    }
    if !names_algorithm(loaded) {
        return Err(Fault::Usage("--alg is needed: the key has no 'alg' of its own"));
    }
    if let Some(own) = loaded.own {
        validation.algorithms.push(own)?;
    }
    Ok(())
}

/// Returns the path of a file of keys.
fn path_of<'a>(file: KeyFile<'a>) -> &'a str {
    match file {
        KeyFile::Secret(file) => file.path,
        KeyFile::Jwk(path) | KeyFile::Jwks(path) | KeyFile::Pem(path) => path,
    }
}

fn run_verify<'a, R: Files + Input + Clock + AllocGlobal>(
    rt: &R,
    request: &VerifyArgs<'_, 'a>,
) -> Result<Answer, Fault<'a>>
    ensures { IfOk result (λ a. IsVerification request.entry.now a.status (string_bytes a.output)) }
{
    let (loaded, validation) = keys_and_options(rt, request)?;
    let answer = verify_token(rt, request, &loaded, &validation);
    // one drop
    drop(loaded);
    drop(validation);
    answer
}

/// Returns the answer of `verify` under these keys and options.
fn verify_token<R: Files + Input + Clock + AllocGlobal>(
    rt: &R,
    request: &VerifyArgs<'_, '_>,
    loaded: &LoadedKeys,
    validation: &Validation,
) -> Result<Answer, Fault<'static>>
    ensures { IfOk result (λ a. (bytes : List ℕ) × IsGivenToken request.entry.now.token bytes
        × ((time : ℕ) × IsGiven request.entry.now.time time
        × IsTokenAnswer request.entry.now loaded.now (options_of validation.now) bytes time
        (form_asked request.entry.now) a.status (string_bytes a.output))) }
{
    let time = current_time(rt, request.time)?;
    let bytes = token_bytes(rt, request.token)?;
    let case = Case {
        token: strip_line_end(&bytes),
        loaded,
        typ: request.typ,
        time,
    };
    verify_answer(rt.alloc(), case, validation, form(request))
}

/// Returns the token that is given, or that of standard input.
fn token_bytes<R: Files + Input + AllocGlobal>(
    rt: &R,
    given: Option<&str>,
) -> Result<Vec<u8>, Fault<'static>>
    ensures { IfOk result (λ b. IsGivenToken given.entry b.items) }
{
    match given {
        None | Some("-") => token_input(rt),
        Some(token) => {
            if is_file_name(rt, token) {
                return Err(Fault::Usage("the token is the name of a file; '< FILE' reads it"));
            }
            Ok(token.as_bytes().to_vec(rt.alloc())?)
        }
    }
}

fn form(request: &VerifyArgs<'_, '_>) -> OutputForm
    ensures { result ≡ form_asked request.entry.now }
{
    if request.is_json {
        OutputForm::Json
    } else if request.has_header {
        OutputForm::HeaderAndClaims
    } else {
        OutputForm::Claims
    }
}

fn run_explain<'a, R: Files + Input + Clock + AllocGlobal>(
    rt: &R,
    request: &VerifyArgs<'_, 'a>,
) -> Result<Answer, Fault<'a>>
    ensures { IfOk result (λ a. IsExplanation request.entry.now a.status) }
{
    let (loaded, validation) = keys_and_options(rt, request)?;
    let answer = explain_token(rt, request, &loaded, &validation);
    // one drop
    drop(loaded);
    drop(validation);
    answer
}

/// Returns the answer of `explain` under these keys and options.
fn explain_token<R: Files + Input + Clock + AllocGlobal>(
    rt: &R,
    request: &VerifyArgs<'_, '_>,
    loaded: &LoadedKeys,
    validation: &Validation,
) -> Result<Answer, Fault<'static>>
    ensures { IfOk result (λ a. (bytes : List ℕ) × IsGivenToken request.entry.now.token bytes
        × ((time : ℕ) × IsGiven request.entry.now.time time
        × IsTokenVerdict request.entry.now loaded.now (options_of validation.now) bytes time
        a.status)) }
{
    let time = current_time(rt, request.time)?;
    let bytes = token_bytes(rt, request.token)?;
    let case = Case {
        token: strip_line_end(&bytes),
        loaded,
        typ: request.typ,
        time,
    };
    explain_answer(
        rt.alloc(),
        case,
        validation,
        &request.checks,
        explanation_form(request),
    )
}

fn explanation_form(request: &VerifyArgs<'_, '_>) -> ExplanationForm {
    if request.is_json {
        ExplanationForm::Json
    } else if request.is_brief {
        ExplanationForm::Brief
    } else {
        ExplanationForm::Page
    }
}

fn run_show<'a, R: Files + Input + Clock + AllocGlobal>(
    rt: &R,
    request: &ShowArgs<'a>,
) -> Result<Answer, Fault<'a>>
    ensures { IfOk result (λ a. IsShown request.entry.now a.status) }
{
    let time = current_time(rt, request.time)?;
    let input = token_bytes(rt, request.token)?;
    show_answer(rt.alloc(), strip_line_end(&input), time, request.is_json)
}

fn run_sign<'a, R: Files + Input + Clock + AllocGlobal>(
    rt: &R,
    request: &SignArgs<'a>,
) -> Result<Answer, Fault<'a>>
    ensures { IfOk result (λ a. IsSigning request.entry.now a.status (string_bytes a.output)) }
{
    let time = current_time(rt, request.draft.time)?;
    let key = file_bytes(rt, request.secret.path)?;
    let text = claims_bytes(rt, request.draft.claims)?;
    sign_claims(rt.alloc(), request, &key, &text, time)
}

/// Returns the bytes of the file of claims, or those of standard input.
fn claims_bytes<'a, R: Files + Input + AllocGlobal>(
    rt: &R,
    path: Option<&'a str>,
) -> Result<Vec<u8>, Fault<'a>> {
    match path {
        Some(path) => file_bytes(rt, path),
        None => input_bytes(rt),
    }
}

/// Returns the answer of `sign` for the bytes of the secret's file and of the claims.
fn sign_claims<'a>(
    alloc: Global,
    request: &SignArgs<'a>,
    key: &[u8],
    text: &[u8],
    time: u64,
) -> Result<Answer, Fault<'a>>
    ensures { IfOk result (λ a. IsSigned request.entry.now key.now text.now time a.status
        (string_bytes a.output)) }
{
    let claims = claims(alloc, text, &request.draft, time)?;
    let secret = given_secret(alloc, request.secret, key)?;
    claims_answer(alloc, &request.draft, &claims, secret)
}

fn run_signing_input<'a, R: Files + Input + Clock + AllocGlobal>(
    rt: &R,
    draft: &Draft<'a>,
) -> Result<Answer, Fault<'a>>
    ensures { IfOk result (λ a. IsSigningInput draft.entry.now a.status (string_bytes a.output)) }
{
    let time = current_time(rt, draft.time)?;
    let text = claims_bytes(rt, draft.claims)?;
    let claims = claims(rt.alloc(), &text, draft, time)?;
    input_answer(rt.alloc(), draft, &claims)
}

/// Returns the token of the signing input on standard input and of the signature that a file has.
fn run_attach<'a, R: Files + Input + AllocGlobal>(
    rt: &R,
    request: &AttachArgs<'a>,
) -> Result<Answer, Fault<'a>>
    ensures { IfOk result (λ a. IsAttaching request.entry.now a.status (string_bytes a.output)) }
{
    let signature = file_bytes(rt, request.signature)?;
    let input = token_input(rt)?;
    let input = strip_line_end(&input);
    match request.key {
        Some(file) => attach_verified(rt, file, input, &signature),
        None => attached_answer(rt.alloc(), input, &signature, None),
    }
}

/// Returns the token of a signing input and of a signature, verified with the keys of a file.
fn attach_verified<'a, R: Files + AllocGlobal>(
    rt: &R,
    file: KeyFile<'a>,
    input: &[u8],
    signature: &[u8],
) -> Result<Answer, Fault<'a>>
    ensures { IfOk result (λ a. (keys : Keys) × AreGiven (Some file.entry) (Some keys)
        × IsAttached input.now signature.now (Some keys) a.status (string_bytes a.output)) }
{
    let bytes = file_bytes(rt, path_of(file))?;
    let preparation = Preparation {
        algorithms: &[],
        bytes: 0,
    };
    let loaded = load(rt.alloc(), file, &bytes, preparation)?;
    let answer = attached_answer(rt.alloc(), input, signature, Some(&loaded));
    // one drop
    drop(loaded);
    answer
}

fn run_keys<'a, R: Files + Input + AllocGlobal>(
    rt: &R,
    request: &KeysArgs<'a>,
) -> Result<Answer, Fault<'a>>
    ensures { IfOk result (λ a. a.status ≡ 0) }
{
    let bytes = key_bytes(rt, request.file)?;
    keys_answer(rt.alloc(), request, &bytes)
}

/// Returns the bytes of a file of keys, or of standard input if its name is `-`.
fn key_bytes<'a, R: Files + Input + AllocGlobal>(
    rt: &R,
    path: &'a str,
) -> Result<Vec<u8>, Fault<'a>> {
    if path == "-" {
        input_bytes(rt)
    } else {
        file_bytes(rt, path)
    }
}

fn run_jwk<'a, R: Files + Input + AllocGlobal>(rt: &R, path: &'a str) -> Result<Answer, Fault<'a>>
    ensures { IfOk result (λ a. (a.status ≡ 0)
        × ((bytes : List ℕ) × IsJwkLine bytes (string_bytes a.output))) }
{
    let bytes = key_bytes(rt, path)?;
    jwk_answer(rt.alloc(), path, &bytes)
}

fn run_thumbprint<'a, R: Files + Input + AllocGlobal>(
    rt: &R,
    request: &ThumbprintArgs<'a>,
) -> Result<Answer, Fault<'a>>
    ensures { IfOk result (λ a. a.status ≡ 0) }
{
    let bytes = key_bytes(rt, request.file)?;
    thumbprint_answer(rt.alloc(), request.file, &bytes, &request.hash)
}
