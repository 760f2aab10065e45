//! The options that a token is checked against, from the arguments.

// `--require`, `--aud`, `--iss` and `--sub` add to what a file of options requires, while `--alg`,
// `--leeway` and the others replace it: who names an audience wants a token to have one.

ghost use Rattle.std.specs.Prelude.{◌≡◌, ◌≢◌, ◌⊎◌, ◌&&◌, ◌||◌, [], IfOk, IfErr, OnOk, option_map};
ghost use Rattle.std.specs.Prelude.{unwrap_or, not, true, false};
ghost use Rattle.std.specs.Option.{option_or};
ghost use Rattle.std.specs.HashSet.{contains_text};
ghost use Rattle.std.specs.Str.{bytes_eq};
ghost use Rattle.jwt_validation.specs.Options.{among, default_options};
ghost use Rattle.jwt_validation.specs.OptionsOf.{options_of};
ghost use Rattle.jwt_command.specs.Requested.{AreRequested, IsBase, IsNoBase};
ghost use Rattle.jwt_command.specs.Requested.{changed_options, given_texts, kept_claims};
ghost use Rattle.jwt_command.specs.Requested.{required_claims, strict_options, strict_options_if};
ghost use Rattle.jwt_command.specs.Requested.{texts_or};

use jsonwebtoken::errors::Error;
use jsonwebtoken::{Algorithm, Validation};
use jwt_requests::{Checks, Fault, fault_of};
use std::alloc::Global;
use std::collections::HashSet;

/// Returns the options that the arguments would ask for if they asked for strict ones too.
pub fn strict_validation(
    alloc: Global,
    validation: &Validation,
    checks: &Checks<'_, '_>,
) -> Result<Validation, Fault<'static>> {
    let Ok(mut strict) = validation.clone(alloc) else {
        return Err(Fault::Memory);
    };
    make_strict_if(alloc, &mut strict, true)?;
    set_times(&mut strict, checks);
    Ok(strict)
}

/// Returns the options of the arguments: those of the file, whose bytes are given, made strict if
/// that is asked for, and then changed by each other argument that is given. The algorithms are
/// those of the arguments if they name any, and else those of the file.
pub fn requested_validation<'a>(
    alloc: Global,
    checks: &Checks<'_, 'a>,
    bytes: Option<&[u8]>,
) -> Result<Validation, Fault<'a>>
    ensures { IfOk result (λ v. AreRequested checks.now (option_map (λ b. b.now) bytes.entry)
        (options_of v)) }
{
    let mut validation = base_options(alloc, checks.options, bytes)?;
    make_strict_if(alloc, &mut validation, checks.is_strict)?;
    change(alloc, &mut validation, checks)?;
    Ok(validation)
}

/// Returns whether the options name no algorithm.
pub fn lists_none(validation: &Validation) -> bool
    ensures none { result ≡ true → validation.now.algorithms.items ≡ [] }
    ensures some { result ≡ false → validation.now.algorithms.items ≢ [] }
{
    validation.algorithms.is_empty()
}

/// Makes options strict, if that is asked for.
fn make_strict_if(
    alloc: Global,
    validation: &mut Validation,
    is_strict: bool,
) -> Result<(), Fault<'static>>
    ensures { OnOk result (options_of validation.new
        ≡ strict_options_if is_strict (options_of validation.old)) }
{
    if !is_strict {
        return Ok(());
    }
    match make_strict(alloc, validation) {
        Ok(()) => Ok(()),
        Err(_) => Err(Fault::Memory),
    }
}

/// Makes options strict: `nbf` is checked, without leeway, a token is refused from its `exp` on,
/// and the claims that have a value are required.
fn make_strict(alloc: Global, validation: &mut Validation) -> Result<(), Error>
    ensures { OnOk result (options_of validation.new ≡ strict_options (options_of validation.old)) }
{
    validation.leeway = 0;
    let seconds = validation.reject_tokens_expiring_in_less_than;
    validation.reject_tokens_expiring_in_less_than = u64::max(1, seconds);
    validation.validate_nbf = true;
    validation.require_configured(alloc)
}

/// Changes the times and the checks that the arguments name.
fn set_times(validation: &mut Validation, checks: &Checks<'_, '_>)
    ensures { options_of validation.new ≡ record (options_of validation.old) {
      leeway = unwrap_or checks.now.leeway validation.old.leeway;
      reject = unwrap_or checks.now.not_within validation.old.reject_tokens_expiring_in_less_than;
      checks_exp = not checks.now.skips_exp && validation.old.validate_exp;
      checks_nbf = checks.now.checks_nbf || validation.old.validate_nbf;
    } }
{
    validation.leeway = checks.leeway.unwrap_or(validation.leeway);
    let seconds = validation.reject_tokens_expiring_in_less_than;
    validation.reject_tokens_expiring_in_less_than = checks.not_within.unwrap_or(seconds);
    validation.validate_exp = !checks.skips_exp && validation.validate_exp;
    validation.validate_nbf = checks.checks_nbf || validation.validate_nbf;
}

/// Returns the options that a JSON file describes, or those that are the default without a file.
fn base_options<'a>(
    alloc: Global,
    path: Option<&'a str>,
    bytes: Option<&[u8]>,
) -> Result<Validation, Fault<'a>>
    ensures ok { IfOk result (λ v. IsBase (option_map (λ b. b.now) bytes.entry) (options_of v)) }
    ensures err { IfErr result (λ e. (e ≡ Fault.Memory)
        ⊎ IsNoBase (option_map (λ b. b.now) bytes.entry)) }
{
    let Some(bytes) = bytes else {
        return default_validation(alloc);
    };
    match Validation::from_slice(alloc, bytes) {
        Ok(validation) => Ok(validation),
        Err(error) => {
            let path = path.unwrap_or("");
            let problem = "these are not the options of a validation in JSON";
            Err(fault_of(&error, Fault::File { path, problem }))
        }
    }
}

/// Returns the default options, with no algorithm.
fn default_validation(alloc: Global) -> Result<Validation, Fault<'static>>
    ensures ok { IfOk result (λ v. options_of v ≡ default_options []) }
    ensures err { IfErr result (λ e. e ≡ Fault.Memory) }
{
    match Validation::new(alloc, Algorithm::HS256) {
        Ok(mut validation) => {
            validation.algorithms.clear();
            Ok(validation)
        }
        Err(_) => Err(Fault::Memory),
    }
}

/// Changes the options as the arguments ask for.
fn change(
    alloc: Global,
    validation: &mut Validation,
    checks: &Checks<'_, '_>,
) -> Result<(), Fault<'static>>
    ensures { OnOk result (options_of validation.new
        ≡ changed_options checks.now (options_of validation.old)) }
{
    let Ok(()) = set_names(alloc, validation, checks) else {
        return Err(Fault::Memory);
    };
    set_times(validation, checks);
    // no tail call, for the proof
    set_required(alloc, &mut validation.required_spec_claims, checks)?;
    Ok(())
}

/// Changes the names that the arguments have.
fn set_names(
    alloc: Global,
    validation: &mut Validation,
    checks: &Checks<'_, '_>,
) -> Result<(), Error>
    ensures { OnOk result (options_of validation.new ≡ record (options_of validation.old) {
      aud = texts_or checks.now.audiences (options_of validation.old).aud;
      iss = texts_or checks.now.issuers (options_of validation.old).iss;
      sub = option_or (option_map (λ s. s.now) checks.now.subject) (options_of validation.old).sub;
      understood = unwrap_or (option_map (λ names. among (λ s. s.now) names.now)
          checks.now.understood) (options_of validation.old).understood;
      algorithms = unwrap_or (option_map (λ a. a.items) checks.now.algorithms)
          validation.old.algorithms.items;
    }) }
{
    set_audiences(alloc, validation, checks.audiences)?;
    set_issuers(alloc, validation, checks.issuers)?;
    set_subject(alloc, validation, checks.subject)?;
    set_understood(alloc, validation, checks.understood)?;
    // no tail call, for the proof
    set_algorithms(alloc, validation, checks.algorithms.as_deref())?;
    Ok(())
}

fn set_audiences(
    alloc: Global,
    validation: &mut Validation,
    names: Option<&[&str]>,
) -> Result<(), Error>
    ensures { OnOk result (options_of validation.new ≡ record (options_of validation.old)
        { aud = texts_or names.entry (options_of validation.old).aud }) }
{
    match names {
        Some(names) => validation.set_audience(alloc, names),
        None => Ok(()),
    }
}

fn set_issuers(
    alloc: Global,
    validation: &mut Validation,
    names: Option<&[&str]>,
) -> Result<(), Error>
    ensures { OnOk result (options_of validation.new ≡ record (options_of validation.old)
        { iss = texts_or names.entry (options_of validation.old).iss }) }
{
    match names {
        Some(names) => validation.set_issuer(alloc, names),
        None => Ok(()),
    }
}

fn set_subject(alloc: Global, validation: &mut Validation, name: Option<&str>) -> Result<(), Error>
    ensures { OnOk result (options_of validation.new ≡ record (options_of validation.old)
        { sub = option_or (option_map (λ s. s.now) name.entry) (options_of validation.old).sub }) }
{
    match name {
        Some(name) => validation.set_subject(alloc, name),
        None => Ok(()),
    }
}

fn set_understood(
    alloc: Global,
    validation: &mut Validation,
    names: Option<&[&str]>,
) -> Result<(), Error>
    ensures { OnOk result (options_of validation.new ≡ record (options_of validation.old) {
      understood = unwrap_or (option_map (λ names. among (λ s. s.now) names.now) names.entry)
          (options_of validation.old).understood;
    }) }
{
    match names {
        Some(names) => validation.set_understood_crit(alloc, names),
        None => Ok(()),
    }
}

fn set_algorithms(
    alloc: Global,
    validation: &mut Validation,
    algorithms: Option<&[Algorithm]>,
) -> Result<(), Error>
    ensures { OnOk result (options_of validation.new ≡ record (options_of validation.old) {
      algorithms = unwrap_or (option_map (λ a. a.now) algorithms.entry)
          validation.old.algorithms.items;
    }) }
{
    if let Some(algorithms) = algorithms {
        validation.algorithms = algorithms.to_vec(alloc)?;
    }
    Ok(())
}

/// Changes the claims that are required as the arguments ask for.
fn set_required(
    alloc: Global,
    claims: &mut HashSet<String>,
    checks: &Checks<'_, '_>,
) -> Result<(), Fault<'static>>
    ensures { OnOk result ((t : _) → contains_text claims.new t
        ≡ required_claims checks.now (contains_text claims.old) t) }
{
    skip_exp(claims, checks.skips_exp);
    require_named(alloc, claims, checks.required)?;
    require_if(alloc, claims, checks.audiences.is_some(), "aud")?;
    require_if(alloc, claims, checks.issuers.is_some(), "iss")?;
    // no tail call, for the proof
    require_if(alloc, claims, checks.subject.is_some(), "sub")?;
    Ok(())
}

/// Removes the name of the claim `exp`, if it is not checked.
fn skip_exp(claims: &mut HashSet<String>, skips_exp: bool)
    ensures { (t : _) → contains_text claims.new t
        ≡ kept_claims skips_exp (contains_text claims.old) t }
{
    if skips_exp {
        claims.remove("exp");
    }
}

/// Adds the names of claims that an argument has.
fn require_named(
    alloc: Global,
    claims: &mut HashSet<String>,
    names: Option<&[&str]>,
) -> Result<(), Fault<'static>>
    ensures { OnOk result ((t : _) → contains_text claims.new t
        ≡ (given_texts names.entry t || contains_text claims.old t)) }
{
    match names {
        Some(names) => require_all(alloc, claims, names),
        None => Ok(()),
    }
}

/// Adds the names of claims.
fn require_all(
    alloc: Global,
    claims: &mut HashSet<String>,
    names: &[&str],
) -> Result<(), Fault<'static>>
    ensures { OnOk result ((t : _) → contains_text claims.new t
        ≡ (among (λ s. s.now) names.now t || contains_text claims.old t)) }
{
    for name in names {
        require(alloc, claims, name)?;
    }
    Ok(())
}

/// Adds the name of a claim.
fn require(alloc: Global, claims: &mut HashSet<String>, name: &str) -> Result<(), Fault<'static>>
    ensures { OnOk result ((t : _) → contains_text claims.new t
        ≡ (bytes_eq name.now t || contains_text claims.old t)) }
{
    claims.insert(String::from_str(alloc, name)?)?;
    Ok(())
}

/// Adds the name of a claim, if an argument gives the claim a value.
fn require_if(
    alloc: Global,
    claims: &mut HashSet<String>,
    has_value: bool,
    name: &str,
) -> Result<(), Fault<'static>>
    ensures { OnOk result ((t : _) → contains_text claims.new t
        ≡ ((has_value && bytes_eq name.now t) || contains_text claims.old t)) }
{
    if has_value {
        require(alloc, claims, name)?;
    }
    Ok(())
}
