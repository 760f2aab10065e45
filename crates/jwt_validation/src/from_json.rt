//! Reading a validation from JSON.

// No algorithm is chosen and no member ignored: a misspelt `audience` would otherwise be an
// audience that nobody checks.

ghost use Rattle.std.specs.Prelude.{◌≡◌, ℕ, Bool, List, Some, None, [], false, true, map, IfOk, IfErr};
ghost use Rattle.std.specs.Prelude.{MatchResult, option_map, string_bytes, codes};
ghost use Rattle.std.specs.HashSet.{contains_text};
ghost use Rattle.std.specs.Str.{bytes_eq};
ghost use Rattle.serde_json.specs.Find.{get, as_bool, as_str, as_object};
ghost use Rattle.serde_json.specs.View.{view, members_view};
ghost use Rattle.jwt_base.specs.Kind as kind;
ghost use Rattle.jwt_base.specs.KindOf.{IsMemory, RefusesAs};
ghost use Rattle.jwt_base.specs.Members.{optional};
ghost use Rattle.jwt_validation.specs.Options.{Options, among, no_texts};
ghost use Rattle.jwt_validation.specs.OptionsOf.{options_of};
ghost use Rattle.jwt_validation.specs.OptionsRead.{option_names, has_other, HasOptionNames};
ghost use Rattle.jwt_validation.specs.OptionsRead.{whole_number, or_default, text_set, algorithms_in};
ghost use Rattle.jwt_validation.specs.OptionsRead.{settled, usual_options, ReadsTimes};
ghost use Rattle.jwt_validation.specs.OptionsRead.{AreStrict, ReadsMembers, ReadsOptions};

use crate::Validation;
use crate::fault::first_unstrict;
use crate::validation::{
    LEEWAY, REJECT, STRICT_LEEWAY, STRICT_REJECT, STRICT_VALIDATES_NBF, VALIDATES_AUD,
    VALIDATES_EXP, VALIDATES_NBF, insert_text,
};
use jwt_base::algorithms::Algorithm;
use jwt_base::errors::{ErrorKind, Result, new_error};
use jwt_base::json::members::{is_one_of, optional_text, present, read_texts};
use jwt_base::text::Text;
use serde_json::{Map, Value};
use std::alloc::Global;
use std::collections::HashSet;

// Returns the validation that a JSON object describes.
pub(crate) fn read_validation(alloc: Global, value: &Value) -> Result<Validation>
    ensures ok { IfOk result (λ v. ReadsOptions (view value.now) (options_of v)) }
    ensures err { IfErr result (RefusesAs kind.Json
        ((o : Options) → ¬ ReadsOptions (view value.now) o)) }
{
    check_names(value)?;
    let is_strict = is_strict(value)?;
    check_strict(value, is_strict)?;
    let members = read_members(alloc, value, is_strict)?;
    settle(alloc, members, is_strict)
}

// Options are not strict by default.
fn is_strict(value: &Value) -> Result<bool>
    ensures ok { IfOk result (λ b. or_default false as_bool (get (codes "strict") (view value.now))
        ≡ Some b) }
    ensures err { IfErr result (RefusesAs kind.Json
        (or_default false as_bool (get (codes "strict") (view value.now)) ≡ None)) }
{
    optional_flag(value, "strict", false)
}

// Refuses strict options with an empty list of audiences or issuers, or with a required claim that
// can't be required.
fn check_strict(value: &Value, is_strict: bool) -> Result<()>
    ensures { MatchResult result (λ _. is_strict ≡ true → AreStrict (view value.now))
        (λ e. RefusesAs kind.Json ((is_strict ≡ true) × ¬ AreStrict (view value.now)) e) }
{
    if is_strict && first_unstrict(value).is_some() {
        return Err(new_error(ErrorKind::Json));
    }
    Ok(())
}

pub(crate) fn option_names() -> [&'static str; 12]
    ensures { map (λ s. s.now) result ≡ option_names }
{
    [
        "required_spec_claims",
        "leeway",
        "reject_tokens_expiring_in_less_than",
        "validate_exp",
        "validate_nbf",
        "validate_aud",
        "aud",
        "iss",
        "sub",
        "algorithms",
        "understood_crit",
        "strict",
    ]
}

// The times in seconds, and which claims are checked.
#[derive(Clone, Copy)]
struct Times {
    leeway: u64,
    reject: u64,
    checks_exp: bool,
    checks_nbf: bool,
    checks_aud: bool,
}

fn has_other(members: &Map<String, Value>) -> bool
    ensures { result ≡ has_other option_names (members_view members.now.entries) }
{
    for (name, _) in members {
        if !is_one_of(name.as_str(), &option_names()) {
            return true;
        }
    }
    false
}

// Refuses with `Json` a value that is not an object, and an object with a member of another name.
fn check_names(value: &Value) -> Result<()>
    ensures { MatchResult result (λ _. HasOptionNames (view value.now))
        (λ e. RefusesAs kind.Json (¬ HasOptionNames (view value.now)) e) }
{
    match value.as_object() {
        Some(members) if !has_other(members) => Ok(()),
        _ => Err(new_error(ErrorKind::Json)),
    }
}

fn optional_flag(value: &Value, name: &str, default: bool) -> Result<bool>
    ensures ok { IfOk result (λ b. or_default default as_bool (get name.now (view value.now))
        ≡ Some b) }
    ensures err { IfErr result
        (RefusesAs kind.Json (or_default default as_bool (get name.now (view value.now)) ≡ None)) }
{
    match present(value, name) {
        None => Ok(default),
        Some(member) => match member.as_bool() {
            Some(flag) => Ok(flag),
            None => Err(new_error(ErrorKind::Json)),
        },
    }
}

// Returns the validation of the members; absent ones have the values of strict options, or of the
// default ones.
fn read_members(alloc: Global, value: &Value, is_strict: bool) -> Result<Validation>
    ensures ok { IfOk result (λ v. ReadsMembers (view value.now) (usual_options is_strict)
        (options_of v)) }
    ensures err { IfErr result (RefusesAs kind.Json
        ((o : Options) → ¬ ReadsMembers (view value.now) (usual_options is_strict) o)) }
{
    let times = read_times(value, is_strict)?;
    let required_spec_claims = required_names(alloc, value)?;
    let aud = optional_set(alloc, value, "aud")?;
    let iss = optional_set(alloc, value, "iss")?;
    let sub = optional_string(alloc, value, "sub")?;
    let algorithms = listed_algorithms(alloc, value)?;
    let understood_crit = understood_names(alloc, value)?;
    Ok(Validation {
        required_spec_claims,
        leeway: times.leeway,
        reject_tokens_expiring_in_less_than: times.reject,
        validate_exp: times.checks_exp,
        validate_nbf: times.checks_nbf,
        validate_aud: times.checks_aud,
        aud,
        iss,
        sub,
        algorithms,
        understood_crit,
    })
}

fn read_times(value: &Value, is_strict: bool) -> Result<Times>
    ensures ok { IfOk result
        (λ t. ReadsTimes (view value.now) (usual_options is_strict) t.leeway t.reject t.checks_exp
        t.checks_nbf t.checks_aud) }
    ensures err { IfErr result (RefusesAs kind.Json ((l r : ℕ) (e n a : Bool)
        → ¬ ReadsTimes (view value.now) (usual_options is_strict) l r e n a)) }
{
    let usual = usual_times(is_strict);
    Ok(Times {
        leeway: optional_number(value, "leeway", usual.leeway)?,
        reject: optional_number(value, "reject_tokens_expiring_in_less_than", usual.reject)?,
        checks_exp: optional_flag(value, "validate_exp", usual.checks_exp)?,
        checks_nbf: optional_flag(value, "validate_nbf", usual.checks_nbf)?,
        checks_aud: optional_flag(value, "validate_aud", usual.checks_aud)?,
    })
}

// Returns the values of absent members.
fn usual_times(is_strict: bool) -> Times
    ensures { let usual = usual_options is_strict in
        (result.leeway ≡ usual.leeway) × (result.reject ≡ usual.reject)
        × (result.checks_exp ≡ usual.checks_exp) × (result.checks_nbf ≡ usual.checks_nbf)
        × (result.checks_aud ≡ usual.checks_aud) }
{
    if is_strict {
        Times {
            leeway: STRICT_LEEWAY,
            reject: STRICT_REJECT,
            checks_exp: VALIDATES_EXP,
            checks_nbf: STRICT_VALIDATES_NBF,
            checks_aud: VALIDATES_AUD,
        }
    } else {
        Times {
            leeway: LEEWAY,
            reject: REJECT,
            checks_exp: VALIDATES_EXP,
            checks_nbf: VALIDATES_NBF,
            checks_aud: VALIDATES_AUD,
        }
    }
}

fn optional_number(value: &Value, name: &str, default: u64) -> Result<u64>
    ensures ok { IfOk result (λ n. or_default default whole_number (get name.now (view value.now))
        ≡ Some n) }
    ensures err { IfErr result
        (RefusesAs kind.Json (or_default default whole_number (get name.now (view value.now)) ≡ None)) }
{
    match present(value, name) {
        None => Ok(default),
        Some(member) => match member.as_u64() {
            Some(number) => Ok(number),
            None => Err(new_error(ErrorKind::Json)),
        },
    }
}

fn required_names(alloc: Global, value: &Value) -> Result<HashSet<String>>
    ensures ok { IfOk result
        (λ s. or_default (bytes_eq (codes "exp")) text_set
        (get (codes "required_spec_claims") (view value.now))
        ≡ Some (contains_text s)) }
    ensures err { IfErr result
        (RefusesAs kind.Json (optional text_set
        (get (codes "required_spec_claims") (view value.now)) ≡ None)) }
{
    match optional_set(alloc, value, "required_spec_claims")? {
        Some(names) => Ok(names),
        None => one_text(alloc, "exp"),
    }
}

fn optional_set(alloc: Global, value: &Value, name: &str) -> Result<Option<HashSet<String>>>
    ensures ok { IfOk result
        (λ s. optional text_set (get name.now (view value.now))
        ≡ Some (option_map contains_text s)) }
    ensures err { IfErr result
        (RefusesAs kind.Json (optional text_set (get name.now (view value.now)) ≡ None)) }
{
    match present(value, name) {
        None => Ok(None),
        Some(list) => Ok(Some(read_set(alloc, list)?)),
    }
}

fn read_set(alloc: Global, value: &Value) -> Result<HashSet<String>>
    ensures ok { IfOk result (λ s. text_set (view value.now) ≡ Some (contains_text s)) }
    ensures err { IfErr result (RefusesAs kind.Json (text_set (view value.now) ≡ None)) }
{
    let texts = read_texts(alloc, value)?;
    set_of_texts(alloc, texts.as_slice())
}

fn set_of_texts(alloc: Global, texts: &[Text]) -> Result<HashSet<String>>
    ensures ok { IfOk result (λ set. contains_text set ≡ among (λ s. s) texts.now) }
    ensures err { IfErr result IsMemory }
{
    let mut set = HashSet::new(alloc);
    for text in texts {
        insert_text(alloc, &mut set, text.as_str())?;
    }
    Ok(set)
}

fn one_text(alloc: Global, text: &str) -> Result<HashSet<String>>
    ensures ok { IfOk result (λ set. contains_text set ≡ bytes_eq text.now) }
    ensures err { IfErr result IsMemory }
{
    let mut set = HashSet::new(alloc);
    insert_text(alloc, &mut set, text)?;
    Ok(set)
}

fn optional_string(alloc: Global, value: &Value, name: &str) -> Result<Option<String>>
    ensures ok { IfOk result
        (λ t. optional as_str (get name.now (view value.now)) ≡ Some (option_map string_bytes t)) }
    ensures err { IfErr result
        (RefusesAs kind.Json (optional as_str (get name.now (view value.now)) ≡ None)) }
{
    match optional_text(alloc, value, name)? {
        Some(text) => Ok(Some(text.into_string())),
        None => Ok(None),
    }
}

fn listed_algorithms(alloc: Global, value: &Value) -> Result<Vec<Algorithm>>
    ensures ok { IfOk result
        (λ a. or_default [] algorithms_in (get (codes "algorithms") (view value.now))
        ≡ Some a.items) }
    ensures err { IfErr result
        (RefusesAs kind.Json (or_default [] algorithms_in
        (get (codes "algorithms") (view value.now)) ≡ None)) }
{
    match present(value, "algorithms") {
        None => Ok(Vec::new(alloc)),
        Some(list) => read_algorithms(alloc, list),
    }
}

fn read_algorithms(alloc: Global, value: &Value) -> Result<Vec<Algorithm>>
    ensures ok { IfOk result (λ a. algorithms_in (view value.now) ≡ Some a.items) }
    ensures err { IfErr result (RefusesAs kind.Json (algorithms_in (view value.now) ≡ None)) }
{
    let Some(items) = value.as_array() else {
        return Err(new_error(ErrorKind::Json));
    };
    let mut algorithms = Vec::new(alloc);
    for item in items {
        let Ok(algorithm) = Algorithm::from_value(item) else {
            return Err(new_error(ErrorKind::Json));
        };
        algorithms.push(algorithm)?;
    }
    Ok(algorithms)
}

fn understood_names(alloc: Global, value: &Value) -> Result<HashSet<String>>
    ensures ok { IfOk result
        (λ s. or_default no_texts text_set (get (codes "understood_crit") (view value.now))
        ≡ Some (contains_text s)) }
    ensures err { IfErr result
        (RefusesAs kind.Json (optional text_set (get (codes "understood_crit") (view value.now))
        ≡ None)) }
{
    match optional_set(alloc, value, "understood_crit")? {
        Some(names) => Ok(names),
        None => Ok(HashSet::new(alloc)),
    }
}

// Returns the validation that the members make: strict options require the configured claims too.
fn settle(alloc: Global, members: Validation, is_strict: bool) -> Result<Validation>
    ensures ok { IfOk result (λ v. options_of v ≡ settled is_strict (options_of members)) }
    ensures err { IfErr result IsMemory }
{
    if !is_strict {
        return Ok(members);
    }
    let mut validation = members;
    validation.require_configured(alloc)?;
    Ok(validation)
}
