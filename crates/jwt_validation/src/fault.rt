//! What keeps a JSON value from being the options of a validation.

ghost use Rattle.std.specs.Prelude.{◌≡◌, None, IfSome, IfNone, is_some, map, option_map};
ghost use Rattle.serde_json.specs.View.{view, members_view};
ghost use Rattle.jwt_base.specs.Members.{texts};
ghost use Rattle.jwt_validation.specs.Options.{Options};
ghost use Rattle.jwt_validation.specs.OptionsRead.{ReadsOptions, algorithms_in};
ghost use Rattle.jwt_validation.specs.OptionsRead.{is_non_empty_list, is_claim_list, is_claim_name};
ghost use Rattle.jwt_validation.specs.OptionsRead.{claim_names};
ghost use Rattle.jwt_validation.specs.OptionsFault.{HasFault, shape, shapes, has_form, is_well};
ghost use Rattle.jwt_validation.specs.OptionsFault.{first_malformed, first_other, strict_shapes};
ghost use Rattle.jwt_validation.specs.OptionsFault.{asks_strict, first_slip};

use crate::claims::{NAMES, Name};
use crate::from_json::option_names;
use jwt_base::algorithms::Algorithm;
use jwt_base::json::members::{is_one_of, present};
use serde_json::{Map, Value};

/// The form of an option's value.
#[derive(Debug, Clone, Copy)]
pub enum Form {
    /// A whole number from 0 to 2^64 - 1.
    Whole,
    /// `true` or `false`.
    Flag,
    /// A string.
    OneText,
    /// A list of strings.
    TextList,
    /// A list of names of algorithms (RFC 7518 section 3.1, RFC 8037 section 3.1).
    AlgorithmList,
    /// A list that is not empty, in strict options.
    NonEmptyList,
    /// A list of `exp`, `nbf`, `aud`, `iss` and `sub`, in strict options.
    ClaimList,
}

/// What keeps a JSON value from being options.
#[derive(Debug, Clone, Copy)]
pub enum OptionsFault<'v> {
    /// The value is not an object.
    NotAnObject,
    /// It has a member of this name, which no option has.
    Unknown(&'v str),
    /// The value of the option of this name is not of this form.
    Malformed(&'static str, Form),
}

/// Returns what keeps a JSON value from being the options that
/// [`Validation::from_value`](crate::Validation::from_value) reads, or `None` if it reads them.
///
/// A value that is not an object is at fault first, and then the first member, in the order of
/// their names, that no option is named; then the first option whose value has another form; and
/// then, in strict options, an empty list of audiences or issuers, or a required claim that can't be
/// required.
pub fn options_fault(value: &Value) -> Option<OptionsFault<'_>>
    ensures none { IfNone result ((o : Options) × ReadsOptions (view value.now) o) }
    ensures some { IfSome result (λ f. HasFault (view value.now) f) }
    ensures unread { IfSome result (λ _. (o : Options) → ¬ ReadsOptions (view value.now) o) }
{
    let Some(members) = value.as_object() else {
        return Some(OptionsFault::NotAnObject);
    };
    if let Some(name) = first_other(members) {
        return Some(OptionsFault::Unknown(name));
    }
    if let Some((name, form)) = first_malformed(value) {
        return Some(OptionsFault::Malformed(name, form));
    }
    match first_slip(value) {
        Some((name, form)) => Some(OptionsFault::Malformed(name, form)),
        None => None,
    }
}

fn shapes() -> [(&'static str, Form); 12]
    ensures { map (λ s. shape s.0.now s.1) result ≡ shapes }
{
    [
        ("required_spec_claims", Form::TextList),
        ("leeway", Form::Whole),
        ("reject_tokens_expiring_in_less_than", Form::Whole),
        ("validate_exp", Form::Flag),
        ("validate_nbf", Form::Flag),
        ("validate_aud", Form::Flag),
        ("aud", Form::TextList),
        ("iss", Form::TextList),
        ("sub", Form::OneText),
        ("algorithms", Form::AlgorithmList),
        ("understood_crit", Form::TextList),
        ("strict", Form::Flag),
    ]
}

fn strict_shapes() -> [(&'static str, Form); 3]
    ensures { map (λ s. shape s.0.now s.1) result ≡ strict_shapes }
{
    [
        ("required_spec_claims", Form::ClaimList),
        ("aud", Form::NonEmptyList),
        ("iss", Form::NonEmptyList),
    ]
}

fn claim_names() -> [&'static str; 5]
    ensures { map (λ s. s.now) result ≡ claim_names }
{
    NAMES.map(Name::text)
}

fn has_form(value: &Value, form: Form) -> bool
    ensures { result ≡ has_form form (view value.now) }
{
    match form {
        Form::Whole => value.as_u64().is_some(),
        Form::Flag => value.is_boolean(),
        Form::OneText => value.is_string(),
        Form::TextList => is_text_list(value),
        Form::AlgorithmList => is_algorithm_list(value),
        Form::NonEmptyList => is_non_empty_list(value),
        Form::ClaimList => is_claim_list(value),
    }
}

fn is_text_list(value: &Value) -> bool
    ensures { result ≡ is_some (texts (view value.now)) }
{
    let Some(items) = value.as_array() else {
        return false;
    };
    for item in items {
        if !item.is_string() {
            return false;
        }
    }
    true
}

fn is_algorithm_list(value: &Value) -> bool
    ensures { result ≡ is_some (algorithms_in (view value.now)) }
{
    let Some(items) = value.as_array() else {
        return false;
    };
    for item in items {
        if Algorithm::from_value(item).is_err() {
            return false;
        }
    }
    true
}

fn is_non_empty_list(value: &Value) -> bool
    ensures { result ≡ is_non_empty_list (view value.now) }
{
    let Some(items) = value.as_array() else {
        return false;
    };
    match items.as_slice() {
        [] => false,
        _ => true,
    }
}

fn is_claim_list(value: &Value) -> bool
    ensures { result ≡ is_claim_list (view value.now) }
{
    let Some(items) = value.as_array() else {
        return false;
    };
    for item in items {
        if !is_claim_name(item) {
            return false;
        }
    }
    true
}

fn is_claim_name(value: &Value) -> bool
    ensures { result ≡ is_claim_name (view value.now) }
{
    match value.as_str() {
        Some(name) => is_one_of(name, &claim_names()),
        None => false,
    }
}

fn first_malformed(value: &Value) -> Option<(&'static str, Form)>
    ensures { option_map (λ s. shape s.0.now s.1) result ≡ first_malformed (view value.now) shapes }
{
    for (name, form) in shapes() {
        if !is_well(value, name, form) {
            return Some((name, form));
        }
    }
    None
}

fn first_slip(value: &Value) -> Option<(&'static str, Form)>
    ensures { option_map (λ s. shape s.0.now s.1) result ≡ first_slip (view value.now) }
{
    if asks_strict(value) {
        first_unstrict(value)
    } else {
        None
    }
}

fn asks_strict(value: &Value) -> bool
    ensures { result ≡ asks_strict (view value.now) }
{
    match present(value, "strict") {
        Some(member) => member.as_bool().unwrap_or(false),
        None => false,
    }
}

/// Returns the first option whose value has another form than strict options ask for.
pub(crate) fn first_unstrict(value: &Value) -> Option<(&'static str, Form)>
    ensures { option_map (λ s. shape s.0.now s.1) result
        ≡ first_malformed (view value.now) strict_shapes }
{
    for (name, form) in strict_shapes() {
        if !is_well(value, name, form) {
            return Some((name, form));
        }
    }
    None
}

fn is_well(value: &Value, name: &str, form: Form) -> bool
    ensures { result ≡ is_well (view value.now) (shape name.now form) }
{
    match present(value, name) {
        Some(member) => has_form(member, form),
        None => true,
    }
}

fn first_other(members: &Map<String, Value>) -> Option<&str>
    ensures { option_map (λ s. s.now) result ≡ first_other (members_view members.now.entries) }
{
    for (name, _) in members {
        if !is_one_of(name.as_str(), &option_names()) {
            return Some(name.as_str());
        }
    }
    None
}
