//! Claim rules that the crate `jsonwebtoken` does not have: the time in `iat`, required claims of any
//! name, claims that must be strings, and an `aud` that names one audience.
//!
//! [`further_fault`] checks claims against [`Further`], besides what `jwt_validation` checks.
//! [`Further::from_value`] reads the rules from a JSON object, and [`malformed_further`] returns the
//! member that keeps it from reading them.
#![tactic(auto)]

ghost use Rattle.std.specs.Prelude.{◌≡◌, ◌+◌, ◌≤◌, ℕ, [], Some, None, IsSome};
ghost use Rattle.std.specs.Prelude.{IfOk, IfErr, IfSome, IfNone, MatchOption, false, is_some};
ghost use Rattle.std.specs.Prelude.{map, nat_lt, codes};
ghost use Rattle.std.specs.List.{position};
ghost use Rattle.serde_json.specs.Find.{get, as_bool, as_object};
ghost use Rattle.serde_json.specs.View.{view, number_view};
ghost use Rattle.jwt_base.specs.Kind as kind;
ghost use Rattle.jwt_base.specs.KindOf.{IsMemory, RefusesAs};
ghost use Rattle.jwt_base.specs.Members.{texts};
ghost use Rattle.jwt_validation.specs.OptionsRead.{or_default};
ghost use Rattle.jwt_validation.specs.OptionsFault.{shape, is_well, first_malformed};
ghost use Rattle.jwt_validation.specs.declared.fault.Form.TheVariants.{Flag, TextList};
ghost use Rattle.jwt_further.specs.Further.{FurtherRules, rules_of, ReadsFurther, seconds_of};
ghost use Rattle.jwt_further.specs.Further.{further_fault, further_names, further_shapes};
ghost use Rattle.jwt_further.specs.Further.{issued_fault, is_missing, is_not_text};

use jwt_base::errors::{ErrorKind, Result, new_error};
use jwt_base::json::members::{optional_texts, present};
use jwt_base::text::Text;
use jwt_validation::Form;
use serde_json::{Number, Value};
use std::alloc::Global;
use std::num::saturating_f64_to_u64;

/// Rules for claims, besides those of `Validation`.
#[derive(Debug, Drop)]
pub struct Further {
    /// Whether `iat` is checked (RFC 7519 section 4.1.6): if it is present it must be a number, and
    /// not after the present time and the leeway.
    pub issued_at: bool,
    /// The names of claims that must be present with a value other than `null`.
    pub required: Vec<Text>,
    /// The names of claims that must be strings if they are present.
    pub texts: Vec<Text>,
    /// Whether `aud` must be one string if it is present (RFC 7519 section 4.1.3).
    pub one_audience: bool,
}

/// What is wrong with claims.
#[derive(Debug, Clone, Copy)]
pub enum FurtherFault {
    /// `iat` is present and is not a number.
    IssuedMalformed,
    /// `iat` is after the present time and the leeway.
    IssuedLater,
    /// The claim at this place of `required`, from 0, is absent or `null`.
    Missing(usize),
    /// The claim at this place of `texts`, from 0, is present and is not a string. `null` is not a
    /// string.
    NotAText(usize),
    /// `aud` is present and is not one string. `null` is not a string.
    AudienceIsNoText,
}

impl Further {
    /// Returns the rules that the members `issued_at`, `required`, `texts` and `one_audience` of a
    /// JSON object describe.
    ///
    /// A member that is absent or `null` is `false` or an empty list, and members of other names are
    /// ignored.
    ///
    /// Errors: `Json` if the value is not an object, or one of the members has another form;
    /// `OutOfMemory`.
    pub fn from_value(alloc: Global, value: &Value) -> Result<Further>
        ensures ok { IfOk result (λ f. ReadsFurther (view value.now) (rules_of f)) }
        ensures err { IfErr result (RefusesAs kind.Json
            ((r : FurtherRules) → ¬ ReadsFurther (view value.now) r)) }
    {
        if !value.is_object() {
            return Err(new_error(ErrorKind::Json));
        }
        let issued_at = flag(value, "issued_at")?;
        let required = text_list(alloc, value, "required")?;
        let texts = text_list(alloc, value, "texts")?;
        let one_audience = flag(value, "one_audience")?;
        Ok(Further {
            issued_at,
            required,
            texts,
            one_audience,
        })
    }

    /// Returns a copy. The only refusal is `OutOfMemory`.
    pub fn clone(&self, alloc: Global) -> Result<Further>
        ensures ok { IfOk result (λ f. rules_of f ≡ rules_of self.now) }
        ensures err { IfErr result IsMemory }
    {
        let required = copied(alloc, &self.required)?;
        let texts = copied(alloc, &self.texts)?;
        Ok(Further {
            issued_at: self.issued_at,
            required,
            texts,
            one_audience: self.one_audience,
        })
    }
}

/// Returns the first rule that the claims break at the time `time`, in seconds since 1970-01-01
/// UTC, or `None` if they keep all.
///
/// The rules are checked in the order `issued_at`, `required`, `texts`, `one_audience`. A part of a
/// second in `iat` counts as a whole one. Claims that are not an object have no members. Claims
/// without a fault have none later on either.
pub fn further_fault(
    claims: &Value,
    further: &Further,
    leeway: u64,
    time: u64,
) -> Option<FurtherFault>
    ensures fault { result ≡ further_fault (rules_of further.now) leeway time (view claims.now) }
    ensures later { result ≡ None → (m : ℕ) → time ≤ m
        → further_fault (rules_of further.now) leeway m (view claims.now) ≡ None }
{
    if further.issued_at {
        if let Some(fault) = issued_fault(claims, leeway, time) {
            return Some(fault);
        }
    }
    if let Some(place) = first_missing(claims, &further.required) {
        return Some(FurtherFault::Missing(place));
    }
    if let Some(place) = first_not_text(claims, &further.texts) {
        return Some(FurtherFault::NotAText(place));
    }
    if further.one_audience && is_not_text(claims, "aud") {
        return Some(FurtherFault::AudienceIsNoText);
    }
    None
}

/// Returns the names of the members that [`Further::from_value`] reads.
pub fn further_names() -> [&'static str; 4]
    ensures { map (λ s. s.now) result ≡ further_names }
{
    ["issued_at", "required", "texts", "one_audience"]
}

/// Returns the first of the members that [`Further::from_value`] reads whose value has another form,
/// and the form that it must have, or `None` if there is no such member.
///
/// If there is none, `from_value` reads the rules of the value, provided that it is an object.
pub fn malformed_further(value: &Value) -> Option<(&'static str, Form)>
    ensures first { MatchOption result (first_malformed (view value.now) further_shapes ≡ None)
        (λ p. first_malformed (view value.now) further_shapes ≡ Some (shape p.0.now p.1)) }
    ensures read { IfNone result (IsSome (as_object (view value.now))
        → (r : FurtherRules) × ReadsFurther (view value.now) r) }
    ensures unread { IfSome result (λ _. (r : FurtherRules) → ¬ ReadsFurther (view value.now) r) }
{
    if !has_flag(value, "issued_at") {
        return Some(("issued_at", Form::Flag));
    }
    if !has_text_list(value, "required") {
        return Some(("required", Form::TextList));
    }
    if !has_text_list(value, "texts") {
        return Some(("texts", Form::TextList));
    }
    if !has_flag(value, "one_audience") {
        return Some(("one_audience", Form::Flag));
    }
    None
}

fn flag(value: &Value, name: &str) -> Result<bool>
    ensures ok { IfOk result (λ b. or_default false as_bool (get name.now (view value.now))
        ≡ Some b) }
    ensures err { IfErr result
        (RefusesAs kind.Json (or_default false as_bool (get name.now (view value.now)) ≡ None)) }
{
    match present(value, name) {
        None => Ok(false),
        Some(member) => match member.as_bool() {
            Some(flag) => Ok(flag),
            None => Err(new_error(ErrorKind::Json)),
        },
    }
}

fn text_list(alloc: Global, value: &Value, name: &str) -> Result<Vec<Text>>
    ensures ok { IfOk result (λ t. or_default [] texts (get name.now (view value.now))
        ≡ Some t.items) }
    ensures err { IfErr result
        (RefusesAs kind.Json (or_default [] texts (get name.now (view value.now)) ≡ None)) }
{
    match optional_texts(alloc, value, name)? {
        None => Ok(Vec::new(alloc)),
        Some(texts) => Ok(texts.into_vec()),
    }
}

fn copied(alloc: Global, texts: &[Text]) -> Result<Vec<Text>>
    ensures ok { IfOk result (λ t. t.items ≡ texts.now) }
    ensures err { IfErr result IsMemory }
{
    let mut copies = Vec::new(alloc);
    for text in texts {
        copies.push(text.clone(alloc)?)?;
    }
    Ok(copies)
}

fn issued_fault(claims: &Value, leeway: u64, time: u64) -> Option<FurtherFault>
    ensures { result ≡ issued_fault leeway time (get (codes "iat") (view claims.now)) }
{
    let claim = claims.get("iat")?;
    let Some(number) = claim.as_number() else {
        return Some(FurtherFault::IssuedMalformed);
    };
    if is_later(seconds_of(number), leeway, time) {
        return Some(FurtherFault::IssuedLater);
    }
    None
}

// In 128 bits, so that the sum is exact.
fn is_later(seconds: u64, leeway: u64, time: u64) -> bool
    ensures { result ≡ nat_lt (leeway + time) seconds }
{
    u128::from(leeway) + u128::from(time) < u128::from(seconds)
}

fn seconds_of(number: &Number) -> u64
    ensures { result ≡ seconds_of (number_view number.now) }
{
    if let Some(seconds) = number.as_u64() {
        return seconds;
    }
    match number.as_f64() {
        Some(float) if number.is_f64() => saturating_f64_to_u64(float.ceil()),
        _ => 0,
    }
}

fn first_missing(claims: &Value, names: &[Text]) -> Option<usize>
    ensures { result ≡ position (is_missing (view claims.now)) names.now }
{
    names
        .iter()
        .position(|name| present(claims, name.as_str()).is_none())
}

fn first_not_text(claims: &Value, names: &[Text]) -> Option<usize>
    ensures { result ≡ position (is_not_text (view claims.now)) names.now }
{
    names
        .iter()
        .position(|name| is_not_text(claims, name.as_str()))
}

// Returns whether the claim is present and is not a string.
fn is_not_text(claims: &Value, name: &str) -> bool
    ensures { result ≡ is_not_text (view claims.now) name.now }
{
    match claims.get(name) {
        Some(claim) => !claim.is_string(),
        None => false,
    }
}

fn has_flag(value: &Value, name: &str) -> bool
    ensures { result ≡ is_well (view value.now) (shape name.now Flag) }
{
    match present(value, name) {
        Some(member) => member.is_boolean(),
        None => true,
    }
}

fn has_text_list(value: &Value, name: &str) -> bool
    ensures { result ≡ is_well (view value.now) (shape name.now TextList) }
{
    match present(value, name) {
        Some(member) => is_text_list(member),
        None => true,
    }
}

fn is_text_list(value: &Value) -> bool
    ensures { result ≡ is_some (texts (view value.now)) }
{
    let Some(items) = value.as_array() else {
        return false;
    };
    for item in items {
        if !item.is_string() {
            return false;
        }
    }
    true
}
