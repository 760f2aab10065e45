//! The claims of a token that have rules (RFC 7519 section 4.1).

ghost use Rattle.std.specs.Prelude.{◌≡◌, ◌↔◌, ◌||◌, IsTrue, is_some, false};
ghost use Rattle.std.specs.Str.{bytes_eq};
ghost use Rattle.std.specs.HashSet.{contains_text};
ghost use Rattle.std.specs.List.{list_all, list_any};
ghost use Rattle.std.specs.Option.{option_map_or};
ghost use Rattle.serde_json.specs.Find.{get, as_str};
ghost use Rattle.serde_json.specs.View.{view};
ghost use Rattle.jwt_validation.specs.Claim.{time_in, text_in, texts_in, claims_of};
ghost use Rattle.jwt_validation.specs.ClaimRules.{text, HasValue, SharesMember};
ghost use Rattle.jwt_validation.specs.OptionsOf.{options_of};
ghost use Rattle.jwt_validation.specs.private_clauses.ClaimsSeen.{seen, texts_among, claims_seen};
ghost use Rattle.jwt_validation.specs.private_clauses.ClaimsSeen.{AreAlike, requires_claim};

use crate::validation::Validation;
use serde_json::Value;
use std::collections::HashSet;
use std::slice;

/// A claim, as the rules see it.
#[derive(Clone, Copy)]
pub enum Claim<T> {
    /// The token has no such claim.
    Absent,
    /// The claim has a wrong type.
    Malformed,
    /// The claim has this value.
    Value(T),
}

/// The claims that can be required.
#[derive(Clone, Copy)]
pub enum Name {
    /// The time when the token expires (RFC 7519 section 4.1.4).
    Exp,
    /// The time when the token begins to be valid (RFC 7519 section 4.1.5).
    Nbf,
    /// The recipients of the token (RFC 7519 section 4.1.3).
    Aud,
    /// The issuer of the token (RFC 7519 section 4.1.1).
    Iss,
    /// The subject of the token (RFC 7519 section 4.1.2).
    Sub,
}

/// All the claims that can be required.
pub const NAMES: [Name; 5] = [Name::Exp, Name::Nbf, Name::Aud, Name::Iss, Name::Sub];

impl Name {
    /// Returns the claim's name in JSON.
    pub fn text(self) -> &'static str
        ensures { result.now ≡ text self }
    {
        match self {
            Name::Exp => "exp",
            Name::Nbf => "nbf",
            Name::Aud => "aud",
            Name::Iss => "iss",
            Name::Sub => "sub",
        }
    }
}

/// The claims of a token that have rules, lent from its JSON value.
#[derive(Clone, Copy)]
pub struct SpecClaims<'a> {
    pub exp: Claim<u64>,
    pub nbf: Claim<u64>,
    pub sub: Claim<&'a str>,
    pub iss: Claim<&'a [Value]>,
    pub aud: Claim<&'a [Value]>,
}

impl<'a> SpecClaims<'a> {
    /// Looks each claim up, once.
    pub fn read(claims: &'a Value) -> SpecClaims<'a>
        ensures { claims_seen result ≡ claims_of (view claims.now) }
    {
        SpecClaims {
            exp: time_claim(claims, "exp"),
            nbf: time_claim(claims, "nbf"),
            sub: text_claim(claims, "sub"),
            iss: texts_claim(claims, "iss"),
            aud: texts_claim(claims, "aud"),
        }
    }

    /// Looks up the claims that the options ask about or that are required: to the rules, the others
    /// are as if absent.
    pub fn read_asked(
        claims: &'a Value,
        options: &Validation,
        required: &RequiredClaims,
    ) -> SpecClaims<'a>
        ensures { AreAlike (options_of options.now) (requires_claim required.now)
            (claims_seen result) (claims_of (view claims.now)) }
    {
        let is_exp = options.validate_exp || required.exp;
        let is_nbf = options.validate_nbf || required.nbf;
        let is_sub = options.sub.is_some() || required.sub;
        let is_iss = options.iss.is_some() || required.iss;
        let is_aud = options.validate_aud || required.aud;
        SpecClaims {
            exp: if is_exp {
                time_claim(claims, "exp")
            } else {
                Claim::Absent
            },
            nbf: if is_nbf {
                time_claim(claims, "nbf")
            } else {
                Claim::Absent
            },
            sub: if is_sub {
                text_claim(claims, "sub")
            } else {
                Claim::Absent
            },
            iss: if is_iss {
                texts_claim(claims, "iss")
            } else {
                Claim::Absent
            },
            aud: if is_aud {
                texts_claim(claims, "aud")
            } else {
                Claim::Absent
            },
        }
    }

    /// Returns whether the claim of this name is present, with a value.
    pub fn has_value(&self, name: Name) -> bool
        ensures { IsTrue result ↔ HasValue (claims_seen self.now) name }
    {
        match name {
            Name::Exp => matches!(self.exp, Claim::Value(_)),
            Name::Nbf => matches!(self.nbf, Claim::Value(_)),
            Name::Aud => matches!(self.aud, Claim::Value(_)),
            Name::Iss => matches!(self.iss, Claim::Value(_)),
            Name::Sub => matches!(self.sub, Claim::Value(_)),
        }
    }
}

/// The claims that are required.
#[derive(Clone, Copy)]
pub struct RequiredClaims {
    pub exp: bool,
    pub nbf: bool,
    pub aud: bool,
    pub iss: bool,
    pub sub: bool,
}

/// The number of names up to which a set is walked: to hash the five names takes longer than to
/// walk a few.
const FEW: usize = 8;

impl RequiredClaims {
    /// Looks each name up in the set.
    pub fn of(names: &HashSet<String>) -> RequiredClaims
        ensures { (n : Name) → requires_claim result n ≡ contains_text names.now (text n) }
    {
        if names.len() > FEW {
            return RequiredClaims {
                exp: names.contains("exp"),
                nbf: names.contains("nbf"),
                aud: names.contains("aud"),
                iss: names.contains("iss"),
                sub: names.contains("sub"),
            };
        }
        let mut required = RequiredClaims {
            exp: false,
            nbf: false,
            aud: false,
            iss: false,
            sub: false,
        };
        for name in names.iter() {
            required.add(name.as_str());
        }
        required
    }

    /// Returns whether the claim of this name is required.
    pub fn has(&self, name: Name) -> bool
        ensures { result ≡ requires_claim self.now name }
    {
        match name {
            Name::Exp => self.exp,
            Name::Nbf => self.nbf,
            Name::Aud => self.aud,
            Name::Iss => self.iss,
            Name::Sub => self.sub,
        }
    }

    fn add(&mut self, name: &str)
        ensures { (n : Name) → requires_claim self.new n
            ≡ (requires_claim self.old n || bytes_eq (text n) name.now) }
    {
        match name {
            "exp" => self.exp = true,
            "nbf" => self.nbf = true,
            "aud" => self.aud = true,
            "iss" => self.iss = true,
            "sub" => self.sub = true,
            _ => (),
        }
    }
}

/// Returns whether one of the strings is in the set.
pub fn shares_member(texts: &[Value], set: &HashSet<String>) -> bool
    ensures { IsTrue result ↔ SharesMember (contains_text set.now) (texts_among texts.now) }
{
    some_in(texts, set)
}

fn time_claim(claims: &Value, name: &str) -> Claim<u64>
    ensures { result ≡ time_in (get name.now (view claims.now)) }
{
    match claims.get(name) {
        Some(value) => match value.as_u64() {
            Some(time) => Claim::Value(time),
            None => Claim::Malformed,
        },
        None => Claim::Absent,
    }
}

fn text_claim<'a>(claims: &'a Value, name: &str) -> Claim<&'a str>
    ensures { seen (λ s. s.now) result ≡ text_in (get name.now (view claims.now)) }
{
    match claims.get(name) {
        None | Some(Value::Null) => Claim::Absent,
        Some(Value::String(text)) => Claim::Value(text.as_str()),
        Some(_) => Claim::Malformed,
    }
}

fn texts_claim<'a>(claims: &'a Value, name: &str) -> Claim<&'a [Value]>
    ensures { seen (λ vs. texts_among vs.now) result ≡ texts_in (get name.now (view claims.now)) }
{
    match claims.get(name) {
        None | Some(Value::Null) => Claim::Absent,
        Some(value) => match value {
            Value::String(_) => Claim::Value(slice::from_ref(value)),
            Value::Array(items) => {
                if are_texts(items) {
                    Claim::Value(items.as_slice())
                } else {
                    Claim::Malformed
                }
            }
            _ => Claim::Malformed,
        },
    }
}

fn are_texts(values: &[Value]) -> bool
    ensures { result ≡ list_all (λ v. is_some (as_str (view v))) values.now }
{
    values.iter().all(Value::is_string)
}

fn some_in(texts: &[Value], set: &HashSet<String>) -> bool
    ensures { result ≡ list_any (λ v. option_map_or (contains_text set.now) (as_str (view v)) false)
        texts.now }
{
    texts.iter().any(|value| is_member(value, set))
}

fn is_member(value: &Value, set: &HashSet<String>) -> bool
    ensures { result ≡ option_map_or (contains_text set.now) (as_str (view value.now)) false }
{
    value.as_str().is_some_and(|text| set.contains(text))
}
