//! The options that the claims of a token are checked against.

// A set of texts is the standard library's `HashSet`, which a contract sees as a test of texts. Two
// `Validation`s are equal if they ask for the same, their sets as sets.

ghost use Rattle.std.specs.Prelude.{◌≡◌, ◌||◌, IfOk, IfErr, OnOk, OnErr, Some, None, option_map};
ghost use Rattle.std.specs.Prelude.{string_bytes, ◌∷◌, []};
ghost use Rattle.std.specs.HashSet.{contains_text};
ghost use Rattle.std.specs.Str.{bytes_eq};
ghost use Rattle.jwt_base.specs.Algorithm.{algorithms_of};
ghost use Rattle.jwt_base.specs.JsonText.{ReadsText};
ghost use Rattle.jwt_base.specs.Kind as kind;
ghost use Rattle.jwt_base.specs.KindOf.{IsMemory, RefusesAs};
ghost use Rattle.serde_json.specs.View.{view};
ghost use Rattle.jwt_validation.specs.Options.{Options, among, default_options};
ghost use Rattle.jwt_validation.specs.Options.{requiring_configured, strict_options, with_name};
ghost use Rattle.jwt_validation.specs.OptionsOf.{options_of};
ghost use Rattle.jwt_validation.specs.OptionsRead.{ReadsOptions};
ghost use Rattle.jwt_validation.specs.equality.ValidationEq.{validation_eq};

use crate::from_json::read_validation;
use jwt_base::algorithms::{Algorithm, AlgorithmFamily};
use jwt_base::errors::Result;
use jwt_base::serialization::json_value;
use serde_json::Value;
use std::alloc::Global;
use std::collections::HashSet;

// The times, in seconds, and the checks of a validation that says nothing else.
pub(crate) const LEEWAY: u64 = 60;

pub(crate) const REJECT: u64 = 0;

pub(crate) const VALIDATES_EXP: bool = true;

pub(crate) const VALIDATES_NBF: bool = false;

pub(crate) const VALIDATES_AUD: bool = true;

// Those of strict options, as far as they differ.
pub(crate) const STRICT_LEEWAY: u64 = 0;

pub(crate) const STRICT_REJECT: u64 = 1;

pub(crate) const STRICT_VALIDATES_NBF: bool = true;

/// The options that a token is checked against. Times are in whole seconds.
///
/// ```rust
/// let mut validation = Validation::new_strict(alloc, Algorithm::RS256)?;
/// validation.set_issuer(alloc, &["https://login.example"])?;
/// validation.set_audience(alloc, &["my-service"])?;
/// validation.require_configured(alloc)?; // a token without iss or aud is refused
/// ```
#[derive(Debug, Drop)]
pub struct Validation {
    /// The claims that must be present. Of these names `exp`, `nbf`, `aud`, `iss` and `sub` count,
    /// and others are ignored. A malformed claim counts as missing.
    pub required_spec_claims: HashSet<String>,
    /// The leeway for clocks that differ: a token is still accepted this long after `exp`, and
    /// already this long before `nbf`.
    pub leeway: u64,
    /// The time that must be left: a token is refused this long before it expires.
    pub reject_tokens_expiring_in_less_than: u64,
    /// Whether `exp` is checked (RFC 7519 section 4.1.4).
    pub validate_exp: bool,
    /// Whether `nbf` is checked (RFC 7519 section 4.1.5).
    pub validate_nbf: bool,
    /// Whether `aud` is checked (RFC 7519 section 4.1.3).
    pub validate_aud: bool,
    /// The audiences of which a token's `aud` must name one. If there are none, a token that has an
    /// `aud` is refused.
    pub aud: Option<HashSet<String>>,
    /// The issuers of which a token's `iss` must name one (RFC 7519 section 4.1.1). If this is
    /// `None`, `iss` is not checked.
    pub iss: Option<HashSet<String>>,
    /// The required `sub` of a token (RFC 7519 section 4.1.2). If this is `None`, `sub` is
    /// not checked.
    pub sub: Option<String>,
    /// The algorithms that are accepted.
    pub algorithms: Vec<Algorithm>,
    /// The header members that `crit` may name (RFC 7515 section 4.1.11).
    pub understood_crit: HashSet<String>,
}

impl Validation {
    /// Returns the checks of one algorithm: `exp` is required and checked, with 60 seconds of
    /// leeway, and any `aud` is refused until an audience is set. The only refusal is
    /// `OutOfMemory`.
    pub fn new(alloc: Global, algorithm: Algorithm) -> Result<Validation>
        ensures ok { IfOk result (λ v. options_of v ≡ default_options (algorithm ∷ [])) }
        ensures err { IfErr result IsMemory }
    {
        let mut algorithms = Vec::new(alloc);
        algorithms.push(algorithm)?;
        with_algorithms(alloc, algorithms)
    }

    /// Returns the same checks as `new`, for the algorithms of a family. The only refusal is
    /// `OutOfMemory`.
    pub fn new_for_family(alloc: Global, family: AlgorithmFamily) -> Result<Validation>
        ensures ok { IfOk result (λ v. options_of v ≡ default_options (algorithms_of family)) }
        ensures err { IfErr result IsMemory }
    {
        let algorithms = family.algorithms().to_vec(alloc)?;
        with_algorithms(alloc, algorithms)
    }

    /// Returns strict checks of one algorithm: like [`Validation::new`], but `nbf` is checked,
    /// there is no leeway, and a token is expired at the time `exp` itself (RFC 7519 section
    /// 4.1.4). Call [`Validation::require_configured`] after the audience, the issuers and the
    /// subject are set. The only refusal is `OutOfMemory`.
    pub fn new_strict(alloc: Global, algorithm: Algorithm) -> Result<Validation>
        ensures ok { IfOk result (λ v. options_of v ≡ strict_options (algorithm ∷ [])) }
        ensures err { IfErr result IsMemory }
    {
        let mut validation = Validation::new(alloc, algorithm)?;
        validation.leeway = STRICT_LEEWAY;
        validation.reject_tokens_expiring_in_less_than = STRICT_REJECT;
        validation.validate_nbf = STRICT_VALIDATES_NBF;
        Ok(validation)
    }

    /// Requires `aud`, `iss` and `sub`, as far as the validation has a value for them, besides the
    /// claims that are required already. The only refusal is `OutOfMemory`.
    pub fn require_configured(&mut self, alloc: Global) -> Result<()>
        ensures ok { OnOk result (options_of self.new ≡ requiring_configured
            (options_of self.old)) }
        ensures unchanged { OnErr result (self.new ≡ self.old) }
        ensures err { IfErr result IsMemory }
    {
        let required = configured_names(alloc, self)?;
        self.required_spec_claims = required;
        Ok(())
    }

    /// Replaces the audiences. The only refusal is `OutOfMemory`.
    pub fn set_audience(&mut self, alloc: Global, audiences: &[&str]) -> Result<()>
        ensures ok { OnOk result (options_of self.new
            ≡ record (options_of self.old) { aud = Some (among (λ s. s.now) audiences.now) }) }
        ensures unchanged { OnErr result (self.new ≡ self.old) }
        ensures err { IfErr result IsMemory }
    {
        let audiences = set_of(alloc, audiences)?;
        self.aud = Some(audiences);
        Ok(())
    }

    /// Replaces the issuers. The only refusal is `OutOfMemory`.
    pub fn set_issuer(&mut self, alloc: Global, issuers: &[&str]) -> Result<()>
        ensures ok { OnOk result (options_of self.new
            ≡ record (options_of self.old) { iss = Some (among (λ s. s.now) issuers.now) }) }
        ensures unchanged { OnErr result (self.new ≡ self.old) }
        ensures err { IfErr result IsMemory }
    {
        let issuers = set_of(alloc, issuers)?;
        self.iss = Some(issuers);
        Ok(())
    }

    /// Replaces the subject. The only refusal is `OutOfMemory`.
    pub fn set_subject(&mut self, alloc: Global, subject: &str) -> Result<()>
        ensures ok { OnOk result (options_of self.new
            ≡ record (options_of self.old) { sub = Some subject.now }) }
        ensures unchanged { OnErr result (self.new ≡ self.old) }
        ensures err { IfErr result IsMemory }
    {
        let subject = String::from_str(alloc, subject)?;
        self.sub = Some(subject);
        Ok(())
    }

    /// Replaces the names of the required claims. The only refusal is `OutOfMemory`.
    pub fn set_required_spec_claims(&mut self, alloc: Global, names: &[&str]) -> Result<()>
        ensures ok { OnOk result (options_of self.new
            ≡ record (options_of self.old) { required = among (λ s. s.now) names.now }) }
        ensures unchanged { OnErr result (self.new ≡ self.old) }
        ensures err { IfErr result IsMemory }
    {
        let required = set_of(alloc, names)?;
        self.required_spec_claims = required;
        Ok(())
    }

    /// Replaces the names that a header's `crit` may have. The only refusal is `OutOfMemory`.
    pub fn set_understood_crit(&mut self, alloc: Global, names: &[&str]) -> Result<()>
        ensures ok { OnOk result (options_of self.new
            ≡ record (options_of self.old) { understood = among (λ s. s.now) names.now }) }
        ensures unchanged { OnErr result (self.new ≡ self.old) }
        ensures err { IfErr result IsMemory }
    {
        let understood = set_of(alloc, names)?;
        self.understood_crit = understood;
        Ok(())
    }

    /// Returns the validation that a JSON object describes: its members are the fields of
    /// [`Validation`] by their names, with lists for the sets, the names of RFC 7518 section 3.1
    /// and RFC 8037 section 3.1 for the algorithms, whole numbers of seconds for the times and
    /// `true` or `false` for the rest.
    ///
    /// One more member, `strict`, is `true` or `false`. A member that is absent or null has the
    /// value of [`Validation::new`], or of [`Validation::new_strict`] if `strict` is `true`, which
    /// also [requires](Validation::require_configured) the configured claims; except that
    /// `algorithms` is then an empty list: no algorithm is chosen by default, and `decode` refuses
    /// with `MissingAlgorithm`. An unknown member, a member of a wrong type, an algorithm of an
    /// unknown name and a value that is not an object are refused with `Json`; nothing is ignored.
    /// If `strict` is `true`, an empty list of `aud` or `iss`, and a required claim other than
    /// `exp`, `nbf`, `aud`, `iss` and `sub`, are refused with `Json` too.
    pub fn from_value(alloc: Global, value: &Value) -> Result<Validation>
        ensures ok { IfOk result (λ v. ReadsOptions (view value.now) (options_of v)) }
        ensures err { IfErr result (RefusesAs kind.Json
            ((o : Options) → ¬ ReadsOptions (view value.now) o)) }
    {
        read_validation(alloc, value)
    }

    /// Returns the validation that a JSON text describes, as [`from_value`](Validation::from_value)
    /// reads it. Bytes that are not JSON, or that nest deeper than 127 levels, are refused with
    /// `Json` too.
    pub fn from_slice(alloc: Global, text: &[u8]) -> Result<Validation>
        ensures ok { IfOk result (λ v. ReadsText ReadsOptions text.now (options_of v)) }
        ensures err { IfErr result (RefusesAs kind.Json
            ((o : Options) → ¬ ReadsText ReadsOptions text.now o)) }
    {
        let value = json_value(alloc, text)?;
        Validation::from_value(alloc, &value)
    }

    /// Returns a copy. The only refusal is `OutOfMemory`.
    pub fn clone(&self, alloc: Global) -> Result<Validation>
        ensures ok { IfOk result (λ v. options_of v ≡ options_of self.now) }
        ensures err { IfErr result IsMemory }
    {
        Ok(Validation {
            required_spec_claims: copied_set(&self.required_spec_claims)?,
            leeway: self.leeway,
            reject_tokens_expiring_in_less_than: self.reject_tokens_expiring_in_less_than,
            validate_exp: self.validate_exp,
            validate_nbf: self.validate_nbf,
            validate_aud: self.validate_aud,
            aud: copied_choice(&self.aud)?,
            iss: copied_choice(&self.iss)?,
            sub: copied_text(alloc, &self.sub)?,
            algorithms: self.algorithms.as_slice().to_vec(alloc)?,
            understood_crit: copied_set(&self.understood_crit)?,
        })
    }
}

pub(crate) fn insert_text(alloc: Global, set: &mut HashSet<String>, text: &str) -> Result<()>
    ensures ok { OnOk result ((t : _) → contains_text set.new t
        ≡ (bytes_eq text.now t || contains_text set.old t)) }
    ensures err { IfErr result IsMemory }
{
    set.insert(String::from_str(alloc, text)?)?;
    Ok(())
}

/// Compares the fields, sets as sets.
impl PartialEq for Validation {
    ghost use Rattle.std.specs.Prelude.{◌≡◌, ◌↔◌, IsTrue};
    ghost use Rattle.std.specs.Cmp.{partial_equiv_from_equiv};
    ghost use Rattle.jwt_validation.specs.OptionsOf.{options_of};
    ghost use Rattle.jwt_validation.specs.equality.ValidationEq.{validation_eq};
    ghost use Rattle.jwt_validation.specs.equality.ValidationEq.{validation_eq_equiv};

    ghost eq = { validation_eq };

    ghost laws = { partial_equiv_from_equiv validation_eq_equiv };

    fn eq(&self, other: &Validation) -> bool
        ensures test { result ≡ validation_eq self.now other.now }
        ensures same { IsTrue result ↔ (options_of self.now ≡ options_of other.now) }
    {
        asks_same(self, other)
    }
}

impl Eq for Validation {
    ghost use Rattle.jwt_validation.specs.equality.ValidationEq.{validation_eq_equiv};

    ghost laws = { validation_eq_equiv };
}

fn with_algorithms(alloc: Global, algorithms: Vec<Algorithm>) -> Result<Validation>
    ensures ok { IfOk result (λ v. options_of v ≡ default_options algorithms.items) }
    ensures err { IfErr result IsMemory }
{
    let required_spec_claims = set_of(alloc, &["exp"])?;
    Ok(Validation {
        required_spec_claims,
        leeway: LEEWAY,
        reject_tokens_expiring_in_less_than: REJECT,
        validate_exp: VALIDATES_EXP,
        validate_nbf: VALIDATES_NBF,
        validate_aud: VALIDATES_AUD,
        aud: None,
        iss: None,
        sub: None,
        algorithms,
        understood_crit: HashSet::new(alloc),
    })
}

fn set_of(alloc: Global, texts: &[&str]) -> Result<HashSet<String>>
    ensures ok { IfOk result (λ set. (t : _)
        → contains_text set t ≡ among (λ s. s.now) texts.now t) }
    ensures err { IfErr result IsMemory }
{
    let mut set = HashSet::new(alloc);
    for text in texts {
        insert_text(alloc, &mut set, text)?;
    }
    Ok(set)
}

// Returns the names of the claims that are required or configured.
fn configured_names(alloc: Global, validation: &Validation) -> Result<HashSet<String>>
    ensures ok { IfOk result (λ names. contains_text names
        ≡ (requiring_configured (options_of validation.now)).required) }
    ensures err { IfErr result IsMemory }
{
    let mut names = copied_set(&validation.required_spec_claims)?;
    insert_if(alloc, &mut names, validation.aud.is_some(), "aud")?;
    insert_if(alloc, &mut names, validation.iss.is_some(), "iss")?;
    insert_if(alloc, &mut names, validation.sub.is_some(), "sub")?;
    Ok(names)
}

fn copied_set(set: &HashSet<String>) -> Result<HashSet<String>>
    ensures ok { IfOk result (λ copy. contains_text copy ≡ contains_text set.now) }
    ensures err { IfErr result IsMemory }
{
    // named for the proof
    let copy = set.clone()?;
    Ok(copy)
}

// Adds the name of a claim, if the claim is configured.
fn insert_if(
    alloc: Global,
    names: &mut HashSet<String>,
    is_configured: bool,
    name: &str,
) -> Result<()>
    ensures ok { OnOk result ((t : _) → contains_text names.new t
        ≡ with_name is_configured name.now (contains_text names.old) t) }
    ensures err { IfErr result IsMemory }
{
    if is_configured {
        insert_text(alloc, names, name)?;
    }
    Ok(())
}

fn copied_choice(set: &Option<HashSet<String>>) -> Result<Option<HashSet<String>>>
    ensures ok { IfOk result (λ copy. option_map contains_text copy
        ≡ option_map contains_text set.now) }
    ensures err { IfErr result IsMemory }
{
    match set {
        Some(set) => Ok(Some(copied_set(set)?)),
        None => Ok(None),
    }
}

fn copied_text(alloc: Global, text: &Option<String>) -> Result<Option<String>>
    ensures ok { IfOk result (λ copy. option_map string_bytes copy
        ≡ option_map string_bytes text.now) }
    ensures err { IfErr result IsMemory }
{
    match text {
        Some(text) => Ok(Some(String::from_str(alloc, text.as_str())?)),
        None => Ok(None),
    }
}

fn asks_same(one: &Validation, other: &Validation) -> bool
    ensures { result ≡ validation_eq one.now other.now }
{
    one.required_spec_claims == other.required_spec_claims
        && one.leeway == other.leeway
        && one.reject_tokens_expiring_in_less_than == other.reject_tokens_expiring_in_less_than
        && one.validate_exp == other.validate_exp
        && one.validate_nbf == other.validate_nbf
        && one.validate_aud == other.validate_aud
        && one.aud == other.aud
        && one.iss == other.iss
        && one.sub == other.sub
        && one.algorithms == other.algorithms
        && one.understood_crit == other.understood_crit
}
