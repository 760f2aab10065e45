//! The check of claims by the rules.

// `validate` makes the tests and the refusal apart: nothing on the way to `Ok` returns
// `OutOfMemory`, and only the two kinds that hold a claim's name may become it. Sums of times are
// made in 128 bits.

ghost use Rattle.std.specs.Prelude.{◌≡◌, ◌↔◌, IsOk, OnOk, IfErr, IsSome, MatchOption};
ghost use Rattle.serde_json.specs.Find.{as_object};
ghost use Rattle.serde_json.specs.View.{view};
ghost use Rattle.jwt_base.specs.Kind.{Kind};
ghost use Rattle.jwt_validation.specs.ClaimRules.{IsFirstBroken, Holds, RulesHold};
ghost use Rattle.jwt_validation.specs.ClaimRules.{IsFault, IsErrorFor};
ghost use Rattle.jwt_validation.specs.private_clauses.ClaimsSeen.{claims_seen, requires_claim, Lacks};
ghost use Rattle.jwt_validation.specs.Moments.{IsAcceptedWithin, Looser};
ghost use Rattle.jwt_validation.specs.Options.{Options};
ghost use Rattle.jwt_validation.specs.OptionsOf.{options_of};

use crate::claims::{NAMES, Name, RequiredClaims, SpecClaims};
use crate::rules::{RULES, Rule, holds, missing_claim, refusal};
use crate::validation::Validation;
use jwt_base::errors::{ErrorKind, Result, new_error};
use serde_json::Value;
use std::alloc::Global;

/// Checks claims at the time `time`, in whole seconds since 1970-01-01 00:00:00 UTC.
///
/// Claims that are not a JSON object are refused with `Json`. Then each required claim must be
/// present and well formed, else the error is `MissingRequiredClaim` of one that is not. Then the
/// rules are tested in this order, and the error is that of the first broken one:
///
/// - if `exp` is checked, it is a whole number, else `InvalidClaimFormat`;
/// - if `nbf` is checked, it is a whole number, else `InvalidClaimFormat`;
/// - `exp` is at least the time that must be left, else `InvalidToken`;
/// - `exp` plus the leeway is at least `time` plus the time that must be left, else
///   `ExpiredSignature`;
/// - `nbf` is at most `time` plus the leeway, else `ImmatureSignature`;
/// - `sub` is the configured subject, else `InvalidSubject`;
/// - `iss` names a configured issuer, else `InvalidIssuer`;
/// - `aud` names a configured audience, else `InvalidAudience`.
///
/// The last three are `InvalidClaimFormat` if the claim has a wrong type. A claim that is absent
/// and not required breaks no rule. `OutOfMemory` may come instead of `MissingRequiredClaim` and
/// `InvalidClaimFormat` alone.
pub fn validate(alloc: Global, claims: &Value, options: &Validation, time: u64) -> Result<()>
    ensures ok { IsOk result ↔ (IsSome (as_object (view claims.now))
        × RulesHold (options_of options.now) (view claims.now) time) }
    ensures err { IfErr result (λ e. (k : Kind)
        × IsFault (options_of options.now) (view claims.now) time k × IsErrorFor e k) }
    ensures moments { IsOk result ↔ IsAcceptedWithin (options_of options.now)
        (view claims.now) time }
    ensures looser { OnOk result ((w : Options) → Looser (options_of options.now) w
        → RulesHold w (view claims.now) time) }
{
    check(alloc, claims, options, time)
}

fn check(alloc: Global, claims: &Value, options: &Validation, time: u64) -> Result<()>
    ensures ok { IsOk result ↔ (IsSome (as_object (view claims.now))
        × RulesHold (options_of options.now) (view claims.now) time) }
    ensures err { IfErr result (λ e. (k : Kind)
        × IsFault (options_of options.now) (view claims.now) time k × IsErrorFor e k) }
{
    if !claims.is_object() {
        return Err(new_error(ErrorKind::Json));
    }
    let required = RequiredClaims::of(&options.required_spec_claims);
    let claims = SpecClaims::read_asked(claims, options, &required);
    if let Some(name) = first_missing(&claims, &required) {
        return Err(missing_claim(alloc, name.text()));
    }
    match first_broken(&claims, options, time) {
        Some(rule) => Err(refusal(alloc, rule, &claims)),
        None => Ok(()),
    }
}

fn first_missing(claims: &SpecClaims, required: &RequiredClaims) -> Option<Name>
    ensures { MatchOption result
        ((n : Name) → ¬ Lacks (requires_claim required.now) (claims_seen claims.now) n)
        (λ n. Lacks (requires_claim required.now) (claims_seen claims.now) n) }
{
    for name in NAMES {
        if required.has(name) && !claims.has_value(name) {
            return Some(name);
        }
    }
    None
}

fn first_broken(claims: &SpecClaims, options: &Validation, time: u64) -> Option<Rule>
    ensures { MatchOption result
        ((r : Rule) → Holds (options_of options.now) (claims_seen claims.now) time r)
        (λ r. IsFirstBroken (options_of options.now) (claims_seen claims.now) time r) }
{
    for rule in RULES {
        if !holds(rule, claims, options, time) {
            return Some(rule);
        }
    }
    None
}
