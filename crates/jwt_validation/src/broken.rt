//! The list of the rules that claims break.

ghost use Rattle.std.specs.Prelude.{◌↔◌, ◌<◌, IfOk, IfErr, Contains, AllPairs};
ghost use Rattle.serde_json.specs.View.{view};
ghost use Rattle.jwt_base.specs.KindOf.{IsMemory};
ghost use Rattle.jwt_validation.specs.Claim.{claims_of};
ghost use Rattle.jwt_validation.specs.ClaimRules.{Holds, place};
ghost use Rattle.jwt_validation.specs.OptionsOf.{options_of};

use crate::claims::SpecClaims;
use crate::rules::{RULES, Rule, holds};
use crate::validation::Validation;
use jwt_base::errors::Result;
use serde_json::Value;
use std::alloc::Global;

/// Lists the rules that the claims break at the time `time`, in the order in which
/// [`validate`](crate::validate) tests them. The time is in whole seconds since 1970-01-01 00:00:00
/// UTC.
///
/// That a required claim is present is none of these rules. Claims that are not a JSON object break
/// the rules that an empty object breaks. The only error is `OutOfMemory`.
pub fn broken_rules(
    alloc: Global,
    claims: &Value,
    options: &Validation,
    time: u64,
) -> Result<Vec<Rule>>
    ensures listed { IfOk result (λ rules. (r : Rule) → Contains rules.items r
        ↔ ¬ Holds (options_of options.now) (claims_of (view claims.now)) time r) }
    ensures ordered { IfOk result (λ rules. AllPairs (λ q r. place q < place r) rules.items) }
    ensures err { IfErr result IsMemory }
{
    let claims = SpecClaims::read(claims);
    let mut broken = Vec::new(alloc);
    for rule in RULES {
        if !holds(rule, &claims, options, time) {
            broken.push(rule)?;
        }
    }
    Ok(broken)
}
