//! The extensions that a header asks its receiver to understand (RFC 7515 section 4.1.11).

// Repeats are looked for last, after each name is found among those that the receiver understands:
// a repeat then shows within as many names as are understood, however long the list is.

ghost use Rattle.std.specs.Prelude.{◌≡◌, ◌≢◌, ◌↔◌, IsTrue, IsSome, AllPairs, All};
ghost use Rattle.std.specs.HashSet.{contains_text};
ghost use Rattle.serde_json.specs.Find.{get_member};
ghost use Rattle.jwt_base.specs.Kind as kind;
ghost use Rattle.jsonwebtoken.specs.Crit.{IsUnderstoodName, IsUnderstoodList, IsUnderstood};
ghost use Rattle.jwt_validation.specs.OptionsOf.{options_of};
ghost use Rattle.jsonwebtoken.specs.Steps.{Asks};
ghost use Rattle.jsonwebtoken.specs.Tests.{CritIsUnderstood};

use crate::refusal::{Refusal, Test};
use jwt_base::errors::ErrorKind;
use jwt_base::text::Text;
use jwt_header::{Extras, Header, is_header_name};
use jwt_validation::Validation;
use std::collections::HashSet;

/// Refuses with `InvalidCrit` a header whose `crit` is not understood.
pub(crate) fn check_crit(header: &Header, validation: &Validation) -> Result<(), Refusal>
    ensures { Asks CritIsUnderstood (IsUnderstood (options_of validation.now).understood header.now)
        (λ k. k ≡ kind.InvalidCrit) result }
{
    let Some(names) = &header.crit else {
        return Ok(());
    };
    if is_understood_list(
        names.as_slice(),
        &header.extras,
        &validation.understood_crit,
    ) {
        Ok(())
    } else {
        Err(Refusal::new(Test::CritIsUnderstood, ErrorKind::InvalidCrit))
    }
}

// Repeats are tested last, among understood names: one is found after as many names as the receiver
// understands.
fn is_understood_list(names: &[Text], extras: &Extras, understood: &HashSet<String>) -> bool
    ensures { IsTrue result ↔ IsUnderstoodList names.now extras.now (contains_text understood.now) }
{
    !names.is_empty() && all_are_understood(names, extras, understood) && none_is_repeated(names)
}

fn all_are_understood(names: &[Text], extras: &Extras, understood: &HashSet<String>) -> bool
    ensures { IsTrue result ↔ All (IsUnderstoodName extras.now (contains_text understood.now))
        names.now }
{
    names
        .iter()
        .all(|name| is_understood(name.as_str(), extras, understood))
}

fn is_understood(name: &str, extras: &Extras, understood: &HashSet<String>) -> bool
    ensures { IsTrue result ↔ IsUnderstoodName extras.now (contains_text understood.now) name.now }
{
    if is_header_name(name) {
        return false;
    }
    extras.contains(name) && understood.contains(name)
}

fn none_is_repeated(names: &[Text]) -> bool
    ensures { IsTrue result ↔ AllPairs (λ a b. a ≢ b) names.now }
{
    for (place, name) in names.iter().enumerate() {
        if names[..place].contains(name) {
            return false;
        }
    }
    true
}
