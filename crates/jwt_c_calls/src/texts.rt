//! The texts of statuses, tests and algorithms by their numbers, and the number of an algorithm by
//! its name.

ghost use Rattle.std.specs.Prelude.{◌≡◌, option_map};
ghost use Rattle.jwt_base.specs.Algorithm.{name_of};
ghost use Rattle.jwt_c_calls.specs.Status.{algorithm_numbered};
ghost use Rattle.jwt_c_calls.specs.Texts.{IsNumberOfName, test_named, text_numbered, version_numbered};

use crate::status::{algorithm_number, numbered_algorithm};
use crate::status_table::text_of;
use crate::test_numbers::{FURTHER_TEST, numbered_test};
use jsonwebtoken::Algorithm;
use std::result::Result;
use std::str;
use std::str::FromStr;

/// The version of the library, the `JWT_VERSION` of `packages/c/include/jwtproved.h`.
const VERSION: &str = "0.2.0";

/// Returns the number of the algorithm with this name, or 0 for any other name.
pub fn number_of_name(name: &[u8]) -> u32
    ensures { IsNumberOfName name.now result }
{
    let Ok(name) = str::from_utf8(name) else {
        return 0;
    };
    match Algorithm::from_str(name) {
        Ok(algorithm) => algorithm_number(algorithm),
        Err(_) => 0,
    }
}

/// Returns the text of a number: of a status if `of` is 1, of a test if it is 2, and of an algorithm
/// if it is 3. The version of the library is number 0 of 4. Any other `of` and number has no text.
pub fn text_numbered(of: u32, number: u32) -> Option<&'static str>
    ensures { option_map (λ t. t.now) result ≡ text_numbered of number }
{
    match of {
        1 => text_of(number),
        2 => test_text(number),
        3 => algorithm_text(number),
        4 => version_text(number),
        _ => None,
    }
}

#[tactic(auto, unfolding(crate::specs::Texts::test_named))]
fn test_text(number: u32) -> Option<&'static str>
    ensures { option_map (λ t. t.now) result ≡ test_named number }
{
    if number == FURTHER_TEST {
        return Some("FurtherRulesHold");
    }
    match numbered_test(number) {
        Some(test) => Some(test.name()),
        None => None,
    }
}

fn algorithm_text(number: u32) -> Option<&'static str>
    ensures { option_map (λ t. t.now) result ≡ option_map name_of (algorithm_numbered number) }
{
    match numbered_algorithm(number) {
        Some(algorithm) => Some(algorithm.name()),
        None => None,
    }
}

fn version_text(number: u32) -> Option<&'static str>
    ensures { option_map (λ t. t.now) result ≡ version_numbered number }
{
    match number {
        0 => Some(VERSION),
        _ => None,
    }
}
