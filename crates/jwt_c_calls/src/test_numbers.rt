//! The numbers that report to C which test of a token failed.

ghost use Rattle.std.specs.Prelude.{◌≡◌};
ghost use Rattle.jwt_c_calls.specs.TestNumbers.{test_number, test_numbered};

use jsonwebtoken::Test;

/// The number of the test of the further rules of options, which comes last.
pub const FURTHER_TEST: u32 = 20;

/// Returns the number of a test.
pub(crate) fn test_number(test: Test) -> u32
    ensures { result ≡ test_number test }
{
    match test {
        Test::HasThreeParts => 1,
        Test::HeaderIsBase64url => 2,
        Test::HeaderIsJson => 3,
        Test::HeaderIsValid => 4,
        Test::CritIsUnderstood => 5,
        Test::KeyIsFound => 6,
        Test::KeyAlgMatches => 7,
        Test::KeyIsUsable => 8,
        Test::AlgorithmsAreConfigured => 9,
        Test::AlgorithmIsAllowed => 10,
        Test::KeyFitsAlgorithm => 11,
        Test::AlgorithmsShareFamily => 12,
        Test::SignatureIsBase64url => 13,
        Test::SignatureIsAccepted => 14,
        Test::PayloadIsBase64url => 15,
        Test::PayloadIsJson => 16,
        Test::ClaimsMatchType => 17,
        Test::ClaimsAreAnObject => 18,
        Test::ClaimsAreValid => 19,
    }
}

/// Returns the test of a number.
pub fn numbered_test(number: u32) -> Option<Test>
    ensures { result ≡ test_numbered number }
{
    match number {
        1 => Some(Test::HasThreeParts),
        2 => Some(Test::HeaderIsBase64url),
        3 => Some(Test::HeaderIsJson),
        4 => Some(Test::HeaderIsValid),
        5 => Some(Test::CritIsUnderstood),
        6 => Some(Test::KeyIsFound),
        7 => Some(Test::KeyAlgMatches),
        8 => Some(Test::KeyIsUsable),
        9 => Some(Test::AlgorithmsAreConfigured),
        10 => Some(Test::AlgorithmIsAllowed),
        11 => Some(Test::KeyFitsAlgorithm),
        12 => Some(Test::AlgorithmsShareFamily),
        13 => Some(Test::SignatureIsBase64url),
        14 => Some(Test::SignatureIsAccepted),
        15 => Some(Test::PayloadIsBase64url),
        16 => Some(Test::PayloadIsJson),
        17 => Some(Test::ClaimsMatchType),
        18 => Some(Test::ClaimsAreAnObject),
        19 => Some(Test::ClaimsAreValid),
        _ => None,
    }
}
