//! The tests of a token, in their order.

ghost use Rattle.std.specs.Prelude.{◌≡◌};
ghost use Rattle.jwt_verifier.specs.Verifying.{order_of};

use jsonwebtoken::Test;
use jwt_verifier::Keys;

const OF_ONE_KEY: [Test; 16] = [
    Test::HasThreeParts,
    Test::HeaderIsBase64url,
    Test::HeaderIsJson,
    Test::HeaderIsValid,
    Test::CritIsUnderstood,
    Test::AlgorithmsAreConfigured,
    Test::AlgorithmIsAllowed,
    Test::KeyFitsAlgorithm,
    Test::AlgorithmsShareFamily,
    Test::SignatureIsBase64url,
    Test::SignatureIsAccepted,
    Test::PayloadIsBase64url,
    Test::PayloadIsJson,
    Test::ClaimsMatchType,
    Test::ClaimsAreAnObject,
    Test::ClaimsAreValid,
];

const OF_A_SET: [Test; 19] = [
    Test::HasThreeParts,
    Test::HeaderIsBase64url,
    Test::HeaderIsJson,
    Test::HeaderIsValid,
    Test::CritIsUnderstood,
    Test::KeyIsFound,
    Test::KeyAlgMatches,
    Test::KeyIsUsable,
    Test::AlgorithmsAreConfigured,
    Test::AlgorithmIsAllowed,
    Test::KeyFitsAlgorithm,
    Test::AlgorithmsShareFamily,
    Test::SignatureIsBase64url,
    Test::SignatureIsAccepted,
    Test::PayloadIsBase64url,
    Test::PayloadIsJson,
    Test::ClaimsMatchType,
    Test::ClaimsAreAnObject,
    Test::ClaimsAreValid,
];

/// Returns the tests of `decode` in the order in which it makes them, or those of `decode_with_set`
/// if the keys are a set.
pub fn order(keys: &Keys) -> &'static [Test]
    ensures { result.now ≡ order_of keys.now }
{
    match keys {
        Keys::One(_) => &OF_ONE_KEY,
        Keys::Set(_) => &OF_A_SET,
    }
}
