//! The tests of a token, in sentences.

use jsonwebtoken::Test;

/// The name of the test of the type, which follows those of the library.
pub const TYPE_AGREES: &str = "TypeAgrees";

/// Returns the sentence of a test.
pub fn sentence(test: Test) -> &'static str {
    match test {
        Test::HasThreeParts => "the text is three parts with dots between them",
        Test::HeaderIsBase64url => "the header part is base64url without padding",
        Test::HeaderIsJson => "the header is JSON",
        Test::HeaderIsValid => "the header has the members of a header",
        Test::CritIsUnderstood => "each extension of 'crit' is understood",
        Test::KeyIsFound => "a key of the set has the token's 'kid'",
        Test::KeyAlgMatches => "that key is for the token's algorithm",
        Test::KeyIsUsable => "that key is well-formed",
        Test::AlgorithmsAreConfigured => "an algorithm is accepted",
        Test::AlgorithmIsAllowed => "the token's algorithm is accepted",
        Test::KeyFitsAlgorithm => "the key fits the token's algorithm",
        Test::AlgorithmsShareFamily => "all accepted algorithms are of its family",
        Test::SignatureIsBase64url => "the signature part is base64url without padding",
        Test::SignatureIsAccepted => "the signature matches the key",
        Test::PayloadIsBase64url => "the payload part is base64url without padding",
        Test::PayloadIsJson => "the payload is JSON",
        Test::ClaimsMatchType => "the claims can be read",
        Test::ClaimsAreAnObject => "the claims are an object",
        Test::ClaimsAreValid => "the claims meet the options",
    }
}
