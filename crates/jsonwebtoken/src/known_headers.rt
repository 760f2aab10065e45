//! The header parts that most tokens have, known by their texts: those that stand for an algorithm
//! and the type `JWT` alone. Such a part need not be read, and such a header need not be written.

// Four header parts are known by their texts, those of HS256, RS256, ES256 and EdDSA with the type
// `JWT` alone, which most tokens have. Such a part gives its header without being read, and such a
// header its part without being written; that reading and writing would give the same is proved by
// computing the text, the bytes and the value.

ghost use Rattle.std.specs.Prelude.{◌≡◌, IfSome, IsTrue};
ghost use Rattle.jwt_header.specs.Header.{new_header};
ghost use Rattle.jsonwebtoken.specs.private_clauses.KnownHeaders.{IsKnownHeader};

use jwt_base::algorithms::Algorithm;
use jwt_header::Header;

/// Returns the algorithm of a part, if it is one of the four.
pub(crate) fn known_algorithm(part: &[u8]) -> Option<Algorithm>
    ensures { IfSome result (IsKnownHeader part.now) }
{
    for algorithm in [
        Algorithm::HS256,
        Algorithm::RS256,
        Algorithm::ES256,
        Algorithm::EdDSA,
    ] {
        if is_known(part, algorithm) {
            return Some(algorithm);
        }
    }
    None
}

/// Returns the part of a header, if it is one of the four.
pub(crate) fn known_part(header: &Header) -> Option<&'static str>
    ensures known { IfSome result (λ t. IsKnownHeader t.now header.now.alg) }
    ensures alone { IfSome result (λ t. header.now ≡ new_header header.now.alg) }
{
    if has_type_alone(header) {
        return known_text(header.alg);
    }
    None
}

fn is_known(part: &[u8], algorithm: Algorithm) -> bool
    ensures { IsTrue result → IsKnownHeader part.now algorithm }
{
    match known_text(algorithm) {
        Some(text) => part == text.as_bytes(),
        None => false,
    }
}

/// Returns the part for the algorithm, if it is one of these four.
fn known_text(algorithm: Algorithm) -> Option<&'static str>
    ensures { IfSome result (λ t. IsKnownHeader t.now algorithm) }
{
    match algorithm {
        Algorithm::HS256 => Some("eyJhbGciOiJIUzI1NiIsInR5cCI6IkpXVCJ9"),
        Algorithm::RS256 => Some("eyJhbGciOiJSUzI1NiIsInR5cCI6IkpXVCJ9"),
        Algorithm::ES256 => Some("eyJhbGciOiJFUzI1NiIsInR5cCI6IkpXVCJ9"),
        Algorithm::EdDSA => Some("eyJhbGciOiJFZERTQSIsInR5cCI6IkpXVCJ9"),
        _ => None,
    }
}

/// Returns whether the header has the type `JWT` and nothing else but its algorithm.
fn has_type_alone(header: &Header) -> bool
    ensures { IsTrue result → header.now ≡ new_header header.now.alg }
{
    let Header {
        alg: _,
        typ: Some(typ),
        cty: None,
        jku: None,
        jwk: None,
        kid: None,
        x5u: None,
        x5t: None,
        x5t_s256: None,
        url: None,
        nonce: None,
        x5c: None,
        crit: None,
        enc: None,
        zip: None,
        extras,
    } = header
    else {
        return false;
    };
    typ.as_str() == "JWT" && extras.inner().is_empty()
}
