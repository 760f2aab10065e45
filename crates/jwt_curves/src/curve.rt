//! The curves of ECDSA (RFC 7518 section 3.4).

ghost use Rattle.std.specs.Prelude.{◌≡◌};
ghost use Rattle.jwt_curves.specs.EcdsaKeys.{curve_for};

use jwt_base::algorithms::Algorithm;

// A curve of ECDSA, with the hash of the algorithm that is named after it.
#[derive(Clone, Copy)]
pub(crate) enum Curve {
    // P-256, with SHA-256
    P256,
    // P-384, with SHA-384
    P384,
}

pub(crate) fn curve_of_algorithm(algorithm: Algorithm) -> Option<Curve>
    ensures { result ≡ curve_for algorithm }
{
    match algorithm {
        Algorithm::ES256 => Some(Curve::P256),
        Algorithm::ES384 => Some(Curve::P384),
        _ => None,
    }
}
