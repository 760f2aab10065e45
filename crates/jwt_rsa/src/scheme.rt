//! The signature schemes (RFC 8017 section 8).

ghost use Rattle.std.specs.Prelude.{◌≡◌};
ghost use Rattle.jwt_rsa.specs.RsaSchemes.{scheme_for, algorithm_for};

use jwt_base::algorithms::Algorithm;
use jwt_crypto::Hash;

// A signature scheme with its hash.
#[derive(Clone, Copy)]
pub(crate) enum Scheme {
    // RSASSA-PKCS1-v1_5
    Pkcs1(Hash),
    // RSASSA-PSS
    Pss(Hash),
}

impl Scheme {
    pub(crate) fn algorithm(self) -> Algorithm
        ensures { result ≡ algorithm_for self }
    {
        match self {
            Scheme::Pkcs1(Hash::Sha256) => Algorithm::RS256,
            Scheme::Pkcs1(Hash::Sha384) => Algorithm::RS384,
            Scheme::Pkcs1(Hash::Sha512) => Algorithm::RS512,
            Scheme::Pss(Hash::Sha256) => Algorithm::PS256,
            Scheme::Pss(Hash::Sha384) => Algorithm::PS384,
            Scheme::Pss(Hash::Sha512) => Algorithm::PS512,
        }
    }
}

pub(crate) fn scheme_of_algorithm(algorithm: Algorithm) -> Option<Scheme>
    ensures { result ≡ scheme_for algorithm }
{
    match algorithm {
        Algorithm::RS256 => Some(Scheme::Pkcs1(Hash::Sha256)),
        Algorithm::RS384 => Some(Scheme::Pkcs1(Hash::Sha384)),
        Algorithm::RS512 => Some(Scheme::Pkcs1(Hash::Sha512)),
        Algorithm::PS256 => Some(Scheme::Pss(Hash::Sha256)),
        Algorithm::PS384 => Some(Scheme::Pss(Hash::Sha384)),
        Algorithm::PS512 => Some(Scheme::Pss(Hash::Sha512)),
        _ => None,
    }
}
