//! JSON Web Keys and sets of them (RFC 7517).

pub use crate::decoding::key_set::{check_key_algorithm, key_for, key_of_jwk};
pub use crate::decoding::own::{named_algorithm, own_algorithm};
pub use jwt_base::algorithms::KeyAlgorithm;
pub use jwt_keys::jwk::Jwk;
pub use jwt_keys::jwk_set::JwkSet;
pub use jwt_params::common::CommonParameters;
pub use jwt_params::curves::EllipticCurve;
pub use jwt_params::elliptic::EllipticCurveKeyParameters;
pub use jwt_params::free_members::FreeMembers;
pub use jwt_params::key_types::{EllipticCurveKeyType, OctetKeyPairType, OctetKeyType, RSAKeyType};
pub use jwt_params::octet::OctetKeyParameters;
pub use jwt_params::octet_pair::OctetKeyPairParameters;
pub use jwt_params::operations::{KeyOperationList, KeyOperations};
pub use jwt_params::other::OtherKeyParameters;
pub use jwt_params::parameters::AlgorithmParameters;
pub use jwt_params::rsa::RSAKeyParameters;
pub use jwt_params::thumbprints::ThumbprintHash;
pub use jwt_params::uses::PublicKeyUse;
