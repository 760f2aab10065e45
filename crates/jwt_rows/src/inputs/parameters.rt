//! The parameters of keys: the JSON value that reads as them. `other` holds the members of a key of
//! the type `Other`, and `use_other` and `key_ops_other` set these fields of common parameters.

use crate::input::{Input, set_optional};
use jsonwebtoken::jwk::{
    AlgorithmParameters, CommonParameters, EllipticCurve, EllipticCurveKeyParameters,
    EllipticCurveKeyType, FreeMembers, OctetKeyPairParameters, OctetKeyPairType,
    OctetKeyParameters, OctetKeyType, OtherKeyParameters, RSAKeyParameters, RSAKeyType,
};
use serde_json::{Map, Value};
use std::alloc::Global;

impl Input for EllipticCurve {
    fn read(_alloc: Global, described: &Value) -> Option<EllipticCurve> {
        EllipticCurve::from_value(described).ok()
    }
}

impl Input for EllipticCurveKeyType {
    fn read(_alloc: Global, described: &Value) -> Option<EllipticCurveKeyType> {
        EllipticCurveKeyType::from_value(described).ok()
    }
}

impl Input for RSAKeyType {
    fn read(_alloc: Global, described: &Value) -> Option<RSAKeyType> {
        RSAKeyType::from_value(described).ok()
    }
}

impl Input for OctetKeyType {
    fn read(_alloc: Global, described: &Value) -> Option<OctetKeyType> {
        OctetKeyType::from_value(described).ok()
    }
}

impl Input for OctetKeyPairType {
    fn read(_alloc: Global, described: &Value) -> Option<OctetKeyPairType> {
        OctetKeyPairType::from_value(described).ok()
    }
}

impl Input for EllipticCurveKeyParameters {
    fn read(alloc: Global, described: &Value) -> Option<EllipticCurveKeyParameters> {
        EllipticCurveKeyParameters::from_value(alloc, described).ok()
    }
}

impl Input for RSAKeyParameters {
    fn read(alloc: Global, described: &Value) -> Option<RSAKeyParameters> {
        RSAKeyParameters::from_value(alloc, described).ok()
    }
}

impl Input for OctetKeyParameters {
    fn read(alloc: Global, described: &Value) -> Option<OctetKeyParameters> {
        OctetKeyParameters::from_value(alloc, described).ok()
    }
}

impl Input for OctetKeyPairParameters {
    fn read(alloc: Global, described: &Value) -> Option<OctetKeyPairParameters> {
        OctetKeyPairParameters::from_value(alloc, described).ok()
    }
}

impl Input for FreeMembers {
    fn read(alloc: Global, described: &Value) -> Option<FreeMembers> {
        let members = Map::<String, Value>::read(alloc, described)?;
        Some(FreeMembers::from(members))
    }
}

impl Input for OtherKeyParameters {
    fn read(alloc: Global, described: &Value) -> Option<OtherKeyParameters> {
        let fields = FreeMembers::read(alloc, described)?;
        Some(OtherKeyParameters { fields })
    }
}

impl Input for AlgorithmParameters {
    fn read(alloc: Global, described: &Value) -> Option<AlgorithmParameters> {
        match described.get("other") {
            Some(members) => {
                let other = OtherKeyParameters::read(alloc, members)?;
                Some(AlgorithmParameters::Other(other))
            }
            None => AlgorithmParameters::from_value(alloc, described).ok(),
        }
    }
}

impl Input for CommonParameters {
    fn read(alloc: Global, described: &Value) -> Option<CommonParameters> {
        let common = CommonParameters::from_value(alloc, described).ok()?;
        let mut common = Box::new(alloc, common).ok()?;
        set_optional(
            alloc,
            &mut common.public_key_use,
            described.get("use_other"),
        )?;
        set_optional(
            alloc,
            &mut common.key_operations,
            described.get("key_ops_other"),
        )?;
        Some(Box::into_inner(common))
    }
}
