//! Parameters of keys.

use crate::json::{Json, Membered};
use jsonwebtoken::errors::Result;
use jsonwebtoken::jwk::{
    AlgorithmParameters, CommonParameters, EllipticCurveKeyParameters, OctetKeyPairParameters,
    OctetKeyParameters, OtherKeyParameters, RSAKeyParameters,
};
use serde_json::{Map, Value};
use std::alloc::Global;

impl Json for CommonParameters {
    fn from_json(alloc: Global, value: &Value) -> Result<CommonParameters> {
        CommonParameters::from_value(alloc, value)
    }

    fn to_json(&self, alloc: Global) -> Result<Value> {
        self.to_value(alloc)
    }

    fn copy(&self, alloc: Global) -> Result<CommonParameters> {
        self.clone(alloc)
    }
}

impl Json for EllipticCurveKeyParameters {
    fn from_json(alloc: Global, value: &Value) -> Result<EllipticCurveKeyParameters> {
        EllipticCurveKeyParameters::from_value(alloc, value)
    }

    fn to_json(&self, alloc: Global) -> Result<Value> {
        self.to_value(alloc)
    }

    fn copy(&self, alloc: Global) -> Result<EllipticCurveKeyParameters> {
        self.clone(alloc)
    }
}

impl Json for RSAKeyParameters {
    fn from_json(alloc: Global, value: &Value) -> Result<RSAKeyParameters> {
        RSAKeyParameters::from_value(alloc, value)
    }

    fn to_json(&self, alloc: Global) -> Result<Value> {
        self.to_value(alloc)
    }

    fn copy(&self, alloc: Global) -> Result<RSAKeyParameters> {
        self.clone(alloc)
    }
}

impl Json for OctetKeyParameters {
    fn from_json(alloc: Global, value: &Value) -> Result<OctetKeyParameters> {
        OctetKeyParameters::from_value(alloc, value)
    }

    fn to_json(&self, alloc: Global) -> Result<Value> {
        self.to_value(alloc)
    }

    fn copy(&self, alloc: Global) -> Result<OctetKeyParameters> {
        self.clone(alloc)
    }
}

impl Json for OctetKeyPairParameters {
    fn from_json(alloc: Global, value: &Value) -> Result<OctetKeyPairParameters> {
        OctetKeyPairParameters::from_value(alloc, value)
    }

    fn to_json(&self, alloc: Global) -> Result<Value> {
        self.to_value(alloc)
    }

    fn copy(&self, alloc: Global) -> Result<OctetKeyPairParameters> {
        self.clone(alloc)
    }
}

impl Json for OtherKeyParameters {
    fn from_json(alloc: Global, value: &Value) -> Result<OtherKeyParameters> {
        OtherKeyParameters::from_value(alloc, value)
    }

    fn to_json(&self, alloc: Global) -> Result<Value> {
        self.to_value(alloc)
    }

    fn copy(&self, alloc: Global) -> Result<OtherKeyParameters> {
        self.clone(alloc)
    }
}

impl Json for AlgorithmParameters {
    fn from_json(alloc: Global, value: &Value) -> Result<AlgorithmParameters> {
        AlgorithmParameters::from_value(alloc, value)
    }

    fn to_json(&self, alloc: Global) -> Result<Value> {
        self.to_value(alloc)
    }

    fn copy(&self, alloc: Global) -> Result<AlgorithmParameters> {
        self.clone(alloc)
    }
}

impl Membered for EllipticCurveKeyParameters {
    fn list(&self, alloc: Global) -> Result<Map<String, Value>> {
        self.members(alloc)
    }
}

impl Membered for RSAKeyParameters {
    fn list(&self, alloc: Global) -> Result<Map<String, Value>> {
        self.members(alloc)
    }
}

impl Membered for OctetKeyParameters {
    fn list(&self, alloc: Global) -> Result<Map<String, Value>> {
        self.members(alloc)
    }
}

impl Membered for OctetKeyPairParameters {
    fn list(&self, alloc: Global) -> Result<Map<String, Value>> {
        self.members(alloc)
    }
}

impl Membered for AlgorithmParameters {
    fn list(&self, alloc: Global) -> Result<Map<String, Value>> {
        self.members(alloc)
    }
}
