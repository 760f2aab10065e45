//! Names of curves, types of keys, uses and operations.

use crate::json::{Json, Named};
use jsonwebtoken::errors::Result;
use jsonwebtoken::jwk::{
    EllipticCurve, EllipticCurveKeyType, KeyOperationList, KeyOperations, OctetKeyPairType,
    OctetKeyType, PublicKeyUse, RSAKeyType,
};
use serde_json::Value;
use std::alloc::Global;

impl Json for EllipticCurve {
    fn from_json(_alloc: Global, value: &Value) -> Result<EllipticCurve> {
        EllipticCurve::from_value(value)
    }

    fn to_json(&self, alloc: Global) -> Result<Value> {
        self.to_value(alloc)
    }

    fn copy(&self, _alloc: Global) -> Result<EllipticCurve> {
        Ok(self.clone()?)
    }
}

impl Json for EllipticCurveKeyType {
    fn from_json(_alloc: Global, value: &Value) -> Result<EllipticCurveKeyType> {
        EllipticCurveKeyType::from_value(value)
    }

    fn to_json(&self, alloc: Global) -> Result<Value> {
        self.to_value(alloc)
    }

    fn copy(&self, _alloc: Global) -> Result<EllipticCurveKeyType> {
        Ok(self.clone()?)
    }
}

impl Json for RSAKeyType {
    fn from_json(_alloc: Global, value: &Value) -> Result<RSAKeyType> {
        RSAKeyType::from_value(value)
    }

    fn to_json(&self, alloc: Global) -> Result<Value> {
        self.to_value(alloc)
    }

    fn copy(&self, _alloc: Global) -> Result<RSAKeyType> {
        Ok(self.clone()?)
    }
}

impl Json for OctetKeyType {
    fn from_json(_alloc: Global, value: &Value) -> Result<OctetKeyType> {
        OctetKeyType::from_value(value)
    }

    fn to_json(&self, alloc: Global) -> Result<Value> {
        self.to_value(alloc)
    }

    fn copy(&self, _alloc: Global) -> Result<OctetKeyType> {
        Ok(self.clone()?)
    }
}

impl Json for OctetKeyPairType {
    fn from_json(_alloc: Global, value: &Value) -> Result<OctetKeyPairType> {
        OctetKeyPairType::from_value(value)
    }

    fn to_json(&self, alloc: Global) -> Result<Value> {
        self.to_value(alloc)
    }

    fn copy(&self, _alloc: Global) -> Result<OctetKeyPairType> {
        Ok(self.clone()?)
    }
}

impl Json for PublicKeyUse {
    fn from_json(alloc: Global, value: &Value) -> Result<PublicKeyUse> {
        PublicKeyUse::from_value(alloc, value)
    }

    fn to_json(&self, alloc: Global) -> Result<Value> {
        self.to_value(alloc)
    }

    fn copy(&self, alloc: Global) -> Result<PublicKeyUse> {
        self.clone(alloc)
    }
}

impl Json for KeyOperations {
    fn from_json(alloc: Global, value: &Value) -> Result<KeyOperations> {
        KeyOperations::from_value(alloc, value)
    }

    fn to_json(&self, alloc: Global) -> Result<Value> {
        self.to_value(alloc)
    }

    fn copy(&self, alloc: Global) -> Result<KeyOperations> {
        self.clone(alloc)
    }
}

impl Json for KeyOperationList {
    fn from_json(alloc: Global, value: &Value) -> Result<KeyOperationList> {
        KeyOperationList::from_value(alloc, value)
    }

    fn to_json(&self, alloc: Global) -> Result<Value> {
        self.to_value(alloc)
    }

    fn copy(&self, alloc: Global) -> Result<KeyOperationList> {
        self.clone(alloc)
    }
}

impl Named for EllipticCurve {
    fn own_name(&self) -> &'static str {
        self.name()
    }
}

impl Named for EllipticCurveKeyType {
    fn own_name(&self) -> &'static str {
        self.name()
    }
}

impl Named for RSAKeyType {
    fn own_name(&self) -> &'static str {
        self.name()
    }
}

impl Named for OctetKeyType {
    fn own_name(&self) -> &'static str {
        self.name()
    }
}

impl Named for OctetKeyPairType {
    fn own_name(&self) -> &'static str {
        self.name()
    }
}
