//! Headers, their members, keys, and sets of keys.

use crate::json::Json;
use jsonwebtoken::errors::Result;
use jsonwebtoken::jwk::{Jwk, JwkSet};
use jsonwebtoken::{Enc, Extras, Header, Zip};
use serde_json::Value;
use std::alloc::Global;

impl Json for Enc {
    fn from_json(alloc: Global, value: &Value) -> Result<Enc> {
        Enc::from_value(alloc, value)
    }

    fn to_json(&self, alloc: Global) -> Result<Value> {
        self.to_value(alloc)
    }

    fn copy(&self, alloc: Global) -> Result<Enc> {
        self.clone(alloc)
    }
}

impl Json for Zip {
    fn from_json(alloc: Global, value: &Value) -> Result<Zip> {
        Zip::from_value(alloc, value)
    }

    fn to_json(&self, alloc: Global) -> Result<Value> {
        self.to_value(alloc)
    }

    fn copy(&self, alloc: Global) -> Result<Zip> {
        self.clone(alloc)
    }
}

impl Json for Extras {
    fn from_json(alloc: Global, value: &Value) -> Result<Extras> {
        Extras::from_value(alloc, value)
    }

    fn to_json(&self, alloc: Global) -> Result<Value> {
        self.to_value(alloc)
    }

    fn copy(&self, alloc: Global) -> Result<Extras> {
        self.clone(alloc)
    }
}

impl Json for Header {
    fn from_json(alloc: Global, value: &Value) -> Result<Header> {
        Header::from_value(alloc, value)
    }

    fn to_json(&self, alloc: Global) -> Result<Value> {
        self.to_value(alloc)
    }

    fn copy(&self, alloc: Global) -> Result<Header> {
        self.clone(alloc)
    }
}

impl Json for Jwk {
    fn from_json(alloc: Global, value: &Value) -> Result<Jwk> {
        Jwk::from_value(alloc, value)
    }

    fn to_json(&self, alloc: Global) -> Result<Value> {
        self.to_value(alloc)
    }

    fn copy(&self, alloc: Global) -> Result<Jwk> {
        self.clone(alloc)
    }
}

impl Json for JwkSet {
    fn from_json(alloc: Global, value: &Value) -> Result<JwkSet> {
        JwkSet::from_value(alloc, value)
    }

    fn to_json(&self, alloc: Global) -> Result<Value> {
        self.to_value(alloc)
    }

    fn copy(&self, alloc: Global) -> Result<JwkSet> {
        self.clone(alloc)
    }
}
