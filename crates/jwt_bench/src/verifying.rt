//! Verification with a JSON Web Key, by any of the twelve algorithms.

use crate::fault::BenchFault;
use jsonwebtoken::errors::{ErrorKind, Result, new_error};
use jsonwebtoken::jwk::Jwk;
use jsonwebtoken::{DecodingKey, TokenData, Validation, decode};
use jwt_base::serialization::json_value;
use jwt_standard::StandardProvider;
use serde_json::Value;
use std::alloc::Global;
use std::hint::black_box;

/// A token, and the values that verifying it needs.
#[derive(Drop)]
pub struct Verifying {
    token: Vec<u8>,
    key: Box<DecodingKey>,
    validation: Box<Validation>,
}

impl Verifying {
    /// Returns the values that the text describes: a JSON object of a token, `token`, its key,
    /// `jwk`, and the options, `validation`.
    pub fn new(alloc: Global, text: &str) -> Result<Verifying> {
        let value = json_value(alloc, text.as_bytes())?;
        let token = value.get("token").and_then(Value::as_str);
        let (key, options) = (value.get("jwk"), value.get("validation"));
        let (Some(token), Some(key), Some(options)) = (token, key, options) else {
            return Err(new_error(ErrorKind::Json));
        };
        Verifying::read(alloc, token, key, options)
    }

    /// Verifies the token this many times.
    pub fn repeat(&self, alloc: Global, count: u64) -> Result<(), BenchFault> {
        for _ in 0..count {
            if !self.is_verified(alloc) {
                return Err(BenchFault::Refused);
            }
        }
        Ok(())
    }

    fn is_verified(&self, alloc: Global) -> bool {
        let token = black_box(self.token.as_slice());
        let answer: Result<TokenData<Value>> = decode(
            alloc,
            &StandardProvider,
            token,
            &self.key,
            &self.validation,
            0,
        );
        let is_ok = black_box(&answer).is_ok();
        // one drop
        drop(answer);
        is_ok
    }

    fn read(alloc: Global, token: &str, key: &Value, options: &Value) -> Result<Verifying> {
        Ok(Verifying {
            token: Vec::from_slice(alloc, token.as_bytes())?,
            key: key_of(alloc, key)?,
            validation: read_validation(alloc, options)?,
        })
    }
}

fn key_of(alloc: Global, value: &Value) -> Result<Box<DecodingKey>> {
    let jwk = read_jwk(alloc, value)?;
    Ok(Box::new(alloc, DecodingKey::from_jwk(alloc, &jwk)?)?)
}

fn read_jwk(alloc: Global, value: &Value) -> Result<Box<Jwk>> {
    Ok(Box::new(alloc, Jwk::from_value(alloc, value)?)?)
}

fn read_validation(alloc: Global, value: &Value) -> Result<Box<Validation>> {
    Ok(Box::new(alloc, Validation::from_value(alloc, value)?)?)
}
