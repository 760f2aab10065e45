//! Values that are known by their names: the name of a known value, or an object `{"other": ..}`
//! for any other.

use crate::input::Input;
use jsonwebtoken::jwk::{KeyAlgorithm, PublicKeyUse, ThumbprintHash};
use jsonwebtoken::{Algorithm, AlgorithmFamily, Enc, Text, Zip};
use serde_json::Value;
use std::alloc::Global;

impl Input for Algorithm {
    fn read(_alloc: Global, described: &Value) -> Option<Algorithm> {
        Algorithm::from_value(described).ok()
    }
}

impl Input for AlgorithmFamily {
    fn read(_alloc: Global, described: &Value) -> Option<AlgorithmFamily> {
        AlgorithmFamily::from_value(described).ok()
    }
}

impl Input for KeyAlgorithm {
    fn read(_alloc: Global, described: &Value) -> Option<KeyAlgorithm> {
        KeyAlgorithm::from_value(described).ok()
    }
}

impl Input for ThumbprintHash {
    fn read(_alloc: Global, described: &Value) -> Option<ThumbprintHash> {
        match described.as_str()? {
            "SHA256" => Some(ThumbprintHash::SHA256),
            "SHA384" => Some(ThumbprintHash::SHA384),
            "SHA512" => Some(ThumbprintHash::SHA512),
            _ => None,
        }
    }
}

impl Input for PublicKeyUse {
    fn read(alloc: Global, described: &Value) -> Option<PublicKeyUse> {
        match described.get("other") {
            Some(name) => Some(PublicKeyUse::Other(Text::read(alloc, name)?)),
            None => PublicKeyUse::from_value(alloc, described).ok(),
        }
    }
}

impl Input for Enc {
    fn read(alloc: Global, described: &Value) -> Option<Enc> {
        match described.get("other") {
            Some(name) => Some(Enc::Other(Text::read(alloc, name)?)),
            None => Enc::from_value(alloc, described).ok(),
        }
    }
}

impl Input for Zip {
    fn read(alloc: Global, described: &Value) -> Option<Zip> {
        match described.get("other") {
            Some(name) => Some(Zip::Other(Text::read(alloc, name)?)),
            None => Zip::from_value(alloc, described).ok(),
        }
    }
}
