//! Values of the plain types, validations, and tokens in parts: as JSON holds them.

use crate::input::Input;
use jsonwebtoken::jws::Jws;
use jsonwebtoken::{Text, Texts, Validation};
use serde_json::{Map, Value};
use std::alloc::Global;

impl Input for Value {
    fn read(_alloc: Global, described: &Value) -> Option<Value> {
        described.clone().ok()
    }
}

impl Input for Map<String, Value> {
    fn read(_alloc: Global, described: &Value) -> Option<Map<String, Value>> {
        described.as_object()?.clone().ok()
    }
}

impl Input for bool {
    fn read(_alloc: Global, described: &Value) -> Option<bool> {
        described.as_bool()
    }
}

impl Input for u32 {
    fn read(_alloc: Global, described: &Value) -> Option<u32> {
        u32::try_from(described.as_u64()?).ok()
    }
}

impl Input for u64 {
    fn read(_alloc: Global, described: &Value) -> Option<u64> {
        described.as_u64()
    }
}

impl Input for i32 {
    fn read(_alloc: Global, described: &Value) -> Option<i32> {
        i32::try_from(described.as_i64()?).ok()
    }
}

impl Input for i64 {
    fn read(_alloc: Global, described: &Value) -> Option<i64> {
        described.as_i64()
    }
}

impl Input for String {
    fn read(alloc: Global, described: &Value) -> Option<String> {
        String::from_str(alloc, described.as_str()?).ok()
    }
}

impl Input for Text {
    fn read(alloc: Global, described: &Value) -> Option<Text> {
        Some(Text::from(String::read(alloc, described)?))
    }
}

impl<T: Input> Input for Vec<T> {
    fn read(alloc: Global, described: &Value) -> Option<Vec<T>> {
        let mut values = Vec::new(alloc);
        for value in described.as_array()? {
            values.push(T::read(alloc, value)?).ok()?;
        }
        Some(values)
    }
}

impl Input for Texts {
    fn read(alloc: Global, described: &Value) -> Option<Texts> {
        Some(Texts::from(Vec::<Text>::read(alloc, described)?))
    }
}

impl Input for Validation {
    fn read(alloc: Global, described: &Value) -> Option<Validation> {
        Validation::from_value(alloc, described).ok()
    }
}

impl Input for Jws<Value> {
    fn read(alloc: Global, described: &Value) -> Option<Jws<Value>> {
        Jws::from_value(alloc, described).ok()
    }
}
