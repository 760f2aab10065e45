//! Values of the plain types: as themselves, bytes in hexadecimal, and null for none.

use crate::answer::{Answer, Shown, digits, object, string};
use crate::output::Output;
use serde_json::{Map, Value};
use std::alloc::Global;

/// Bytes, which are shown in hexadecimal.
#[derive(Clone, Copy)]
pub struct Bytes<'a>(pub &'a [u8]);

/// Values, which are shown as a list.
#[derive(Clone, Copy)]
pub struct List<'a, T>(pub &'a [T]);

/// A value that may be absent, shown as `{"some": ..}` or null.
#[derive(Drop)]
pub struct Found<T>(pub Option<T>);

impl Output for () {
    fn show(&self, _alloc: Global) -> Answer {
        Some(Value::Null)
    }
}

impl Output for bool {
    fn show(&self, _alloc: Global) -> Answer {
        Some(Value::Bool(*self))
    }
}

impl Output for u32 {
    fn show(&self, _alloc: Global) -> Answer {
        Some(Value::from(*self))
    }
}

impl Output for u64 {
    fn show(&self, _alloc: Global) -> Answer {
        Some(Value::from(*self))
    }
}

impl Output for i32 {
    fn show(&self, _alloc: Global) -> Answer {
        Some(Value::from(*self))
    }
}

impl Output for i64 {
    fn show(&self, _alloc: Global) -> Answer {
        Some(Value::from(*self))
    }
}

impl Output for String {
    fn show(&self, alloc: Global) -> Answer {
        string(alloc, self.as_str())
    }
}

impl Output for &str {
    fn show(&self, alloc: Global) -> Answer {
        string(alloc, self)
    }
}

impl Output for Value {
    fn show(&self, _alloc: Global) -> Answer {
        self.clone().ok()
    }
}

impl Output for Map<String, Value> {
    fn show(&self, _alloc: Global) -> Answer {
        Some(Value::Object(self.clone().ok()?))
    }
}

impl Output for Vec<u8> {
    fn show(&self, alloc: Global) -> Answer {
        digits(alloc, self.as_slice())
    }
}

impl Output for Bytes<'_> {
    fn show(&self, alloc: Global) -> Answer {
        digits(alloc, self.0)
    }
}

impl<T: Output> Output for List<'_, T> {
    fn show(&self, alloc: Global) -> Answer {
        let mut values = Vec::new(alloc);
        for item in self.0 {
            values.push(item.show(alloc)?).ok()?;
        }
        Some(Value::Array(values))
    }
}

impl Output for Vec<Vec<u8>> {
    fn show(&self, alloc: Global) -> Answer {
        List(self.as_slice()).show(alloc)
    }
}

impl Output for Vec<bool> {
    fn show(&self, alloc: Global) -> Answer {
        List(self.as_slice()).show(alloc)
    }
}

impl<T: Output> Output for Option<T> {
    fn show(&self, alloc: Global) -> Answer {
        match self {
            Some(value) => value.show(alloc),
            None => Some(Value::Null),
        }
    }
}

impl<T: Output> Output for Found<T> {
    fn show(&self, alloc: Global) -> Answer {
        match &self.0 {
            Some(value) => object(alloc, "some", value.show(alloc)),
            None => Some(Value::Null),
        }
    }
}

/// A modulus and an exponent.
impl Output for (Vec<u8>, Vec<u8>) {
    fn show(&self, alloc: Global) -> Answer {
        (Bytes(self.0.as_slice()), Bytes(self.1.as_slice())).show(alloc)
    }
}

/// A modulus and an exponent.
impl Output for (Bytes<'_>, Bytes<'_>) {
    fn show(&self, alloc: Global) -> Answer {
        let mut shown = Shown::new(alloc);
        shown.add("n", &self.0);
        shown.add("e", &self.1);
        shown.end()
    }
}
