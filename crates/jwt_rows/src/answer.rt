//! Results as JSON values.

use crate::output::Output;
use serde_json::{Map, Value, put};
use std::alloc::Global;

/// A value that shows a result, or none if the row's inputs or the value could not be made.
pub type Answer = Option<Value>;

/// An object that shows a result, in the making.
#[derive(Drop)]
pub struct Shown {
    alloc: Global,
    members: Map<String, Value>,
    /// Whether no member is lost.
    is_whole: bool,
}

impl Shown {
    /// Returns an object without members.
    pub fn new(alloc: Global) -> Shown {
        Shown {
            alloc,
            members: Map::new(alloc),
            is_whole: true,
        }
    }

    /// Adds a member that shows this value.
    pub fn add<T: Output>(&mut self, name: &str, value: &T) {
        let shown = value.show(self.alloc);
        self.put(name, shown);
    }

    /// Adds a member with this value, if there is one.
    pub fn put(&mut self, name: &str, value: Answer) {
        let is_put = match value {
            Some(value) => put(&mut self.members, self.alloc, name, value).is_ok(),
            None => false,
        };
        self.is_whole = self.is_whole && is_put;
    }

    /// Returns the object, if no member is lost.
    pub fn end(self) -> Answer {
        let Shown {
            members,
            is_whole,
            ..
        } = self;
        is_whole.then_some(Value::Object(members))
    }
}

/// Returns an object with this one member.
pub fn object(alloc: Global, name: &str, value: Answer) -> Answer {
    let mut shown = Shown::new(alloc);
    shown.put(name, value);
    shown.end()
}

/// Returns a string.
pub fn string(alloc: Global, text: &str) -> Answer {
    Value::try_from_str(alloc, text).ok()
}

/// Returns the hexadecimal digits of these bytes.
pub fn digits(alloc: Global, bytes: &[u8]) -> Answer {
    hex::encode(alloc, bytes).ok().map(Value::String)
}
