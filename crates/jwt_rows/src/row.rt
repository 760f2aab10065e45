//! Rows: the call, its inputs and the result that is wanted.

use crate::answer::{Answer, object};
use crate::bytes::bytes_of;
use crate::input::Input;
use crate::output::{Output, Refuse};
use crate::trial::Trial;
use jsonwebtoken::{Algorithm, errors};
use jwt_base::serialization::json_value;
use serde_json::{Map, Value};
use std::alloc::Global;
use std::cell::Cell;

// The members that every row may have.
const COMMON: [&str; 5] = ["id", "call", "want", "from", "requests"];

/// A row: one call of the library, its inputs and the result that is wanted; and the trial of the
/// call. It notes which members it is asked for, and which it lacks: a plain value stands in for a
/// member that is missing or malformed, and the row has no result.
#[derive(Drop)]
pub struct Row<'a> {
    alloc: Global,
    members: &'a Map<String, Value>,
    /// A bit for each member, in their order: whether the row was asked for it.
    asked: Cell<u64>,
    /// The name of a member that is missing, malformed or refused, or an empty one.
    lacking: Cell<&'static str>,
    is_text: Cell<bool>,
    trial: Trial,
}

impl<'a> Row<'a> {
    /// Returns the row of these members, with the number of the call's request for memory that is
    /// to be refused, or 0.
    pub fn new(alloc: Global, members: &'a Map<String, Value>, number: usize) -> Row<'a> {
        Row {
            alloc,
            members,
            asked: Cell::new(0),
            lacking: Cell::new(""),
            is_text: Cell::new(false),
            trial: Trial::new(alloc, number),
        }
    }

    /// Returns the allocator.
    pub fn alloc(&self) -> Global {
        self.alloc
    }

    /// Returns the member of this name, if the row has it.
    pub fn value(&self, name: &'static str) -> Option<&'a Value> {
        let mut bit = 1_u64;
        for (known, value) in self.members {
            if known.as_str() == name {
                self.asked.set(self.asked.get() | bit);
                return Some(value);
            }
            bit = bit.rotate_left(1);
        }
        None
    }

    /// Returns what was found at a name, or what stands in for it, and notes that it does.
    pub fn found<T: Drop>(&self, name: &'static str, found: Option<T>, substitute: T) -> T {
        if let Some(found) = found {
            return found;
        }
        self.lacking.set(name);
        substitute
    }

    /// Returns the string at a name.
    pub fn text(&self, name: &'static str) -> &'a str {
        self.found(name, self.value(name).and_then(Value::as_str), "")
    }

    /// Returns the whole number at a name.
    pub fn number(&self, name: &'static str) -> u64 {
        self.found(name, self.value(name).and_then(Value::as_u64), 0)
    }

    /// Returns the truth value at a name.
    pub fn flag(&self, name: &'static str) -> bool {
        self.found(name, self.value(name).and_then(Value::as_bool), false)
    }

    /// Returns the list at a name.
    pub fn list(&self, name: &'static str) -> &'a [Value] {
        match self.value(name) {
            Some(Value::Array(items)) => items.as_slice(),
            _ => self.found(name, None, &[]),
        }
    }

    /// Returns the list of strings at a name.
    pub fn texts(&self, name: &'static str) -> Vec<&'a str> {
        let mut texts = Vec::new(self.alloc);
        for item in self.list(name) {
            let text = self.found(name, item.as_str(), "");
            let pushed = texts.push(text);
            self.found(name, pushed.ok(), ());
        }
        texts
    }

    /// Returns the bytes that the member of this name describes.
    pub fn bytes(&self, name: &'static str) -> Vec<u8> {
        let bytes = match self.value(name) {
            Some(described) => bytes_of(self.alloc, described),
            None => None,
        };
        self.found(name, bytes, Vec::new(self.alloc))
    }

    /// Returns the JSON value at `name`, or that of the text which `name_json` describes.
    pub fn json(&self, name: &'static str, name_json: &'static str) -> Value {
        let value = match self.value(name) {
            Some(value) => value.clone().ok(),
            None => self.json_of_text(name_json),
        };
        self.found(name, value, Value::Null)
    }

    fn json_of_text(&self, name: &'static str) -> Option<Value> {
        json_value(self.alloc, self.bytes(name).as_slice()).ok()
    }

    /// Returns the algorithm at a name.
    pub fn algorithm(&self, name: &'static str) -> Algorithm {
        self.found(name, self.read::<Algorithm>(name), Algorithm::HS256)
    }

    /// Returns the value that the member of this name describes.
    pub fn read<T: Input>(&self, name: &'static str) -> Option<T> {
        let value = match self.value(name) {
            Some(described) => T::read(self.alloc, described),
            None => None,
        };
        if value.is_none() {
            self.lacking.set(name);
        }
        value
    }

    /// Returns the value that the member of this name describes, behind a pointer.
    pub fn input<T: Input>(&self, name: &'static str) -> Option<Box<T>> {
        Box::new(self.alloc, self.read::<T>(name)?).ok()
    }

    /// Has the result shown as its compact JSON text if the row's member `text` says so.
    pub fn choose_form(&self) {
        self.is_text
            .set(self.value("text").is_some() && self.flag("text"));
    }

    /// Orders that a request for memory is refused, and returns the allocator. The call is made
    /// right after this.
    pub fn begin(&self) -> Global {
        self.trial.begin();
        self.alloc
    }

    /// Ends the refusal of requests. This is done right after the call, by what returns its result
    /// if not before.
    pub fn stop(&self) {
        self.trial.end();
    }

    /// Returns the result of a call: `{"ok": ..}` with the value that it returned, or what shows
    /// its refusal.
    pub fn end<T: Output, E: Refuse>(&self, answer: Result<T, E>) -> Answer {
        match &answer {
            Ok(value) => self.give(value),
            Err(refusal) => self.refuse(refusal),
        }
    }

    /// Returns the result of a call that returned this value.
    pub fn give<T: Output>(&self, value: &T) -> Answer {
        self.stop();
        let shown = value.show(self.alloc);
        if self.is_text.get() {
            return object(self.alloc, "ok", compact(self.alloc, shown?));
        }
        object(self.alloc, "ok", shown)
    }

    /// Returns the result of a call that refused.
    pub fn refuse<E: Refuse>(&self, refusal: &E) -> Answer {
        self.stop();
        refusal.refuse(self.alloc)
    }

    /// Returns the result of a call that changes its receiver: this one afterwards. A call that is
    /// refused leaves its receiver unchanged.
    pub fn end_change<T: Output + PartialEq>(
        &self,
        answer: errors::Result<()>,
        before: &T,
        after: &T,
    ) -> Answer {
        self.stop();
        match answer {
            Ok(()) => self.give(after),
            Err(_refusal) if before != after => object(
                self.alloc,
                "changed",
                true.show(self.alloc),
            ),
            Err(refusal) => self.refuse(&refusal),
        }
    }

    /// Returns whether a request of the call was refused.
    pub fn was_refused(&self) -> bool {
        self.trial.was_refused()
    }

    /// Returns the name of a member that is missing, malformed or refused, or an empty one.
    pub fn lacking(&self) -> &'static str {
        self.lacking.get()
    }

    /// Returns the name of a member that the row was not asked for, and that not every row may
    /// have.
    pub fn unknown_name(&self) -> Option<&'a str> {
        let mut bit = 1_u64;
        for (name, _) in self.members {
            if self.asked.get() & bit == 0 && !is_among(name.as_str(), &COMMON) {
                return Some(name.as_str());
            }
            bit = bit.rotate_left(1);
        }
        None
    }
}

/// Returns whether an object has no members but those of these names.
pub fn has_only(value: &Value, names: &[&str]) -> bool {
    match value.as_object() {
        Some(members) => members.keys().all(|name| is_among(name.as_str(), names)),
        None => false,
    }
}

// Returns a string of the compact JSON text of a value.
fn compact(alloc: Global, value: Value) -> Answer {
    value.to_string(alloc).ok().map(Value::String)
}

/// Returns whether a name is one of these.
pub fn is_among(name: &str, names: &[&str]) -> bool {
    for known in names {
        if *known == name {
            return true;
        }
    }
    false
}
