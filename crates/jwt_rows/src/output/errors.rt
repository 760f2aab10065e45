//! Errors: the name of the kind, and after it in parentheses the string that the kind holds. Rules.

use crate::answer::{Answer, Shown, object, string};
use crate::output::{List, Output, Refuse};
use jsonwebtoken::errors::{Error, ErrorKind};
use jsonwebtoken::options::{OptionsFault, Rule};
use jsonwebtoken::{Refusal, Test};
use serde_json::Value;
use std::alloc::{AllocError, Global};

impl Output for ErrorKind {
    fn show(&self, alloc: Global) -> Answer {
        let name = self.name();
        let text = match held_text(self) {
            Some(text) => format!(in alloc; "{name}({text})"),
            None => String::from_str(alloc, name),
        };
        text.ok().map(Value::String)
    }
}

impl Output for Error {
    fn show(&self, alloc: Global) -> Answer {
        self.kind().show(alloc)
    }
}

impl Output for Test {
    fn show(&self, alloc: Global) -> Answer {
        string(alloc, self.name())
    }
}

/// The text that `Debug` writes.
impl Output for OptionsFault<'_> {
    fn show(&self, alloc: Global) -> Answer {
        format!(in alloc; "{self:?}").ok().map(Value::String)
    }
}

impl Output for Rule {
    fn show(&self, alloc: Global) -> Answer {
        format!(in alloc; "{self:?}").ok().map(Value::String)
    }
}

impl Output for Vec<Rule> {
    fn show(&self, alloc: Global) -> Answer {
        List(self.as_slice()).show(alloc)
    }
}

impl Refuse for Error {
    fn refuse(&self, alloc: Global) -> Answer {
        object(alloc, "err", self.show(alloc))
    }
}

impl Refuse for AllocError {
    fn refuse(&self, alloc: Global) -> Answer {
        object(alloc, "err", string(alloc, "OutOfMemory"))
    }
}

/// The kind and the test; the kind alone if memory ran out.
impl Refuse for Refusal {
    fn refuse(&self, alloc: Global) -> Answer {
        if matches!(self.error.kind(), ErrorKind::OutOfMemory) {
            return self.error.refuse(alloc);
        }
        let mut shown = Shown::new(alloc);
        shown.add("err", &self.error);
        shown.add("test", &self.test);
        shown.end()
    }
}

// Returns the string that a kind holds.
fn held_text(kind: &ErrorKind) -> Option<&str> {
    match kind {
        ErrorKind::MissingRequiredClaim(text) => Some(text.as_str()),
        ErrorKind::InvalidClaimFormat(text) => Some(text.as_str()),
        ErrorKind::InvalidRsaKey(text) => Some(text.as_str()),
        ErrorKind::Signing(text) => Some(text.as_str()),
        ErrorKind::Provider(text) => Some(text.as_str()),
        _ => None,
    }
}
