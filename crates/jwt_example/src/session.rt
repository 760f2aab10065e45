//! The claims of a session: claims of a custom type.

ghost use Rattle.std.specs.Prelude.{Some};

use crate::numbers::number_at;
use jsonwebtoken::errors::{ErrorKind, Result, new_error};
use jsonwebtoken::json::Claims;
use jsonwebtoken::json::members::{optional_text, optional_texts, put_optional_texts, put_text};
use jsonwebtoken::{Text, Texts};
use serde_json::{Map, Value};
use std::alloc::Global;

/// The claims of the token of a session.
#[derive(Debug, Drop)]
pub struct Session {
    /// The user who is logged in, `sub`.
    pub user: Text,
    /// The roles that the user is limited to, `roles`, if any.
    pub roles: Option<Texts>,
    /// The end of the session, `exp`, in seconds since 1970-01-01 00:00:00 UTC.
    pub ends: u64,
}

impl Claims for Session {
    ghost use Rattle.jwt_example.specs.Session.{ReadsSession, session_value, written_alike};

    ghost reads = { ReadsSession };

    ghost written = { λ s. Some (session_value s) };

    fn to_value(&self, alloc: Global) -> Result<Value> {
        let mut members = Map::new(alloc);
        put_optional_texts(alloc, &mut members, "roles", &self.roles)?;
        put_text(alloc, &mut members, "sub", self.user.as_str())?;
        serde_json::put(&mut members, alloc, "exp", Value::from(self.ends))?;
        Ok(Value::Object(members))
    }

    fn from_value(alloc: Global, value: &Value) -> Result<Session> {
        let Some(user) = optional_text(alloc, value, "sub")? else {
            return Err(new_error(ErrorKind::Json));
        };
        Ok(Session {
            user,
            roles: optional_texts(alloc, value, "roles")?,
            ends: number_at(value, "exp")?,
        })
    }

    ghost decided = { written_alike };
}
