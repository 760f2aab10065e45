//! Headers and extras. A header is the JSON object that reads as it, or an object whose member
//! `header` is that object, and whose members `enc`, `zip`, `jwk` and `extras` describe the values
//! of these fields. Extras are the JSON object that reads as them, or a list of pairs of a name and
//! a value, which are inserted in order.

use crate::input::{Input, set_optional};
use crate::row::has_only;
use jsonwebtoken::{Extras, Header};
use serde_json::Value;
use std::alloc::Global;

const DESCRIBED: [&str; 5] = ["header", "enc", "zip", "jwk", "extras"];

impl Input for Extras {
    fn read(alloc: Global, described: &Value) -> Option<Extras> {
        let Some(pairs) = described.as_array() else {
            return Extras::from_value(alloc, described).ok();
        };
        let mut extras = Extras::new(alloc);
        for pair in pairs {
            add_pair(alloc, &mut extras, pair)?;
        }
        Some(extras)
    }
}

impl Input for Header {
    fn read(alloc: Global, described: &Value) -> Option<Header> {
        match described.get("header") {
            Some(members) if has_only(described, &DESCRIBED) => with_fields(
                alloc, members, described,
            ),
            Some(_) => None,
            None => Header::from_value(alloc, described).ok(),
        }
    }
}

fn add_pair(alloc: Global, extras: &mut Extras, pair: &Value) -> Option<()> {
    let name = pair.get(0)?.as_str()?;
    extras.insert(alloc, name, pair.get(1)?).ok()
}

fn with_fields(alloc: Global, members: &Value, fields: &Value) -> Option<Header> {
    let mut header = Box::new(alloc, Header::from_value(alloc, members).ok()?).ok()?;
    set_fields(alloc, &mut header, fields)?;
    Some(Box::into_inner(header))
}

fn set_fields(alloc: Global, header: &mut Header, fields: &Value) -> Option<()> {
    let Header {
        enc,
        zip,
        jwk,
        extras,
        ..
    } = header;
    set_optional(alloc, enc, fields.get("enc"))?;
    set_optional(alloc, zip, fields.get("zip"))?;
    set_optional(alloc, jwk, fields.get("jwk"))?;
    set_extras(alloc, extras, fields)
}

fn set_extras(alloc: Global, extras: &mut Extras, fields: &Value) -> Option<()> {
    if let Some(described) = fields.get("extras") {
        *extras = Extras::read(alloc, described)?;
    }
    Some(())
}
