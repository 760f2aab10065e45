//! The equality of JSON values, in which any two floats count as equal.

ghost use Rattle.std.specs.Prelude.{◌≡◌, ◌↔◌, IsTrue, fold};
ghost use Rattle.serde_json.specs.View.{view, number_view, items_view, members_view};
ghost use Rattle.serde_json.specs.Written.{has_float as holds_float, items_have_float};
ghost use Rattle.serde_json.specs.Written.{members_have_float};
ghost use Rattle.jwt_base.specs.DataEq.{num_eq, data_eq, items_eq, members_eq, marked};
ghost use Rattle.jwt_base.specs.DataEq.{members_marked};
ghost use Rattle.jwt_base.specs.equality.NamesFed.{names_fed};

use serde_json::{Map, Number, Value};
use std::hash::{Hash, Hasher};

/// Returns whether a float stands anywhere in the value: a number that is neither a `u64` nor an
/// `i64`.
#[cycle(floats)]
pub fn has_float(value: &Value) -> bool
    ensures { result ≡ holds_float (view value.now) }
{
    match value {
        Value::Number(number) => number.is_f64(),
        Value::Array(items) => any_item_has_float(items),
        Value::Object(members) => any_member_has_float(members),
        _ => false,
    }
}

/// Returns whether a float stands anywhere in the members.
#[cycle(floats)]
pub fn any_member_has_float(members: &Map<String, Value>) -> bool
    ensures { result ≡ members_have_float (members_view members.now.entries) }
{
    for (_, member) in members.iter() {
        if has_float(member) {
            return true;
        }
    }
    false
}

/// Returns whether two values are the same. Any two floats count as equal, since contracts do not
/// know the value of a float.
pub fn value_eq(a: &Value, b: &Value) -> bool
    ensures test { result ≡ data_eq (view a.now) (view b.now) }
    ensures same { IsTrue result ↔ (marked (view a.now) ≡ marked (view b.now)) }
{
    same_values(a, b)
}

/// Returns whether two objects have the same names with the same values. Any two floats count as
/// equal.
pub fn members_are_equal(a: &Map<String, Value>, b: &Map<String, Value>) -> bool
    ensures test { result ≡ members_eq (members_view a.now.entries) (members_view b.now.entries) }
    ensures same { IsTrue result
        ↔ (members_marked (members_view a.now.entries)
        ≡ members_marked (members_view b.now.entries)) }
{
    same_members(a, b)
}

/// Feeds the hasher the names of the members, and nothing of their values.
pub fn hash_names<H: Hasher>(members: &Map<String, Value>, state: &mut H)
    ensures { state.new ≡ fold H.write state.old (names_fed (members_view members.now.entries)) }
{
    for (name, _) in members.iter() {
        name.as_str().hash(state);
    }
}

#[cycle(floats)]
fn any_item_has_float(items: &[Value]) -> bool
    ensures { result ≡ items_have_float (items_view items.now) }
{
    for item in items {
        if has_float(item) {
            return true;
        }
    }
    false
}

#[cycle(same)]
fn same_values(a: &Value, b: &Value) -> bool
    ensures { result ≡ data_eq (view a.now) (view b.now) }
{
    match a {
        Value::Null => b.is_null(),
        Value::Bool(x) => match b.as_bool() {
            Some(y) => *x == y,
            None => false,
        },
        Value::Number(x) => match b.as_number() {
            Some(y) => same_numbers(x, y),
            None => false,
        },
        Value::String(x) => match b.as_str() {
            Some(y) => x.as_str() == y,
            None => false,
        },
        Value::Array(xs) => match b.as_array() {
            Some(ys) => same_items(xs, ys),
            None => false,
        },
        Value::Object(xs) => match b.as_object() {
            Some(ys) => same_members(xs, ys),
            None => false,
        },
    }
}

fn same_numbers(a: &Number, b: &Number) -> bool
    ensures { result ≡ num_eq (number_view a.now) (number_view b.now) }
{
    match (a.as_u64(), b.as_u64()) {
        (Some(x), Some(y)) => x == y,
        (None, None) => match (a.as_i64(), b.as_i64()) {
            (Some(x), Some(y)) => x == y,
            (None, None) => true,
            _ => false,
        },
        _ => false,
    }
}

#[cycle(same)]
fn same_items(xs: &[Value], ys: &[Value]) -> bool
    ensures { result ≡ items_eq (items_view xs.now) (items_view ys.now) }
{
    let mut others = ys.iter();
    for x in xs {
        match others.next() {
            Some(y) if same_values(x, y) => {}
            _ => return false,
        }
    }
    others.next().is_none()
}

#[cycle(same)]
fn same_members(xs: &Map<String, Value>, ys: &Map<String, Value>) -> bool
    ensures { result ≡ members_eq (members_view xs.now.entries) (members_view ys.now.entries) }
{
    let mut others = ys.iter();
    for (name, x) in xs.iter() {
        match others.next() {
            Some((other, y)) if name.as_str() == other.as_str() && same_values(x, y) => {}
            _ => return false,
        }
    }
    others.next().is_none()
}
