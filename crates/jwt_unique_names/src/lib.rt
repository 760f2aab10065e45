//! Whether an object in JSON text has a name twice, without a second parser.
//!
//! A JSON value that was read keeps the last member of each name. JSON text has one colon outside
//! strings for each member, so a name comes twice if and only if the value has fewer members than the
//! text has such colons.
#![tactic(auto)]

ghost use Rattle.std.specs.Prelude.{◌≡◌, ◌+◌, ◌<◌, ◌≤◌, ◌↔◌, ◌||◌, IsTrue, length, drop};
ghost use Rattle.std.specs.Prelude.{IsSomeAnd, IfSome, IfNone};
ghost use Rattle.json.specs.Json.{document};
ghost use Rattle.json.specs.Lex.{lex, between, in_string, in_word};
ghost use Rattle.json.specs.Word.{is_operator, is_space};
ghost use Rattle.json.specs.Strict.{HasUniqueKeys};
ghost use Rattle.serde_json.specs.View.{view, items_view, members_view};
ghost use Rattle.jwt_base.specs.JsonText.{IsJson};
ghost use Rattle.jwt_unique_names.specs.private_clauses.Counts.{colons, count, items_count};
ghost use Rattle.jwt_unique_names.specs.private_clauses.Counts.{members_count};

use serde_json::{Map, Value};

/// Returns whether no object in JSON text has a name twice (RFC 8259 section 4). `value` is the value
/// that was read from the text.
pub fn has_unique_names(text: &[u8], value: &Value) -> bool
    ensures { IsJson text.now (view value.now)
        → (IsTrue result ↔ IsSomeAnd (document text.now) HasUniqueKeys) }
{
    left_after(value, colons(text)) == Some(0)
}

// Returns the number of colons outside strings.
fn colons(text: &[u8]) -> usize
    ensures { result ≡ colons (lex between text.now) }
{
    let mut count = 0;
    let mut rest = text;
    while let [byte, tail @ ..] = rest {
        rest = match *byte {
            b'"' => after_string(tail),
            b':' => {
                count += 1;
                tail
            }
            other if ends_word(other) => tail,
            _ => after_word(tail),
        };
    }
    count
}

// Returns what follows the string whose opening quote was before this text.
fn after_string(text: &[u8]) -> &[u8]
    ensures same { lex in_string text.now ≡ lex between result.now }
    ensures shorter { length result.now ≤ length text.now }
{
    let mut rest = text;
    while let [byte, tail @ ..] = rest {
        rest = match *byte {
            b'"' => return tail,
            b'\\' => without_first(tail),
            _ => tail,
        };
    }
    rest
}

fn without_first(text: &[u8]) -> &[u8]
    ensures { result.now ≡ drop 1 text.now }
{
    if text.is_empty() { text } else { &text[1..] }
}

// Returns what follows the number or the literal whose first byte was before this text.
fn after_word(text: &[u8]) -> &[u8]
    ensures same { lex in_word text.now ≡ lex between result.now }
    ensures shorter { length result.now ≤ length text.now }
{
    let mut rest = text;
    while let [byte, tail @ ..] = rest {
        if ends_word(*byte) {
            return rest;
        }
        rest = tail;
    }
    rest
}

// Returns whether a number or a literal ends before this byte: a bracket, a comma, a colon or a space.
fn ends_word(byte: u8) -> bool
    ensures { result ≡ (is_operator byte || is_space byte) }
{
    (byte == b'{')
        | (byte == b'}')
        | (byte == b'[')
        | (byte == b']')
        | (byte == b':')
        | (byte == b',')
        | (byte == b' ')
        | (byte == b'\t')
        | (byte == b'\n')
        | (byte == b'\r')
}

// Returns `left` less the number of members in the value, at any depth, or `None` if it has more.
#[cycle(left)]
fn left_after(value: &Value, left: usize) -> Option<usize>
    ensures some { IfSome result (λ rest. rest + count (view value.now) ≡ left) }
    ensures none { IfNone result (left < count (view value.now)) }
{
    match value {
        Value::Array(items) => left_after_items(items, left),
        Value::Object(members) => left_after_members(members, left),
        _ => Some(left),
    }
}

#[cycle(left)]
fn left_after_items(items: &[Value], left: usize) -> Option<usize>
    ensures some { IfSome result (λ rest. rest + items_count (items_view items.now) ≡ left) }
    ensures none { IfNone result (left < items_count (items_view items.now)) }
{
    let mut rest = left;
    for item in items {
        rest = left_after(item, rest)?;
    }
    Some(rest)
}

#[cycle(left)]
fn left_after_members(members: &Map<String, Value>, left: usize) -> Option<usize>
    ensures some { IfSome result
        (λ rest. rest + members_count (members_view members.now.entries) ≡ left) }
    ensures none { IfNone result (left < members_count (members_view members.now.entries)) }
{
    let mut rest = left;
    for (_, member) in members.iter() {
        rest = left_after(member, rest.checked_sub(1)?)?;
    }
    Some(rest)
}
