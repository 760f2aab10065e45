//! The command `keys`.

ghost use Rattle.std.specs.Prelude.{◌≡◌, IfOk};

use crate::answer::Answer;
use jsonwebtoken::jwk::{AlgorithmParameters, Jwk, PublicKeyUse, ThumbprintHash};
use jwt_base::serialization::part_bytes;
use jwt_findings::{escape_unseen, is_unseen, set_problem, value_unless_refused};
use jwt_key_items::{Item, KeyItems, Reason, Usage};
use jwt_requests::{Fault, KeysArgs, fault_of};
use jwt_standard::StandardProvider;
use serde_json::Value;
use std::alloc::{AllocError, Global};

const HEADINGS: [&str; COLUMNS] = [
    "ITEM",
    "KID",
    "TYPE",
    "ALG",
    "USE",
    "SIZE",
    "THUMBPRINT",
    "VERIFIES",
];

const COLUMNS: usize = 8;

/// The names of the facts in JSON, in the order of the columns between the first and the last.
const NAMES: [&str; COLUMNS - 2] = ["kid", "type", "alg", "use", "size", "thumbprint"];

/// The text for a member that is not base64url.
const NO_BASE64URL: &str = "not base64url";

/// A line of the table.
#[derive(Drop)]
struct Row {
    cells: Vec<String>,
}

/// The reported facts about an item of a set.
#[derive(Drop)]
struct Facts {
    /// The texts of the columns between the first and the last, each if the key has one.
    texts: Vec<Option<String>>,
    /// Why no token is verified with the item, or `None` if one is.
    problem: Option<&'static str>,
}

/// Returns the table of a key set, or its facts as one line of JSON.
pub fn keys_answer<'a>(
    alloc: Global,
    request: &KeysArgs<'a>,
    bytes: &[u8],
) -> Result<Answer, Fault<'a>>
    ensures { IfOk result (λ a. a.status ≡ 0) }
{
    let keys = listed_keys(alloc, request.file, bytes)?;
    let output = if request.is_json {
        json_line(alloc, &keys)?
    } else {
        table(alloc, &keys)?
    };
    Ok(Answer {
        status: 0,
        output,
        message: String::new(alloc),
    })
}

/// Returns the facts about each item of the set of a file.
fn listed_keys<'a>(alloc: Global, path: &'a str, bytes: &[u8]) -> Result<Vec<Facts>, Fault<'a>> {
    let set = read_items(alloc, path, bytes)?;
    let mut keys = Vec::new(alloc);
    for (place, item) in set.items.iter().enumerate() {
        keys.push(facts_of(alloc, &set.items[..place], item)?)?;
    }
    Ok(keys)
}

fn json_line(alloc: Global, keys: &[Facts]) -> Result<String, AllocError> {
    let mut line = String::from_str(alloc, "{\"ok\":true,\"keys\":[")?;
    let mut comma = "";
    for (place, key) in keys.iter().enumerate() {
        line.push_str(comma)?;
        push_object(alloc, &mut line, place, key)?;
        comma = ",";
    }
    line.push_str("]}\n")?;
    escape_unseen(alloc, line)
}

/// Adds the facts about the item at a place as a JSON object.
fn push_object(
    alloc: Global,
    line: &mut String,
    place: usize,
    key: &Facts,
) -> Result<(), AllocError> {
    let number = number_at(place);
    line.push_str(format!(in alloc; "{{\"item\":{number},")?.as_str())?;
    for (name, text) in NAMES.iter().zip(key.texts.iter()) {
        let value = value_text(alloc, text.as_deref())?;
        line.push_str(format!(in alloc; "\"{name}\":{value},")?.as_str())?;
    }
    let verifies = key.problem.is_none();
    let why = value_text(alloc, key.problem)?;
    line.push_str(format!(in alloc; "\"verifies\":{verifies},\"why\":{why}}}")?.as_str())
}

/// Returns the number of the item at a place: the first item has the number 1.
fn number_at(place: usize) -> u64 {
    (place as u64).saturating_add(1)
}

/// Returns a text as JSON, or null.
fn value_text(alloc: Global, text: Option<&str>) -> Result<String, AllocError> {
    match text {
        Some(text) => Value::String(String::from_str(alloc, text)?).to_string(alloc),
        None => String::from_str(alloc, "null"),
    }
}

fn table(alloc: Global, keys: &[Facts]) -> Result<String, AllocError> {
    let mut rows = Vec::new(alloc);
    rows.push(headings(alloc)?)?;
    for (place, key) in keys.iter().enumerate() {
        rows.push(row_of(alloc, place, key)?)?;
    }
    page(alloc, &rows)
}

/// Returns the items of the set of a file.
fn read_items<'a>(alloc: Global, path: &'a str, bytes: &[u8]) -> Result<KeyItems, Fault<'a>> {
    match KeyItems::from_slice(alloc, bytes) {
        Ok(set) => Ok(set),
        Err(error) => {
            let problem = set_problem(bytes);
            Err(fault_of(&error, Fault::File { path, problem }))
        }
    }
}

fn headings(alloc: Global) -> Result<Row, AllocError> {
    let mut cells = Vec::new(alloc);
    for heading in &HEADINGS {
        cells.push(String::from_str(alloc, heading)?)?;
    }
    Ok(Row { cells })
}

fn row_of(alloc: Global, place: usize, key: &Facts) -> Result<Row, AllocError> {
    let mut cells = Vec::new(alloc);
    cells.push(format!(in alloc; "{}", number_at(place))?)?;
    for text in &key.texts {
        cells.push(printable_text(alloc, text.as_deref().unwrap_or("-"))?)?;
    }
    cells.push(match key.problem {
        Some(problem) => format!(in alloc; "no: {problem}")?,
        None => String::from_str(alloc, "yes")?,
    })?;
    Ok(Row { cells })
}

/// Returns the facts about an item that comes after others.
fn facts_of(alloc: Global, earlier: &[Item], item: &Item) -> Result<Facts, Fault<'static>> {
    let texts = match &item.key {
        Some(jwk) => key_texts(alloc, jwk)?,
        None => no_texts(alloc)?,
    };
    Ok(Facts {
        texts,
        problem: problem_of(earlier, item),
    })
}

fn key_texts(alloc: Global, jwk: &Jwk) -> Result<Vec<Option<String>>, Fault<'static>> {
    let mut texts = Vec::new(alloc);
    texts.push(copy(alloc, kid_of(jwk))?)?;
    texts.push(copy(alloc, Some(type_name(jwk)))?)?;
    texts.push(copy(alloc, algorithm_name(jwk))?)?;
    texts.push(copy(alloc, use_name(jwk))?)?;
    texts.push(size(alloc, jwk)?)?;
    texts.push(thumbprint(alloc, jwk)?)?;
    Ok(texts)
}

/// Returns the texts of an item that is not a key.
fn no_texts(alloc: Global) -> Result<Vec<Option<String>>, AllocError> {
    let mut texts = Vec::new(alloc);
    for _name in &NAMES {
        texts.push(None)?;
    }
    Ok(texts)
}

fn copy(alloc: Global, text: Option<&str>) -> Result<Option<String>, AllocError> {
    match text {
        Some(text) => Ok(Some(String::from_str(alloc, text)?)),
        None => Ok(None),
    }
}

/// Returns a text as it can be shown: in quotes, with escapes, if a character is not seen.
fn printable_text(alloc: Global, text: &str) -> Result<String, AllocError> {
    if text.chars().any(|character| is_unseen(character)) {
        return format!(in alloc; "{text:?}");
    }
    String::from_str(alloc, text)
}

fn kid_of(jwk: &Jwk) -> Option<&str> {
    match &jwk.common.key_id {
        Some(kid) => Some(kid.as_str()),
        None => None,
    }
}

/// Returns the name of the type of a key.
fn type_name(jwk: &Jwk) -> &'static str {
    match &jwk.algorithm {
        AlgorithmParameters::EllipticCurve(_) => "EC",
        AlgorithmParameters::RSA(_) => "RSA",
        AlgorithmParameters::OctetKey(_) => "oct",
        AlgorithmParameters::OctetKeyPair(_) => "OKP",
        AlgorithmParameters::Other(_) => "other",
    }
}

fn algorithm_name(jwk: &Jwk) -> Option<&'static str> {
    match &jwk.common.key_algorithm {
        Some(named) => Some(named.name()),
        None => None,
    }
}

fn use_name(jwk: &Jwk) -> Option<&str> {
    match &jwk.common.public_key_use {
        Some(PublicKeyUse::Signature) => Some("sig"),
        Some(PublicKeyUse::Encryption) => Some("enc"),
        Some(PublicKeyUse::Other(name)) => Some(name.as_str()),
        None => None,
    }
}

fn size(alloc: Global, jwk: &Jwk) -> Result<Option<String>, Fault<'static>> {
    let size = match &jwk.algorithm {
        AlgorithmParameters::EllipticCurve(key) => String::from_str(alloc, key.curve.name())?,
        AlgorithmParameters::RSA(key) => bits_text(alloc, key.n.as_str())?,
        AlgorithmParameters::OctetKey(key) => secret_text(alloc, key.value.as_str())?,
        AlgorithmParameters::OctetKeyPair(key) => String::from_str(alloc, key.curve.name())?,
        AlgorithmParameters::Other(_) => return Ok(None),
    };
    Ok(Some(size))
}

/// Returns the number of bits of a number in base64url.
fn bits_text(alloc: Global, part: &str) -> Result<String, Fault<'static>> {
    match value_unless_refused(part_bytes(alloc, part.as_bytes()))? {
        Some(bytes) => {
            let count = bit_count(&bytes);
            // one drop
            drop(bytes);
            Ok(format!(in alloc; "{count} bits")?)
        }
        None => Ok(String::from_str(alloc, NO_BASE64URL)?),
    }
}

/// Returns the number of bits of a number, without those of 0 at its front.
fn bit_count(bytes: &[u8]) -> u64 {
    let zeros = bytes.iter().take_while(|byte| **byte == 0).count();
    match bytes.get(zeros) {
        Some(first) => ((bytes.len() - zeros) as u64)
            .saturating_mul(8)
            .saturating_sub(first.leading_zeros() as u64),
        None => 0,
    }
}

/// Returns the number of bits of a secret in base64url.
fn secret_text(alloc: Global, part: &str) -> Result<String, Fault<'static>> {
    match value_unless_refused(part_bytes(alloc, part.as_bytes()))? {
        Some(bytes) => {
            let count = (bytes.len() as u64).saturating_mul(8);
            drop(bytes);
            Ok(format!(in alloc; "{count} bits")?)
        }
        None => Ok(String::from_str(alloc, NO_BASE64URL)?),
    }
}

fn thumbprint(alloc: Global, jwk: &Jwk) -> Result<Option<String>, Fault<'static>> {
    let made = jwk.thumbprint(alloc, &StandardProvider, ThumbprintHash::SHA256);
    Ok(value_unless_refused(made)?)
}

/// Returns why no token is verified with an item, if so: it is skipped, or no token can name it.
fn problem_of(earlier: &[Item], item: &Item) -> Option<&'static str> {
    match (&item.key, item.usage) {
        (Some(jwk), Usage::Kept(_)) => naming_problem(earlier, jwk),
        (Some(jwk), Usage::Skipped(Reason::Unfit)) => Some(unfit(jwk)),
        (_, Usage::Skipped(reason)) => Some(reason_text(reason)),
        (None, Usage::Kept(_)) => None,
    }
}

/// Returns why no token can name a kept key of a set, if so.
fn naming_problem(earlier: &[Item], jwk: &Jwk) -> Option<&'static str> {
    let Some(kid) = kid_of(jwk) else {
        return Some("it has no kid, so no token names it");
    };
    if earlier.iter().any(|other| has_kid(other, kid)) {
        return Some("an earlier key has its kid");
    }
    None
}

/// Returns whether an item is a kept key with this `kid`.
fn has_kid(item: &Item, kid: &str) -> bool {
    match (&item.key, item.usage) {
        (Some(jwk), Usage::Kept(_)) => kid_of(jwk) == Some(kid),
        _ => false,
    }
}

/// Returns why an item is skipped.
fn reason_text(reason: Reason) -> &'static str {
    match reason {
        Reason::NotAKey =>
            "it is not a key: not an object, or a member such as kid has the wrong type",
        Reason::Unsupported => "its type is unknown here, or lacks a member, such as n or e of RSA",
        Reason::Base64 => "a member of the key is malformed",
        Reason::NotForSignatures => "its use is not sig",
        Reason::Unfit => "no supported algorithm verifies with it",
        Reason::AllZero => "the secret is empty or all zeros",
        Reason::KeyText => "the secret is the text of a key",
    }
}

/// Returns why no algorithm verifies with a key.
fn unfit(jwk: &Jwk) -> &'static str {
    match jwk.common.key_algorithm {
        Some(_) => "its alg is not supported, or does not verify with it",
        None => reason_text(Reason::Unfit),
    }
}

fn page(alloc: Global, rows: &[Row]) -> Result<String, AllocError> {
    let mut widths = Vec::new(alloc);
    for column in 0..COLUMNS - 1 {
        widths.push(width(rows, column))?;
    }
    let mut page = String::new(alloc);
    for row in rows {
        push_row(&mut page, row, &widths)?;
    }
    Ok(page)
}

fn width(rows: &[Row], column: usize) -> usize {
    let mut width = 0;
    for row in rows {
        if let Some(cell) = row.cells.get(column) {
            width = usize::max(width, cell.chars().count());
        }
    }
    width
}

fn push_row(page: &mut String, row: &Row, widths: &[usize]) -> Result<(), AllocError> {
    for (place, cell) in row.cells.iter().enumerate() {
        let width = widths.get(place).copied().unwrap_or(0);
        push_cell(page, cell.as_str(), width)?;
        page.push_str(if place + 1 < COLUMNS { "  " } else { "\n" })?;
    }
    Ok(())
}

/// Adds a cell and the spaces after it.
fn push_cell(page: &mut String, cell: &str, width: usize) -> Result<(), AllocError> {
    page.push_str(cell)?;
    for _ in cell.chars().count()..width {
        page.push(' ')?;
    }
    Ok(())
}
