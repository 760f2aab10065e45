//! Tokens of a size that are issued.

use jsonwebtoken::errors::Result;
use jsonwebtoken::{Algorithm, Header, Text};
use jwt_base::serialization::json_value;
use serde_json::Value;
use std::alloc::Global;

/// A header and claims, and the secret that signs them.
#[derive(Drop)]
pub struct Token {
    pub header: Header,
    pub claims: Value,
    pub secret: String,
}

/// Returns this many times the same character.
pub fn repeat(alloc: Global, letter: char, count: usize) -> Result<String> {
    let mut text = String::new(alloc);
    for _ in 0..count {
        text.push(letter)?;
    }
    Ok(text)
}

/// Returns a token with a string of this size as a claim and as the secret.
pub fn with_text(alloc: Global, size: usize) -> Result<Box<Token>> {
    let text = repeat(alloc, 'a', size)?;
    let member = format!(in alloc; "\"{text}\"")?;
    let header = new_header(alloc)?;
    token_of(alloc, text.as_str(), &header, member.as_str())
}

/// Returns a token with a string of this size as a key id, and in a custom member of the header.
pub fn with_header(alloc: Global, size: usize) -> Result<Box<Token>> {
    let text = repeat(alloc, 'a', size)?;
    let mut header = new_header(alloc)?;
    set_texts(alloc, &mut header, text.as_str())?;
    token_of(alloc, "another", &header, "true")
}

/// Returns a token with lists in lists to this depth, in the claims and in the header.
pub fn with_lists(alloc: Global, depth: usize) -> Result<Box<Token>> {
    let text = lists(alloc, depth)?;
    let value = json_value(alloc, text.as_bytes())?;
    let mut header = new_header(alloc)?;
    header.extras.insert(alloc, "own", &value)?;
    token_of(alloc, "another", &header, text.as_str())
}

/// Returns a token whose key is named `last`.
pub fn named_token(alloc: Global) -> Result<Box<Token>> {
    let mut header = new_header(alloc)?;
    set_key_id(alloc, &mut header, "last")?;
    token_of(alloc, "another", &header, "true")
}

fn new_header(alloc: Global) -> Result<Box<Header>> {
    Ok(Box::new(alloc, Header::new(alloc, Algorithm::HS256)?)?)
}

fn token_of(alloc: Global, secret: &str, header: &Header, member: &str) -> Result<Box<Token>> {
    let secret = String::from_str(alloc, secret)?;
    let claims = claims_of(alloc, member)?;
    let header = header.clone(alloc)?;
    Ok(Box::new(
        alloc,
        Token {
            header,
            claims,
            secret,
        },
    )?)
}

fn claims_of(alloc: Global, member: &str) -> Result<Value> {
    let text = format!(in alloc; "{{\"exp\":2532524891,\"own\":{member}}}")?;
    json_value(alloc, text.as_bytes())
}

fn set_texts(alloc: Global, header: &mut Header, text: &str) -> Result<()> {
    let own = String::from_str(alloc, text)?;
    let key_id = Text::from_str(alloc, text)?;
    header.kid = Some(key_id);
    header.extras.insert(alloc, "own", &own)
}

// Returns this many lists, each but the last with the next in it.
fn lists(alloc: Global, depth: usize) -> Result<String> {
    let opened = repeat(alloc, '[', depth)?;
    let closed = repeat(alloc, ']', depth)?;
    Ok(format!(in alloc; "{opened}{closed}")?)
}

fn set_key_id(alloc: Global, header: &mut Header, name: &str) -> Result<()> {
    let key_id = Text::from_str(alloc, name)?;
    header.kid = Some(key_id);
    Ok(())
}
