//! The work that is measured, with HS256 and the secret `secret`.

use crate::fault::BenchFault;
use jsonwebtoken::crypto::hmac::{HmacProvider, PreparedHmac};
use jsonwebtoken::crypto::{CryptoProvider, is_same};
use jsonwebtoken::{
    Algorithm, DecodingKey, EncodingKey, Header, TokenData, Validation, decode, decode_header,
    encode,
};
use jwt_base::errors::Result;
use jwt_base::serialization::json_value;
use serde_json::Value;
use std::alloc::Global;
use std::hint::black_box;

/// The work that is measured.
#[derive(Clone, Copy, Debug)]
pub enum Work {
    /// Reads and verifies a token.
    Decode,
    /// Issues the token of claims.
    Encode,
    /// Reads the header of a token.
    Header,
    /// Reads and verifies a token by a secret that is prepared.
    PreparedDecode,
    /// Issues the token of claims by a secret that is prepared.
    PreparedEncode,
    /// Compares a string with one whose first byte is another.
    CompareFirst,
    /// Compares a string with one whose last byte is another.
    CompareLast,
}

impl Work {
    /// Returns the work of that name.
    pub fn from_name(name: &str) -> Option<Work> {
        match name {
            "decode" => Some(Work::Decode),
            "encode" => Some(Work::Encode),
            "header" => Some(Work::Header),
            "prepared-decode" => Some(Work::PreparedDecode),
            "prepared-encode" => Some(Work::PreparedEncode),
            "compare-first" => Some(Work::CompareFirst),
            "compare-last" => Some(Work::CompareLast),
            _ => None,
        }
    }
}

/// The values that reading needs.
#[derive(Drop)]
struct Reading {
    key: Box<DecodingKey>,
    validation: Box<Validation>,
}

impl Reading {
    fn new(alloc: Global) -> Result<Reading> {
        Ok(Reading {
            key: decoding_key(alloc)?,
            validation: validation(alloc)?,
        })
    }
}

/// The values that issuing needs.
#[derive(Drop)]
struct Issuing {
    key: Box<EncodingKey>,
    header: Box<Header>,
}

impl Issuing {
    fn new(alloc: Global) -> Result<Issuing> {
        Ok(Issuing {
            key: encoding_key(alloc)?,
            header: header(alloc)?,
        })
    }
}

/// The values that the work needs, whose making is not measured.
#[derive(Drop)]
pub struct Prepared {
    work: Work,
    reading: Reading,
    issuing: Issuing,
    claims: Value,
    provider: Box<PreparedHmac>,
}

impl Prepared {
    /// Returns the values for this work on this text.
    pub fn new(alloc: Global, work: Work, text: &str) -> Result<Prepared> {
        let claims = match work {
            Work::Encode | Work::PreparedEncode => json_value(alloc, text.as_bytes())?,
            _ => Value::Null,
        };
        Ok(Prepared {
            work,
            reading: Reading::new(alloc)?,
            issuing: Issuing::new(alloc)?,
            claims,
            provider: prepared_provider(alloc)?,
        })
    }

    // The result of a call is tested and dropped in place, and not by a call of `drop`: to move it
    // would cost as much as a step of the call.
    fn decode<P: CryptoProvider>(&self, alloc: Global, provider: &P, token: &[u8]) -> bool {
        let answer: Result<TokenData<Value>> = decode(
            alloc,
            provider,
            token,
            &self.reading.key,
            &self.reading.validation,
            0,
        );
        black_box(&answer).is_ok()
    }

    fn encode<P: CryptoProvider>(&self, alloc: Global, provider: &P) -> bool {
        let answer = encode(
            alloc,
            provider,
            &self.issuing.header,
            black_box(&self.claims),
            &self.issuing.key,
        );
        black_box(&answer).is_ok()
    }

    fn is_done(&self, alloc: Global, text: &str) -> bool {
        let token = text.as_bytes();
        match self.work {
            Work::Decode => self.decode(alloc, &HmacProvider, token),
            Work::Encode => self.encode(alloc, &HmacProvider),
            Work::PreparedDecode => self.decode(alloc, &*self.provider, token),
            Work::PreparedEncode => self.encode(alloc, &*self.provider),
            _ => has_header(alloc, token),
        }
    }
}

/// Does the work on the text this many times.
pub fn repeat(
    alloc: Global,
    prepared: &Prepared,
    text: &str,
    count: u64,
) -> Result<(), BenchFault> {
    let bytes = text.as_bytes();
    match prepared.work {
        Work::CompareFirst => compare(alloc, bytes, 0, count),
        Work::CompareLast => compare(alloc, bytes, bytes.len().saturating_sub(1), count),
        _ => repeat_calls(alloc, prepared, text, count),
    }
}

fn decoding_key(alloc: Global) -> Result<Box<DecodingKey>> {
    Ok(Box::new(alloc, DecodingKey::from_secret(alloc, b"secret")?)?)
}

fn validation(alloc: Global) -> Result<Box<Validation>> {
    Ok(Box::new(alloc, Validation::new(alloc, Algorithm::HS256)?)?)
}

fn encoding_key(alloc: Global) -> Result<Box<EncodingKey>> {
    Ok(Box::new(alloc, EncodingKey::from_secret(alloc, b"secret")?)?)
}

fn header(alloc: Global) -> Result<Box<Header>> {
    Ok(Box::new(alloc, Header::new(alloc, Algorithm::HS256)?)?)
}

fn prepared_provider(alloc: Global) -> Result<Box<PreparedHmac>> {
    let provider = PreparedHmac::new(alloc, Algorithm::HS256, b"secret")?;
    Ok(Box::new(alloc, provider)?)
}

fn has_header(alloc: Global, token: &[u8]) -> bool {
    let answer = decode_header(alloc, token);
    black_box(&answer).is_ok()
}

// Compares the bytes this many times with bytes that differ in one place, each time by another
// byte, so that no compiler leaves a comparison out.
fn compare(alloc: Global, bytes: &[u8], place: usize, count: u64) -> Result<(), BenchFault> {
    let mut other = Vec::from_slice(alloc, bytes)?;
    for turn in 0..count {
        if let (Some(given), Some(byte)) = (other.get_mut(place), bytes.get(place)) {
            *given = *byte ^ (turn % 255 + 1) as u8;
        }
        if is_same(bytes, other.as_slice()) {
            return Err(BenchFault::Refused);
        }
    }
    Ok(())
}

fn repeat_calls(
    alloc: Global,
    prepared: &Prepared,
    text: &str,
    count: u64,
) -> Result<(), BenchFault> {
    for _ in 0..count {
        if !prepared.is_done(alloc, black_box(text)) {
            return Err(BenchFault::Refused);
        }
    }
    Ok(())
}
