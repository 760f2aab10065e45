//! Reading tokens without verifying them. The results of these calls may come from anybody: neither
//! the signature nor the claim rules are tested.

ghost use Rattle.std.specs.Prelude.{◌≡◌};
ghost use Rattle.jsonwebtoken.specs.Calls.{Carries, HasClaims};
ghost use Rattle.jsonwebtoken.specs.Order.{Decides};
ghost use Rattle.jsonwebtoken.specs.Steps.{Step};
ghost use Rattle.jsonwebtoken.specs.private_clauses.Steps.{whole};
ghost use Rattle.jsonwebtoken.specs.Tests.{insecure_order, insecure_claims_order, insecure_call};
ghost use Rattle.jsonwebtoken.specs.Tests.{header_bytes_order, header_call, payload_bytes_order};
ghost use Rattle.jsonwebtoken.specs.Tests.{token_tests};

use crate::decoding::steps::{read_header, read_part, read_payload, token_parts};
use crate::decoding::{TokenData, token_data};
use crate::refusal::{Refusal, Test, without_test};
use jwt_base::errors::Result;
use jwt_base::json::Claims;
use std::alloc::Global;

/// Returns the header and the claims of a token in its compact form. Nothing is verified.
///
/// The tests are those of [`decode`](crate::decode) on the dots, the header part and the payload
/// part, in the same order, without those of the header's `crit`, of the claims being an object,
/// and of the claim rules.
pub fn insecure_decode<T: Claims>(alloc: Global, token: &[u8]) -> Result<TokenData<T>>
    ensures { let call = insecure_call token.now T.reads in
        Decides (token_tests call) insecure_order (Carries call) result }
{
    without_test(insecure_decode_by_steps(alloc, token))
}

/// Returns the claims of a token in its compact form. Nothing is verified, and the header is not
/// read.
///
/// The tests are those of [`insecure_decode`] without those on the header part.
pub fn insecure_decode_claims<T: Claims>(alloc: Global, token: &[u8]) -> Result<T>
    ensures { let call = insecure_call token.now T.reads in
        Decides (token_tests call) insecure_claims_order (HasClaims call) result }
{
    without_test(insecure_decode_claims_by_steps(alloc, token))
}

/// Returns the bytes that the header part of a token stands for, of any algorithm. Nothing is verified,
/// and the bytes are not read.
///
/// The tests are those of [`insecure_decode`] on the dots and on the base64url of the header part.
pub fn insecure_header_bytes(alloc: Global, token: &[u8]) -> Result<Vec<u8>>
    ensures { Decides (token_tests (header_call token.now)) header_bytes_order
        (λ t b. t.header_bytes ≡ b.items) result }
{
    without_test(header_bytes_by_steps(alloc, token))
}

/// Returns the bytes that the payload part of a token stands for. Nothing is verified, and the bytes
/// are not read.
///
/// The tests are those of [`insecure_decode`] on the dots and on the base64url of the payload part.
pub fn insecure_payload_bytes(alloc: Global, token: &[u8]) -> Result<Vec<u8>>
    ensures { Decides (token_tests (header_call token.now)) payload_bytes_order
        (λ t b. t.payload_bytes ≡ b.items) result }
{
    without_test(payload_bytes_by_steps(alloc, token))
}

fn header_bytes_by_steps(alloc: Global, token: &[u8]) -> Result<Vec<u8>, Refusal>
    ensures { Step (header_call token.now) header_bytes_order whole
        (λ t b. t.header_bytes ≡ b.items) result }
{
    let parts = token_parts(token)?;
    // named for the proof
    let bytes = read_part(alloc, Test::HeaderIsBase64url, parts.header)?;
    Ok(bytes)
}

fn payload_bytes_by_steps(alloc: Global, token: &[u8]) -> Result<Vec<u8>, Refusal>
    ensures { Step (header_call token.now) payload_bytes_order whole
        (λ t b. t.payload_bytes ≡ b.items) result }
{
    let parts = token_parts(token)?;
    let bytes = read_part(alloc, Test::PayloadIsBase64url, parts.payload)?;
    Ok(bytes)
}

fn insecure_decode_by_steps<T: Claims>(alloc: Global, token: &[u8]) -> Result<TokenData<T>, Refusal>
    ensures { Step (insecure_call token.now T.reads) insecure_order whole
        (Carries (insecure_call token.now T.reads)) result }
{
    let parts = token_parts(token)?;
    let header = read_header(alloc, parts.header)?;
    let claims = read_payload(alloc, parts.payload);
    token_data(header, claims)
}

fn insecure_decode_claims_by_steps<T: Claims>(alloc: Global, token: &[u8]) -> Result<T, Refusal>
    ensures { Step (insecure_call token.now T.reads) insecure_claims_order whole
        (HasClaims (insecure_call token.now T.reads)) result }
{
    let parts = token_parts(token)?;
    // named for the proof
    let claims = read_payload(alloc, parts.payload)?;
    Ok(claims)
}
