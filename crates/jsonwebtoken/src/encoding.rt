//! Issuing tokens in their compact form (RFC 7515 section 7.1).

ghost use Rattle.std.specs.Prelude.{IfOk, string_bytes};
ghost use Rattle.jsonwebtoken.specs.Order.{Passes, Decides};
ghost use Rattle.jsonwebtoken.specs.Issue.{Written, IsIssued, ReadsBack, encode_order, issue_tests};
ghost use Rattle.jsonwebtoken.specs.IssueCalls.{encoding};
ghost use Rattle.jsonwebtoken.specs.private_clauses.IssueSteps.{IssueStep};

pub(crate) mod steps;

use crate::encoding::steps::{check_family, claims_part, header_part, sign_parts, with_part};
use jwt_base::errors::Result;
use jwt_base::json::Claims;
use jwt_header::Header;
use jwt_keys::encoding_key::EncodingKey;
use jwt_keys::provider::CryptoProvider;
use std::alloc::Global;

/// Signs a header and claims with the key, and returns the token: header part, dot, claims part,
/// dot, signature part. The first two parts are base64url of compact JSON texts (RFC 7515 section
/// 7.1, RFC 7519 section 7.1).
///
/// These tests are made in this order, and a refused call has the kind of the first that fails:
///
/// - the key is of the family of the header's algorithm, else `InvalidAlgorithm`;
/// - the provider makes a signer for that algorithm and the key, else the provider's kind;
/// - the header can be written, else `Json`;
/// - the claims can be written, and no float stands in them, else `Json`;
/// - the provider signs the header part, the dot and the claims part, else the provider's kind.
///
/// ```rust
/// let key = EncodingKey::from_secret(alloc, b"secret")?;
/// let header = Header::new(alloc, Algorithm::HS256)?;
/// encode(alloc, &HmacProvider, &header, claims, &key)
/// ```
pub fn encode<P: CryptoProvider, T: Claims>(
    alloc: Global,
    provider: &P,
    header: &Header,
    claims: &T,
    key: &EncodingKey,
) -> Result<String>
    ensures decided { let issue = encoding P.CryptoProvider T.Claims provider.now header.now
        claims.now key.now in
        Decides (issue_tests issue) encode_order (λ t x. IsIssued issue t (string_bytes x)) result }

    // An issued token is read as the header's normal form and the claims' value, and its signature
    // is accepted with each key that accepts the signatures of this key.
    ensures read_back { let issue = encoding P.CryptoProvider T.Claims provider.now header.now
        claims.now key.now in
        IfOk result (λ x. (t : Written) → Passes (issue_tests issue) encode_order t
        → ReadsBack issue (P.accepts provider.now) t (string_bytes x)) }
{
    encode_by_steps(alloc, provider, header, claims, key)
}

fn encode_by_steps<P: CryptoProvider, T: Claims>(
    alloc: Global,
    provider: &P,
    header: &Header,
    claims: &T,
    key: &EncodingKey,
) -> Result<String>
    ensures { let issue = encoding P.CryptoProvider T.Claims provider.now header.now claims.now
        key.now in
        IssueStep issue encode_order (λ t x. IsIssued issue t (string_bytes x)
        × ReadsBack issue (P.accepts provider.now) t (string_bytes x)) result }
{
    let algorithm = header.alg;
    check_family(key, algorithm)?;
    let signer = provider.signer_factory(alloc, &algorithm, key)?;
    let header_text = header_part(alloc, header)?;
    let claims_text = claims_part(alloc, claims)?;
    let signed = sign_parts(alloc, &signer, header_text, claims_text.as_str())?;
    // named for the proof
    let token = with_part(signed.message, signed.signature.as_str())?;
    Ok(token)
}
