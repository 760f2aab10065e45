//! The command `thumbprint`.

ghost use Rattle.std.specs.Prelude.{◌≡◌, IfOk};

use crate::answer::Answer;
use jsonwebtoken::jwk::{Jwk, ThumbprintHash};
use jwt_findings::value_unless_refused;
use jwt_key_files::jwk::jwk_from_pem;
use jwt_requests::{Fault, fault_of};
use jwt_standard::StandardProvider;
use std::alloc::Global;

/// Returns the thumbprint of the key of a file (RFC 7638 section 3).
pub fn thumbprint_answer<'a>(
    alloc: Global,
    path: &'a str,
    bytes: &[u8],
    hash: &ThumbprintHash,
) -> Result<Answer, Fault<'a>>
    ensures { IfOk result (λ a. a.status ≡ 0) }
{
    let jwk = key(alloc, path, bytes)?;
    let answer = key_answer(alloc, path, &jwk, hash);
    // one drop
    drop(jwk);
    answer
}

/// Returns the key of a file: a JSON Web Key, or a public key in PEM, which other text may come
/// before.
fn key<'a>(alloc: Global, path: &'a str, bytes: &[u8]) -> Result<Jwk, Fault<'a>> {
    let problem = "this is neither a JSON Web Key nor a public key in PEM";
    if let Some(jwk) = value_unless_refused(Jwk::from_slice(alloc, bytes))? {
        return Ok(jwk);
    }
    match jwk_from_pem(alloc, bytes) {
        Ok(jwk) => Ok(jwk),
        Err(error) => Err(fault_of(&error, Fault::File { path, problem })),
    }
}

fn key_answer<'a>(
    alloc: Global,
    path: &'a str,
    jwk: &Jwk,
    hash: &ThumbprintHash,
) -> Result<Answer, Fault<'a>>
    ensures { IfOk result (λ a. a.status ≡ 0) }
{
    match jwk.thumbprint(alloc, &StandardProvider, same_hash(hash)) {
        Ok(thumbprint) => {
            let mut output = thumbprint;
            output.push('\n')?;
            Ok(Answer {
                status: 0,
                output,
                message: String::new(alloc),
            })
        }
        Err(error) => {
            let problem = "a key of this type has no thumbprint";
            Err(fault_of(&error, Fault::File { path, problem }))
        }
    }
}

/// Returns the hash again.
fn same_hash(hash: &ThumbprintHash) -> ThumbprintHash
    ensures { result ≡ hash.now }
{
    match hash {
        ThumbprintHash::SHA256 => ThumbprintHash::SHA256,
        ThumbprintHash::SHA384 => ThumbprintHash::SHA384,
        ThumbprintHash::SHA512 => ThumbprintHash::SHA512,
    }
}
