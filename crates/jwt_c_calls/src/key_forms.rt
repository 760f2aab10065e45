//! The forms in which a call writes a key.

ghost use Rattle.std.specs.Prelude.{◌≡◌, IfOk, IfErr};
ghost use Rattle.jwt_c_calls.specs.Calls.{Returns, answer_of};
ghost use Rattle.jwt_c_calls.specs.KeyForms.{AnswersForm, AnswersHashed, AnswersText, hash_numbered};

use crate::inputs::CallError;
use jsonwebtoken::crypto::hmac::HmacProvider;
use jwt_keys::jwk::Jwk;
use jwt_params::thumbprints::ThumbprintHash;
use std::alloc::Global;
use std::result::Result;

/// A form of a key.
#[derive(Drop)]
pub enum KeyForm {
    /// Its JSON Web Key (RFC 7517 section 4).
    Text,
    /// Its thumbprint (RFC 7638).
    Thumbprint(ThumbprintHash),
}

/// Returns the hash of this many bits.
pub fn numbered_hash(bits: u32) -> Option<ThumbprintHash>
    ensures { result ≡ hash_numbered bits }
{
    match bits {
        256 => Some(ThumbprintHash::SHA256),
        384 => Some(ThumbprintHash::SHA384),
        512 => Some(ThumbprintHash::SHA512),
        _ => None,
    }
}

/// Returns a key in a form.
pub fn form_answer(alloc: Global, key: &Jwk, form: KeyForm) -> Result<Vec<u8>, CallError>
    ensures ok { IfOk result (λ b. AnswersForm form key.now (Returns b.items)) }
    ensures err { IfErr result (λ r. AnswersForm form key.now (answer_of r)) }
{
    match form {
        KeyForm::Text => key_text(alloc, key),
        KeyForm::Thumbprint(hash) => thumbprint(alloc, key, hash),
    }
}

fn key_text(alloc: Global, key: &Jwk) -> Result<Vec<u8>, CallError>
    ensures ok { IfOk result (λ b. AnswersText key.now (Returns b.items)) }
    ensures err { IfErr result (λ r. AnswersText key.now (answer_of r)) }
{
    let text = key.to_text(alloc)?;
    Ok(text)
}

fn thumbprint(alloc: Global, key: &Jwk, hash: ThumbprintHash) -> Result<Vec<u8>, CallError>
    ensures ok { IfOk result (λ b. AnswersHashed hash key.now (Returns b.items)) }
    ensures err { IfErr result (λ r. AnswersHashed hash key.now (answer_of r)) }
{
    let text = key.thumbprint(alloc, &HmacProvider, hash)?;
    Ok(text.into_bytes())
}
