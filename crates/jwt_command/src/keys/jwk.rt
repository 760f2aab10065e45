//! The command `jwk`.

ghost use Rattle.std.specs.Prelude.{◌≡◌, ◌⊎◌, IfOk, IfErr, string_bytes};
ghost use Rattle.jwt_base.specs.Kind.{Kind};
ghost use Rattle.jwt_key_files.specs.PemKeys.{IsPemRefused};
ghost use Rattle.jwt_command.specs.FileKeys.{IsJwkLine};

use crate::answer::{Answer, value_line};
use crate::keys::not_pem;
use jwt_key_files::jwk::jwk_from_pem;
use jwt_requests::Fault;
use std::alloc::Global;

/// Returns the JSON Web Key of the public key in PEM that a file holds, as one line of JSON.
pub fn jwk_answer<'a>(alloc: Global, path: &'a str, bytes: &[u8]) -> Result<Answer, Fault<'a>>
    ensures ok { IfOk result (λ a. (a.status ≡ 0) × IsJwkLine bytes.now (string_bytes a.output)) }
    ensures err { IfErr result (λ e. (e ≡ Fault.Memory) ⊎ ((k : Kind) × IsPemRefused bytes.now k)) }
{
    let jwk = match jwk_from_pem(alloc, bytes) {
        Ok(jwk) => jwk,
        Err(error) => return Err(not_pem(path, &error, bytes)),
    };
    let value = jwk.to_value(alloc);
    // one drop
    drop(jwk);
    let Ok(value) = value else {
        return Err(Fault::Memory);
    };
    let Ok(output) = value_line(alloc, &value) else {
        return Err(Fault::Memory);
    };
    Ok(Answer {
        status: 0,
        output,
        message: String::new(alloc),
    })
}
