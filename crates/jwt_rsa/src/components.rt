//! The modulus and the exponent of a public key in DER.

ghost use Rattle.std.specs.Prelude.{◌≡◌, Ok, IfOk, IfErr};
ghost use Rattle.jwt_base.specs.Kind as kind;
ghost use Rattle.jwt_base.specs.KindOf.{kind_of, IsMemory, RefusesAs};
ghost use Rattle.jwt_keys.specs.Key.{Key, Components};
ghost use Rattle.jwt_keys.specs.Provider.{RefusesWith};
ghost use Rattle.jwt_key_files.specs.PublicKeys.{IsRsaKey};
ghost use Rattle.jwt_rsa.specs.RsaAnswers.{components_read, no_key_text, HasJwkOf};

use jwt_base::errors::{Error, ErrorKind, Result, new_error};
use jwt_key_files::public_key::rsa_components_from_der;
use std::alloc::Global;

// Returns copies of the modulus and the exponent of an RSAPublicKey.
pub(crate) fn components(alloc: Global, der: &[u8]) -> Result<(Vec<u8>, Vec<u8>)>
    ensures ok { IfOk result (λ p. components_read der.now ≡ Ok (p.0.items, p.1.items)) }
    ensures err { IfErr result (RefusesWith (components_read der.now)) }
    ensures key { IfOk result (λ p. IsRsaKey der.now (Components p.0.items p.1.items)) }
    ensures no_key { IfErr result (RefusesAs (kind.InvalidRsaKey no_key_text)
        ((k : Key) → ¬ IsRsaKey der.now k)) }
    ensures jwk { IfOk result (λ p. HasJwkOf der.now p.0.items p.1.items) }
{
    let Some((modulus, exponent)) = rsa_components_from_der(der) else {
        let error = no_key(alloc)?;
        return Err(error);
    };
    let n = modulus.to_vec(alloc)?;
    let e = exponent.to_vec(alloc)?;
    Ok((n, e))
}

// Returns the error that refuses bytes that are no RSAPublicKey.
fn no_key(alloc: Global) -> Result<Error>
    ensures ok { IfOk result (λ e. kind_of e ≡ kind.InvalidRsaKey no_key_text) }
    ensures err { IfErr result IsMemory }
{
    let text = String::from_str(alloc, "the bytes are not an RSAPublicKey in DER")?;
    Ok(new_error(ErrorKind::InvalidRsaKey(text)))
}
