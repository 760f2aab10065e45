//! The keys that an issuer publishes, named by their thumbprints (RFC 7638).

ghost use Rattle.std.specs.Prelude.{◌≡◌, ◌≢◌, ◌⊎◌, OnOk, IfErr};
ghost use Rattle.jwt_base.specs.Kind as kind;
ghost use Rattle.jwt_base.specs.KindOf.{kind_of, IsMemory};
ghost use Rattle.jwt_base.specs.declared.algorithms.AlgorithmFamily.TheVariants as family;
ghost use Rattle.jwt_keys.specs.Key.{key_family};
ghost use Rattle.jwt_example.specs.Published.{Publishes, IsNotPublished, under};

use jsonwebtoken::errors::{ErrorKind, Result, new_error};
use jsonwebtoken::jwk::{Jwk, JwkSet, ThumbprintHash};
use jsonwebtoken::{Algorithm, AlgorithmFamily, DecodingKey, Text};
use jwt_standard::StandardProvider;
use std::alloc::Global;

/// Adds a public key to the set, for this algorithm, with its thumbprint by SHA-256 as its id. A
/// secret is refused with `InvalidKeyFormat`, since its JSON Web Key holds it; every other refusal
/// is that of `from_decoding_key` or of `thumbprint`. A refusal leaves the set unchanged.
pub fn publish(
    alloc: Global,
    set: &mut JwkSet,
    key: &DecodingKey,
    algorithm: Algorithm,
) -> Result<()>
    ensures ok { OnOk result (Publishes algorithm key.now set.old.keys.items set.new.keys.items) }
    ensures err { IfErr result (λ e. IsMemory e ⊎ IsNotPublished algorithm key.now (kind_of e)) }
    ensures unchanged { IfErr result (λ _. set.new.keys.items ≡ set.old.keys.items) }
{
    refuse_secret(key)?;
    let mut jwk = Jwk::from_decoding_key(alloc, &StandardProvider, key, Some(algorithm))?;
    let thumbprint = jwk.thumbprint(alloc, &StandardProvider, ThumbprintHash::SHA256)?;
    name(&mut jwk, Text::from(thumbprint));
    set.keys.push(jwk)?;
    Ok(())
}

/// Sets the id of the key.
pub fn name(jwk: &mut Jwk, id: Text)
    ensures { jwk.new ≡ under id jwk.old }
{
    jwk.common.key_id = Some(id);
}

/// Refuses a secret with `InvalidKeyFormat`.
fn refuse_secret(key: &DecodingKey) -> Result<()>
    ensures ok { OnOk result (key_family key.now ≢ family.Hmac) }
    ensures err { IfErr result (λ e. (key_family key.now ≡ family.Hmac)
        × (kind_of e ≡ kind.InvalidKeyFormat)) }
{
    if key.family() == AlgorithmFamily::Hmac {
        return Err(new_error(ErrorKind::InvalidKeyFormat));
    }
    Ok(())
}
