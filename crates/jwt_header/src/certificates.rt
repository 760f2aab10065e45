//! Certificates as strings in standard base64.

ghost use Rattle.std.specs.Prelude.{List, ℕ, IfOk, IfErr, map};
ghost use Rattle.std.specs.List.{AllZip};
ghost use Rattle.jwt_base.specs.Base64Url.{IsStandardText};
ghost use Rattle.jwt_base.specs.Kind as kind;
ghost use Rattle.jwt_base.specs.KindOf.{RefusesAs};

use jwt_base::errors::Result;
use jwt_base::serialization::standard_bytes;
use jwt_base::text::Text;
use std::alloc::Global;

// Returns the bytes of each string.
pub(crate) fn certificate_bytes(alloc: Global, texts: &[Text]) -> Result<Vec<Vec<u8>>>
    ensures ok { IfOk result (λ v. AllZip IsStandardText texts.now (map (λ b. b.items) v.items)) }
    ensures err { IfErr result (RefusesAs kind.Base64
        ((bs : List (List ℕ)) → ¬ AllZip IsStandardText texts.now bs)) }
{
    let mut certificates = Vec::new(alloc);
    for text in texts {
        certificates.push(standard_bytes(alloc, text.as_str().as_bytes())?)?;
    }
    Ok(certificates)
}
