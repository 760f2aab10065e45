//! The uses of public keys.

ghost use Rattle.std.specs.Prelude.{◌≡◌, Some, None, IfOk, IfErr};
ghost use Rattle.serde_json.specs.View.{view};
ghost use Rattle.jwt_base.specs.Kind as kind;
ghost use Rattle.jwt_base.specs.KindOf.{IsMemory, RefusesAs};

use jwt_base::cloning::CloneIn;
use jwt_base::errors::{ErrorKind, Result, new_error};
use jwt_base::text::Text;
use serde_json::Value;
use std::alloc::Global;
use std::hash::{Hash, Hasher};

/// The use of a public key, `use` (RFC 7517 section 4.2).
#[derive(Debug, Drop, Eq)]
pub enum PublicKeyUse {
    /// Signatures, `sig`.
    Signature,
    /// Encryption, `enc`.
    Encryption,
    /// Any other name.
    Other(Text),
}

impl PublicKeyUse {
    ghost use Rattle.jwt_params.specs.Use.{use_text, use_named, use_from, use_value, normal_use};
    ghost use Rattle.jwt_params.specs.Use.{is_other_use};

    /// Returns the name as a JSON string. The only refusal is `OutOfMemory`.
    pub fn to_value(&self, alloc: Global) -> Result<Value>
        ensures ok { IfOk result (λ v. view v ≡ use_value self.now) }
        ensures reads_back { IfOk result (λ v. use_from (view v) ≡ Some (normal_use self.now)) }
        ensures err { IfErr result IsMemory }
    {
        Ok(Value::try_from_str(alloc, self.as_str())?)
    }

    /// Returns the use that a JSON string names: one of the two known ones, or `Other`. A value
    /// that is not a string is refused with `Json`.
    pub fn from_value(alloc: Global, value: &Value) -> Result<PublicKeyUse>
        ensures ok { IfOk result (λ u. use_from (view value.now) ≡ Some u) }
        ensures err { IfErr result (RefusesAs kind.Json (use_from (view value.now) ≡ None)) }
    {
        let name = value.as_str().ok_or(new_error(ErrorKind::Json))?;
        PublicKeyUse::from_name(alloc, name)
    }

    /// Returns a copy. The only refusal is `OutOfMemory`.
    pub fn clone(&self, alloc: Global) -> Result<PublicKeyUse>
        ensures ok { IfOk result (λ u. u ≡ self.now) }
        ensures err { IfErr result IsMemory }
    {
        Ok(match self {
            PublicKeyUse::Signature => PublicKeyUse::Signature,
            PublicKeyUse::Encryption => PublicKeyUse::Encryption,
            PublicKeyUse::Other(name) => PublicKeyUse::Other(name.clone(alloc)?),
        })
    }

    pub(crate) fn as_str(&self) -> &str
        ensures { result.now ≡ use_text self.now }
    {
        match self {
            PublicKeyUse::Signature => "sig",
            PublicKeyUse::Encryption => "enc",
            PublicKeyUse::Other(name) => name.as_str(),
        }
    }

    fn from_name(alloc: Global, name: &str) -> Result<PublicKeyUse>
        ensures ok { IfOk result (λ u. u ≡ use_named name.now) }
        ensures err { IfErr result IsMemory }
    {
        Ok(match name {
            "sig" => PublicKeyUse::Signature,
            "enc" => PublicKeyUse::Encryption,
            _ => PublicKeyUse::Other(Text::from_str(alloc, name)?),
        })
    }

    fn is_other(&self) -> bool
        ensures { result ≡ is_other_use self.now }
    {
        matches!(self, PublicKeyUse::Other(_))
    }
}

impl CloneIn for PublicKeyUse {
    fn clone_in(&self, alloc: Global) -> Result<PublicKeyUse> {
        self.clone(alloc)
    }
}

impl PartialEq for PublicKeyUse {
    ghost use Rattle.std.specs.Prelude.{◌≡◌, ◌↔◌, IsTrue};
    ghost use Rattle.std.specs.Cmp.{partial_equiv_from_equiv};
    ghost use Rattle.jwt_params.specs.equality.NamesSame.{use_eq, use_eq_equiv};

    ghost eq = { use_eq };

    ghost laws = { partial_equiv_from_equiv use_eq_equiv };

    fn eq(&self, other: &PublicKeyUse) -> bool
        ensures test { result ≡ use_eq self.now other.now }
        ensures same { IsTrue result ↔ (self.now ≡ other.now) }
    {
        self.is_other() == other.is_other() && self.as_str() == other.as_str()
    }
}

impl Hash for PublicKeyUse {
    ghost use Rattle.jwt_params.specs.equality.NamesSame.{use_fed, use_alike};

    ghost hash_input = { use_fed };

    ghost respects_eq = { use_alike.fed };

    fn hash<H: Hasher>(&self, state: &mut H) {
        self.as_str().hash(state);
    }
}
