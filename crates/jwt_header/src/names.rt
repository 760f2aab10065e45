//! Header values that are known by their names.

ghost use Rattle.std.specs.Prelude.{◌≡◌, Some, None, IfOk, IfErr};
ghost use Rattle.serde_json.specs.View.{view};
ghost use Rattle.jwt_base.specs.Kind as kind;
ghost use Rattle.jwt_base.specs.KindOf.{IsMemory, RefusesAs};

use jwt_base::cloning::CloneIn;
use jwt_base::errors::{ErrorKind, Result, new_error};
use jwt_base::text::Text;
use serde_json::Value;
use std::alloc::Global;
use std::hash::{Hash, Hasher};

/// The algorithm that encrypts the content of an encrypted token, `enc` (RFC 7518 section 5.1). It
/// is read and written; this library encrypts nothing.
#[derive(Debug, Drop, Eq)]
pub enum Enc {
    /// AES-128 in CBC mode with HMAC SHA-256.
    A128CBC_HS256,
    /// AES-192 in CBC mode with HMAC SHA-384.
    A192CBC_HS384,
    /// AES-256 in CBC mode with HMAC SHA-512.
    A256CBC_HS512,
    /// AES-128 in Galois/Counter mode.
    A128GCM,
    /// AES-192 in Galois/Counter mode.
    A192GCM,
    /// AES-256 in Galois/Counter mode.
    A256GCM,
    /// Any other name.
    Other(Text),
}

impl Enc {
    ghost use Rattle.jwt_header.specs.Enc.{enc_text, enc_named, enc_from, enc_value, normal_enc};
    ghost use Rattle.jwt_header.specs.Enc.{is_other_enc};

    /// Returns the name as a JSON string. The only refusal is `OutOfMemory`.
    pub fn to_value(&self, alloc: Global) -> Result<Value>
        ensures ok { IfOk result (λ v. view v ≡ enc_value self.now) }
        ensures reads_back { IfOk result (λ v. enc_from (view v) ≡ Some (normal_enc self.now)) }
        ensures err { IfErr result IsMemory }
    {
        Ok(Value::try_from_str(alloc, self.as_str())?)
    }

    /// Returns the algorithm that a JSON string names: one of the six known ones, or `Other`. A
    /// value that is not a string is refused with `Json`.
    pub fn from_value(alloc: Global, value: &Value) -> Result<Enc>
        ensures ok { IfOk result (λ e. enc_from (view value.now) ≡ Some e) }
        ensures err { IfErr result (RefusesAs kind.Json (enc_from (view value.now) ≡ None)) }
    {
        let name = value.as_str().ok_or(new_error(ErrorKind::Json))?;
        Enc::from_name(alloc, name)
    }

    /// Returns a copy. The only refusal is `OutOfMemory`.
    pub fn clone(&self, alloc: Global) -> Result<Enc>
        ensures ok { IfOk result (λ e. e ≡ self.now) }
        ensures err { IfErr result IsMemory }
    {
        Ok(match self {
            Enc::A128CBC_HS256 => Enc::A128CBC_HS256,
            Enc::A192CBC_HS384 => Enc::A192CBC_HS384,
            Enc::A256CBC_HS512 => Enc::A256CBC_HS512,
            Enc::A128GCM => Enc::A128GCM,
            Enc::A192GCM => Enc::A192GCM,
            Enc::A256GCM => Enc::A256GCM,
            Enc::Other(name) => Enc::Other(name.clone(alloc)?),
        })
    }

    pub(crate) fn as_str(&self) -> &str
        ensures { result.now ≡ enc_text self.now }
    {
        match self {
            Enc::A128CBC_HS256 => "A128CBC-HS256",
            Enc::A192CBC_HS384 => "A192CBC-HS384",
            Enc::A256CBC_HS512 => "A256CBC-HS512",
            Enc::A128GCM => "A128GCM",
            Enc::A192GCM => "A192GCM",
            Enc::A256GCM => "A256GCM",
            Enc::Other(name) => name.as_str(),
        }
    }

    fn from_name(alloc: Global, name: &str) -> Result<Enc>
        ensures ok { IfOk result (λ e. e ≡ enc_named name.now) }
        ensures err { IfErr result IsMemory }
    {
        Ok(match name {
            "A128CBC-HS256" => Enc::A128CBC_HS256,
            "A192CBC-HS384" => Enc::A192CBC_HS384,
            "A256CBC-HS512" => Enc::A256CBC_HS512,
            "A128GCM" => Enc::A128GCM,
            "A192GCM" => Enc::A192GCM,
            "A256GCM" => Enc::A256GCM,
            _ => Enc::Other(Text::from_str(alloc, name)?),
        })
    }

    fn is_other(&self) -> bool
        ensures { result ≡ is_other_enc self.now }
    {
        matches!(self, Enc::Other(_))
    }
}

impl CloneIn for Enc {
    fn clone_in(&self, alloc: Global) -> Result<Enc> {
        self.clone(alloc)
    }
}

impl PartialEq for Enc {
    ghost use Rattle.std.specs.Prelude.{◌≡◌, ◌↔◌, IsTrue};
    ghost use Rattle.std.specs.Cmp.{partial_equiv_from_equiv};
    ghost use Rattle.jwt_header.specs.equality.NamesSame.{enc_eq, enc_eq_equiv};

    ghost eq = { enc_eq };

    ghost laws = { partial_equiv_from_equiv enc_eq_equiv };

    fn eq(&self, other: &Enc) -> bool
        ensures test { result ≡ enc_eq self.now other.now }
        ensures same { IsTrue result ↔ (self.now ≡ other.now) }
    {
        self.is_other() == other.is_other() && self.as_str() == other.as_str()
    }
}

impl Hash for Enc {
    ghost use Rattle.jwt_header.specs.equality.NamesSame.{enc_fed, enc_alike};

    ghost hash_input = { enc_fed };

    ghost respects_eq = { enc_alike.fed };

    fn hash<H: Hasher>(&self, state: &mut H) {
        self.as_str().hash(state);
    }
}

/// The algorithm that compresses the content of an encrypted token, `zip` (RFC 7516 section 4.1.3).
/// It is read and written; this library compresses nothing.
#[derive(Debug, Drop, Eq)]
pub enum Zip {
    /// DEFLATE, `DEF`.
    Deflate,
    /// Any other name.
    Other(Text),
}

impl Zip {
    ghost use Rattle.jwt_header.specs.Zip.{zip_text, zip_named, zip_from, zip_value, normal_zip};
    ghost use Rattle.jwt_header.specs.Zip.{is_other_zip};

    /// Returns the name as a JSON string. The only refusal is `OutOfMemory`.
    pub fn to_value(&self, alloc: Global) -> Result<Value>
        ensures ok { IfOk result (λ v. view v ≡ zip_value self.now) }
        ensures reads_back { IfOk result (λ v. zip_from (view v) ≡ Some (normal_zip self.now)) }
        ensures err { IfErr result IsMemory }
    {
        Ok(Value::try_from_str(alloc, self.as_str())?)
    }

    /// Returns the algorithm that a JSON string names: `DEF`, or `Other`. A value that is not a
    /// string is refused with `Json`.
    pub fn from_value(alloc: Global, value: &Value) -> Result<Zip>
        ensures ok { IfOk result (λ z. zip_from (view value.now) ≡ Some z) }
        ensures err { IfErr result (RefusesAs kind.Json (zip_from (view value.now) ≡ None)) }
    {
        let name = value.as_str().ok_or(new_error(ErrorKind::Json))?;
        Zip::from_name(alloc, name)
    }

    /// Returns a copy. The only refusal is `OutOfMemory`.
    pub fn clone(&self, alloc: Global) -> Result<Zip>
        ensures ok { IfOk result (λ z. z ≡ self.now) }
        ensures err { IfErr result IsMemory }
    {
        Ok(match self {
            Zip::Deflate => Zip::Deflate,
            Zip::Other(name) => Zip::Other(name.clone(alloc)?),
        })
    }

    pub(crate) fn as_str(&self) -> &str
        ensures { result.now ≡ zip_text self.now }
    {
        match self {
            Zip::Deflate => "DEF",
            Zip::Other(name) => name.as_str(),
        }
    }

    fn from_name(alloc: Global, name: &str) -> Result<Zip>
        ensures ok { IfOk result (λ z. z ≡ zip_named name.now) }
        ensures err { IfErr result IsMemory }
    {
        Ok(match name {
            "DEF" => Zip::Deflate,
            _ => Zip::Other(Text::from_str(alloc, name)?),
        })
    }

    fn is_other(&self) -> bool
        ensures { result ≡ is_other_zip self.now }
    {
        matches!(self, Zip::Other(_))
    }
}

impl CloneIn for Zip {
    fn clone_in(&self, alloc: Global) -> Result<Zip> {
        self.clone(alloc)
    }
}

impl PartialEq for Zip {
    ghost use Rattle.std.specs.Prelude.{◌≡◌, ◌↔◌, IsTrue};
    ghost use Rattle.std.specs.Cmp.{partial_equiv_from_equiv};
    ghost use Rattle.jwt_header.specs.equality.NamesSame.{zip_eq, zip_eq_equiv};

    ghost eq = { zip_eq };

    ghost laws = { partial_equiv_from_equiv zip_eq_equiv };

    fn eq(&self, other: &Zip) -> bool
        ensures test { result ≡ zip_eq self.now other.now }
        ensures same { IsTrue result ↔ (self.now ≡ other.now) }
    {
        self.is_other() == other.is_other() && self.as_str() == other.as_str()
    }
}

impl Hash for Zip {
    ghost use Rattle.jwt_header.specs.equality.NamesSame.{zip_fed, zip_alike};

    ghost hash_input = { zip_fed };

    ghost respects_eq = { zip_alike.fed };

    fn hash<H: Hasher>(&self, state: &mut H) {
        self.as_str().hash(state);
    }
}
