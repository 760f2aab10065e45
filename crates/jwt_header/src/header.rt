//! The header of a token.

ghost use Rattle.std.specs.Prelude.{◌≡◌, ◌↔◌, IsTrue, Some, None, List, ℕ, false, Option, IfOk};
ghost use Rattle.std.specs.Prelude.{IfErr, OnOk, option_map, option_and_then, map, codes};
ghost use Rattle.serde_json.specs.Find.{get};
ghost use Rattle.serde_json.specs.View.{view, members_view};
ghost use Rattle.serde_json.specs.Written.{has_float};
ghost use Rattle.jwt_base.specs.Algorithm.{algorithm_from};
ghost use Rattle.jwt_base.specs.JsonText.{ReadsText};
ghost use Rattle.jwt_base.specs.Kind as kind;
ghost use Rattle.jwt_base.specs.KindOf.{kind_of, IsMemory, RefusesAs};
ghost use Rattle.jwt_base.specs.Members.{optional, put_some, ReadsOptional, written_optional};
ghost use Rattle.jwt_header.specs.Enc.{enc_from, enc_value};
ghost use Rattle.jwt_header.specs.Extras.{IsExtras};
ghost use Rattle.jwt_header.specs.Zip.{zip_from, zip_value};
ghost use Rattle.jwt_keys.specs.Jwk.{ReadsKey, key_value};
ghost use Rattle.jwt_keys.specs.declared.jwk.Jwk.{Jwk};

use crate::certificates::certificate_bytes;
use crate::extras::Extras;
use crate::names::{Enc, Zip};
use jwt_base::algorithms::Algorithm;
use jwt_base::cloning::clone_option;
use jwt_base::errors::{ErrorKind, Result, new_error};
use jwt_base::json::members::{
    optional_text, optional_texts, present, put_optional_text, put_optional_texts, put_text,
};
use jwt_base::json::value_text;
use jwt_base::serialization::json_value;
use jwt_base::text::{Text, Texts};
use jwt_keys::jwk::Jwk;
use serde_json::{Map, Value};
use std::alloc::Global;
use std::hash::{Hash, Hasher};

/// The header of a token (RFC 7515 section 4.1).
#[derive(Debug, Drop)]
pub struct Header {
    /// The algorithm that signs the token, `alg` (section 4.1.1).
    pub alg: Algorithm,
    /// The type of the whole token, `typ` (section 4.1.9).
    pub typ: Option<Text>,
    /// The type of the payload, `cty` (section 4.1.10).
    pub cty: Option<Text>,
    /// The URL of the key set, `jku` (section 4.1.2).
    pub jku: Option<Text>,
    /// The key that verifies the token, `jwk` (section 4.1.3).
    pub jwk: Option<Jwk>,
    /// The identifier of the key, `kid` (section 4.1.4).
    pub kid: Option<Text>,
    /// The URL of the certificates, `x5u` (section 4.1.5).
    pub x5u: Option<Text>,
    /// The SHA-1 digest of the key's certificate in base64url, `x5t` (section 4.1.7).
    pub x5t: Option<Text>,
    /// The SHA-256 digest of the key's certificate in base64url, `x5t#S256` (section 4.1.8).
    pub x5t_s256: Option<Text>,
    /// The URL of the request, `url` (RFC 8555 section 6.4).
    pub url: Option<Text>,
    /// The value against replay, `nonce` (RFC 8555 section 6.5).
    pub nonce: Option<Text>,
    /// The key's certificate and those that certify it, each in standard base64, `x5c` (section
    /// 4.1.6).
    pub x5c: Option<Texts>,
    /// The names that must be understood, `crit` (section 4.1.11).
    pub crit: Option<Texts>,
    /// The algorithm that encrypts the content, `enc` (RFC 7516 section 4.1.2).
    pub enc: Option<Enc>,
    /// The algorithm that compresses the content, `zip` (RFC 7516 section 4.1.3).
    pub zip: Option<Zip>,
    /// The members that the standards do not name (section 4.3).
    pub extras: Extras,
}

impl Header {
    ghost use Rattle.jwt_header.specs.Certificates.{AreCertificates};
    ghost use Rattle.jwt_header.specs.Header.{ReadsHeader, new_header, with_named, header_members};
    ghost use Rattle.jwt_header.specs.Header.{header_value};
    ghost use Rattle.jwt_base.specs.Written.{HasText};
    ghost use Rattle.jwt_header.specs.HeaderWritten.{normal_header, IsNormal, HasNormalForm};
    ghost use Rattle.jwt_header.specs.declared.header.Header.{Header};

    /// Returns the header with this algorithm, the type `JWT`, and nothing else. The only refusal
    /// is `OutOfMemory`.
    pub fn new(alloc: Global, algorithm: Algorithm) -> Result<Header>
        ensures ok { IfOk result (λ h. h ≡ new_header algorithm) }
        ensures err { IfErr result IsMemory }
    {
        Ok(Header {
            alg: algorithm,
            typ: Some(Text::from_str(alloc, "JWT")?),
            cty: None,
            jku: None,
            jwk: None,
            kid: None,
            x5u: None,
            x5t: None,
            x5t_s256: None,
            url: None,
            nonce: None,
            x5c: None,
            crit: None,
            enc: None,
            zip: None,
            extras: Extras::new(alloc),
        })
    }

    /// Returns the header that a JSON object describes. `alg` must be one of the twelve names. The
    /// other members may be absent or null, and every further member becomes an extra. A value that
    /// is not an object, a member of a wrong type, a `jwk` that is not a key and a float among the
    /// extras are refused with `Json`.
    // A function clears the room of its locals at entry, and reading has many: a caller that seldom
    // reads must not hold them.
    #[inline(never)]
    pub fn from_value(alloc: Global, value: &Value) -> Result<Header>
        ensures ok { IfOk result (λ h. ReadsHeader (view value.now) h) }
        ensures normal { IfOk result IsNormal }
        ensures err { IfErr result (RefusesAs kind.Json
            ((h : Header) → ¬ ReadsHeader (view value.now) h)) }
    {
        // named for the proof
        let header = Header::read(alloc, value)?;
        Ok(header)
    }

    /// Returns the header that a JSON text describes, as [`from_value`](Header::from_value) reads
    /// it. Bytes that are not JSON, or that nest deeper than 127 levels, are refused with `Json`
    /// too.
    pub fn from_slice(alloc: Global, text: &[u8]) -> Result<Header>
        ensures ok { IfOk result (ReadsText ReadsHeader text.now) }
        ensures normal { IfOk result IsNormal }
        ensures err { IfErr result (RefusesAs kind.Json
            ((h : Header) → ¬ ReadsText ReadsHeader text.now h)) }
    {
        let value = json_value(alloc, text)?;
        Header::from_value(alloc, &value)
    }

    /// Returns the JSON object of the members that are present and the extras. A `jwk` that cannot
    /// be written is refused with `Json`.
    pub fn to_value(&self, alloc: Global) -> Result<Value>
        ensures ok { IfOk result (λ v. header_value self.now ≡ Some (view v)) }
        ensures no_float { IfOk result (λ v. has_float (view v) ≡ false) }
        ensures err { IfErr result (RefusesAs kind.Json (header_value self.now ≡ None)) }
        ensures normal_form { HasNormalForm self.now }
    {
        let members = self.members(alloc)?;
        Ok(Value::Object(members))
    }

    /// Returns the compact JSON text of the header, as [`to_value`](Header::to_value) writes it and
    /// with its refusals.
    pub fn to_text(&self, alloc: Global) -> Result<Vec<u8>>
        ensures ok { IfOk result (λ text. HasText ReadsHeader header_value normal_header self.now
            text.items) }
        ensures err { IfErr result (RefusesAs kind.Json (header_value self.now ≡ None)) }
    {
        let value = self.to_value(alloc)?;
        value_text(alloc, &value)
    }

    /// Returns the bytes of each certificate of `x5c`, in order, or `None` if there is no `x5c`. An
    /// entry that is not standard base64 with padding (RFC 4648 section 4) is refused with
    /// `Base64`.
    pub fn x5c_der(&self, alloc: Global) -> Result<Option<Vec<Vec<u8>>>>
        ensures ok { IfOk result (λ o. AreCertificates self.now.x5c
            (option_map (λ v. map (λ b. b.items) v.items) o)) }
        ensures err { IfErr result (RefusesAs kind.Base64
            ((o : Option (List (List ℕ))) → ¬ AreCertificates self.now.x5c o)) }
    {
        match &self.x5c {
            Some(texts) => {
                let certificates = certificate_bytes(alloc, texts.as_slice())?;
                Ok(Some(certificates))
            }
            None => Ok(None),
        }
    }

    /// Returns a copy. The only refusal is `OutOfMemory`.
    pub fn clone(&self, alloc: Global) -> Result<Header>
        ensures ok { IfOk result (λ h. h ≡ self.now) }
        ensures err { IfErr result IsMemory }
    {
        Ok(Header {
            alg: self.alg,
            typ: clone_option(alloc, &self.typ)?,
            cty: clone_option(alloc, &self.cty)?,
            jku: clone_option(alloc, &self.jku)?,
            jwk: clone_option(alloc, &self.jwk)?,
            kid: clone_option(alloc, &self.kid)?,
            x5u: clone_option(alloc, &self.x5u)?,
            x5t: clone_option(alloc, &self.x5t)?,
            x5t_s256: clone_option(alloc, &self.x5t_s256)?,
            url: clone_option(alloc, &self.url)?,
            nonce: clone_option(alloc, &self.nonce)?,
            x5c: clone_option(alloc, &self.x5c)?,
            crit: clone_option(alloc, &self.crit)?,
            enc: clone_option(alloc, &self.enc)?,
            zip: clone_option(alloc, &self.zip)?,
            extras: self.extras.clone(alloc)?,
        })
    }

    fn read(alloc: Global, value: &Value) -> Result<Header>
        ensures ok { IfOk result (λ h. ReadsHeader (view value.now) h) }
        ensures extras { IfOk result (λ h. IsExtras h.extras) }
        ensures err { IfErr result (RefusesAs kind.Json
            ((h : Header) → ¬ ReadsHeader (view value.now) h)) }
    {
        let Some(members) = value.as_object() else {
            return Err(new_error(ErrorKind::Json));
        };
        Ok(Header {
            alg: read_algorithm(value)?,
            typ: optional_text(alloc, value, "typ")?,
            cty: optional_text(alloc, value, "cty")?,
            jku: optional_text(alloc, value, "jku")?,
            jwk: optional_jwk(alloc, value)?,
            kid: optional_text(alloc, value, "kid")?,
            x5u: optional_text(alloc, value, "x5u")?,
            x5t: optional_text(alloc, value, "x5t")?,
            x5t_s256: optional_text(alloc, value, "x5t#S256")?,
            url: optional_text(alloc, value, "url")?,
            nonce: optional_text(alloc, value, "nonce")?,
            x5c: optional_texts(alloc, value, "x5c")?,
            crit: optional_texts(alloc, value, "crit")?,
            enc: optional_enc(alloc, value)?,
            zip: optional_zip(alloc, value)?,
            extras: Extras::among(alloc, members)?,
        })
    }

    fn members(&self, alloc: Global) -> Result<Map<String, Value>>
        ensures ok { IfOk result (λ m. header_members self.now ≡ Some (members_view m.entries)) }
        ensures extras { IsExtras self.now.extras }
        ensures err { IfErr result (RefusesAs kind.Json (header_members self.now ≡ None)) }
    {
        let mut members = self.extras.copy_members()?;
        let jwk = written_jwk(alloc, &self.jwk)?;
        put_written(alloc, &mut members, "jwk", jwk)?;
        self.put_named(alloc, &mut members)?;
        Ok(members)
    }

    // Puts the members with a field of their own, except for the key.
    fn put_named(&self, alloc: Global, members: &mut Map<String, Value>) -> Result<()>
        ensures ok { OnOk result (members_view members.new.entries
            ≡ with_named self.now (members_view members.old.entries)) }
        ensures err { IfErr result IsMemory }
    {
        put_zip(alloc, members, &self.zip)?;
        put_enc(alloc, members, &self.enc)?;
        put_optional_texts(alloc, members, "crit", &self.crit)?;
        put_optional_texts(alloc, members, "x5c", &self.x5c)?;
        put_optional_text(alloc, members, "nonce", &self.nonce)?;
        put_optional_text(alloc, members, "url", &self.url)?;
        put_optional_text(alloc, members, "x5t#S256", &self.x5t_s256)?;
        put_optional_text(alloc, members, "x5t", &self.x5t)?;
        put_optional_text(alloc, members, "x5u", &self.x5u)?;
        put_optional_text(alloc, members, "kid", &self.kid)?;
        put_optional_text(alloc, members, "jku", &self.jku)?;
        put_optional_text(alloc, members, "cty", &self.cty)?;
        put_optional_text(alloc, members, "typ", &self.typ)?;
        put_text(alloc, members, "alg", self.alg.name())?;
        Ok(())
    }
}

/// Compares the fields. Any two floats among the extras and the members of `jwk` count as equal.
impl PartialEq for Header {
    ghost use Rattle.std.specs.Cmp.{partial_equiv_from_equiv};
    ghost use Rattle.jwt_header.specs.Header.{marked_header};
    ghost use Rattle.jwt_header.specs.equality.HeaderSame.{header_eq, header_eq_equiv};

    ghost eq = { header_eq };

    ghost laws = { partial_equiv_from_equiv header_eq_equiv };

    fn eq(&self, other: &Header) -> bool
        ensures test { result ≡ header_eq self.now other.now }
        ensures same { IsTrue result ↔ (marked_header self.now ≡ marked_header other.now) }
    {
        self.is_same(other)
    }
}

impl Eq for Header {
    ghost use Rattle.jwt_header.specs.equality.HeaderSame.{header_eq_equiv};

    ghost laws = { header_eq_equiv };
}

impl Header {
    ghost use Rattle.jwt_header.specs.equality.HeaderSame.{header_eq};

    // apart from `eq`, whose contract has two clauses over what this one finds
    fn is_same(&self, other: &Header) -> bool
        ensures { result ≡ header_eq self.now other.now }
    {
        self.alg == other.alg
            && self.typ == other.typ
            && self.cty == other.cty
            && self.jku == other.jku
            && self.jwk == other.jwk
            && self.kid == other.kid
            && self.x5u == other.x5u
            && self.x5t == other.x5t
            && self.x5t_s256 == other.x5t_s256
            && self.url == other.url
            && self.nonce == other.nonce
            && self.x5c == other.x5c
            && self.crit == other.crit
            && self.enc == other.enc
            && self.zip == other.zip
            && self.extras == other.extras
    }
}

/// Feeds the fields, and of free members their names alone.
impl Hash for Header {
    ghost use Rattle.jwt_header.specs.equality.HeaderSame.{header_fed, header_alike};

    ghost hash_input = { header_fed };

    ghost respects_eq = { header_alike.fed };

    fn hash<H: Hasher>(&self, state: &mut H) {
        self.alg.hash(state);
        self.typ.hash(state);
        self.cty.hash(state);
        self.jku.hash(state);
        self.jwk.hash(state);
        self.kid.hash(state);
        self.x5u.hash(state);
        self.x5t.hash(state);
        self.x5t_s256.hash(state);
        self.url.hash(state);
        self.nonce.hash(state);
        self.x5c.hash(state);
        self.crit.hash(state);
        self.enc.hash(state);
        self.zip.hash(state);
        self.extras.hash(state);
    }
}

fn read_algorithm(value: &Value) -> Result<Algorithm>
    ensures ok { IfOk result (λ a. option_and_then algorithm_from
        (get (codes "alg") (view value.now)) ≡ Some a) }
    ensures err { IfErr result (RefusesAs kind.Json
        (option_and_then algorithm_from (get (codes "alg") (view value.now)) ≡ None)) }
{
    match value.get("alg") {
        Some(name) => Algorithm::from_value(name),
        None => Err(new_error(ErrorKind::Json)),
    }
}

fn optional_jwk(alloc: Global, value: &Value) -> Result<Option<Jwk>>
    ensures ok { IfOk result (ReadsOptional ReadsKey (get (codes "jwk") (view value.now))) }
    ensures err { IfErr result (RefusesAs kind.Json
        ((k : Option Jwk) → ¬ ReadsOptional ReadsKey (get (codes "jwk") (view value.now)) k)) }
{
    match present(value, "jwk") {
        None => Ok(None),
        Some(jwk) => Ok(Some(Jwk::from_value(alloc, jwk)?)),
    }
}

fn optional_enc(alloc: Global, value: &Value) -> Result<Option<Enc>>
    ensures ok { IfOk result (λ e. optional enc_from (get (codes "enc") (view value.now))
        ≡ Some e) }
    ensures err { IfErr result
        (RefusesAs kind.Json (optional enc_from (get (codes "enc") (view value.now)) ≡ None)) }
{
    match present(value, "enc") {
        None => Ok(None),
        Some(enc) => Ok(Some(Enc::from_value(alloc, enc)?)),
    }
}

fn optional_zip(alloc: Global, value: &Value) -> Result<Option<Zip>>
    ensures ok { IfOk result (λ z. optional zip_from (get (codes "zip") (view value.now))
        ≡ Some z) }
    ensures err { IfErr result
        (RefusesAs kind.Json (optional zip_from (get (codes "zip") (view value.now)) ≡ None)) }
{
    match present(value, "zip") {
        None => Ok(None),
        Some(zip) => Ok(Some(Zip::from_value(alloc, zip)?)),
    }
}

// Returns the value that the key is written as, if there is one.
fn written_jwk(alloc: Global, jwk: &Option<Jwk>) -> Result<Option<Value>>
    ensures ok { IfOk result (λ v. written_optional key_value jwk.now ≡ Some (option_map view v)) }
    ensures err { IfErr result (RefusesAs kind.Json (written_optional key_value jwk.now ≡ None)) }
{
    match jwk {
        Some(jwk) => {
            let value = jwk.to_value(alloc)?;
            Ok(Some(value))
        }
        None => Ok(None),
    }
}

fn put_written(
    alloc: Global,
    members: &mut Map<String, Value>,
    name: &str,
    value: Option<Value>,
) -> Result<()>
    ensures ok { OnOk result (members_view members.new.entries
        ≡ put_some name.now (option_map view value) (members_view members.old.entries)) }
    ensures err { IfErr result IsMemory }
{
    match value {
        Some(value) => {
            serde_json::put(members, alloc, name, value)?;
            Ok(())
        }
        None => Ok(()),
    }
}

fn put_zip(alloc: Global, members: &mut Map<String, Value>, zip: &Option<Zip>) -> Result<()>
    ensures ok { OnOk result (members_view members.new.entries
        ≡ put_some (codes "zip") (option_map zip_value zip.now)
        (members_view members.old.entries)) }
    ensures err { IfErr result IsMemory }
{
    match zip {
        Some(zip) => put_text(alloc, members, "zip", zip.as_str()),
        None => Ok(()),
    }
}

fn put_enc(alloc: Global, members: &mut Map<String, Value>, enc: &Option<Enc>) -> Result<()>
    ensures ok { OnOk result (members_view members.new.entries
        ≡ put_some (codes "enc") (option_map enc_value enc.now)
        (members_view members.old.entries)) }
    ensures err { IfErr result IsMemory }
{
    match enc {
        Some(enc) => put_text(alloc, members, "enc", enc.as_str()),
        None => Ok(()),
    }
}
