//! The keys that a token is verified with, from their files.

// A secret's file is taken as it is, unless `--trim` says otherwise: a final newline may be part of
// a secret. The message about a wrong signature names the newline.

ghost use Rattle.std.specs.Prelude.{◌≡◌, ◌⊎◌, ◌↔◌, ℕ, List, [], None, IfOk, IfErr};
ghost use Rattle.std.specs.Prelude.{IsTrue};
ghost use Rattle.jwt_base.specs.JsonText.{ReadsText};
ghost use Rattle.jwt_base.specs.Kind.{Kind};
ghost use Rattle.jwt_base.specs.KindOf.{IsMemory};
ghost use Rattle.jwt_base.specs.declared.algorithms.AlgorithmFamily.TheVariants.{Hmac};
ghost use Rattle.jwt_key_files.specs.PemKeys.{IsPemOf, IsPemRefused};
ghost use Rattle.jwt_keys.specs.Jwk.{ReadsKey};
ghost use Rattle.jwt_keys.specs.Key.{Key, Plain};
ghost use Rattle.jwt_keys.specs.KeyOfJwk.{IsKeyOf};
ghost use Rattle.jwt_keys.specs.declared.jwk.Jwk.{Jwk};
ghost use Rattle.jwt_secrets.specs.Blank.{IsBlankKey, IsBlankJwk};
ghost use Rattle.jwt_key_items.specs.KeyItems.{ReadsItems, kept_of};
ghost use Rattle.jwt_key_items.specs.declared.Item.{Item};
ghost use Rattle.jwt_secrets.specs.KeyTexts.{IsKeyText};
ghost use Rattle.jsonwebtoken.specs.Own.{own_of};
ghost use Rattle.jwt_command.specs.LineEnd.{IsSecret};
ghost use Rattle.jwt_command.specs.FileKeys.{AreLoaded, HasKeysFault, IsKeptSet, IsTaken, IsNotTaken};

pub(crate) mod jwk;
pub(crate) mod table;
pub(crate) mod thumbprint;

use crate::files::strip_line_end;
use jsonwebtoken::errors::{Error, ErrorKind};
use jsonwebtoken::jwk::{Jwk, JwkSet, own_algorithm};
use jsonwebtoken::{Algorithm, DecodingKey};
use jwt_findings::{key_problem, pem_problem, set_problem};
use jwt_key_files::pem::public_key_from_pem;
use jwt_key_items::KeyItems;
use jwt_requests::{Fault, KeyFile, SecretFile, fault_of};
use jwt_secrets::key_texts::is_key_text;
use jwt_secrets::{is_blank, is_blank_key};
use jwt_verifier::{KeyRing, Keys};
use std::alloc::Global;

/// Keys, with what their file says of them.
#[derive(Drop)]
pub struct LoadedKeys {
    pub keys: KeyRing,
    /// The algorithm that the one key is for.
    pub own: Option<Algorithm>,
    /// Whether the secret ends with a newline.
    pub has_line_end: bool,
    /// How many items of the set are skipped.
    pub skipped: usize,
}

/// What keys are prepared for.
#[derive(Clone, Copy)]
pub struct Preparation<'a> {
    /// The algorithms that are accepted. If the list is empty, those that the keys are for are.
    pub algorithms: &'a [Algorithm],
    /// The greatest number of bytes of prepared keys.
    pub bytes: usize,
}

/// Returns whether the keys may name the algorithm of a token: one key by its own `alg`, and a set
/// by that of the key which the token names.
pub fn names_algorithm(loaded: &LoadedKeys) -> bool {
    match loaded.keys.keys() {
        Keys::One(_) => loaded.own.is_some(),
        Keys::Set(_) => true,
    }
}

/// Returns the secret that a file holds, unless anyone can sign with it (RFC 2104 section 2, RFC 8725
/// sections 2.1 and 3.1).
pub fn given_secret<'a, 'b>(
    alloc: Global,
    file: SecretFile<'a>,
    bytes: &'b [u8],
) -> Result<&'b [u8], Fault<'a>>
    ensures ok { IfOk result (λ s. IsSecret file.entry.is_trimmed bytes.now s.now
        × IsTaken file.entry.allows_key s.now) }
    ensures err { IfErr result (λ e. (e ≡ Fault.Memory)
        ⊎ ((secret : List ℕ) × IsSecret file.entry.is_trimmed bytes.now secret
        × IsNotTaken file.entry.allows_key secret)) }
{
    let secret = secret(bytes, file.is_trimmed);
    if is_blank(secret) {
        return Err(Fault::File {
            path: file.path,
            problem: blank_problem(secret),
        });
    }
    if file.allows_key {
        return Ok(secret);
    }
    if holds_key(alloc, secret)? {
        return Err(Fault::File {
            path: file.path,
            problem: KEY_TEXT,
        });
    }
    Ok(secret)
}

/// Returns the fault of a file that is no public key in PEM, unless memory ran out.
pub fn not_pem<'a>(path: &'a str, error: &Error, bytes: &[u8]) -> Fault<'a>
    ensures { IsMemory error.now → result ≡ Fault.Memory }
{
    let problem = match error.kind() {
        ErrorKind::UnsupportedAlgorithm =>
            "this public key is of a kind that verifies nothing here",
        ErrorKind::Provider(_) => "this is a private key; a public key is wanted",
        _ => pem_problem(bytes, "this is not a public key in PEM"),
    };
    fault_of(error, Fault::File { path, problem })
}

/// Returns the keys that the bytes of a file hold, prepared.
pub fn load<'a>(
    alloc: Global,
    file: KeyFile<'a>,
    bytes: &[u8],
    preparation: Preparation<'_>,
) -> Result<LoadedKeys, Fault<'a>>
    ensures ok { IfOk result (λ l. AreLoaded file.entry bytes.now l.keys.keys l.own) }
    ensures err { IfErr result (λ e. (e ≡ Fault.Memory) ⊎ HasKeysFault file.entry bytes.now) }
{
    match file {
        KeyFile::Secret(file) => load_secret(alloc, file, bytes, preparation),
        KeyFile::Jwk(path) => load_jwk(alloc, path, bytes, preparation),
        KeyFile::Jwks(path) => load_set(alloc, path, bytes, preparation),
        KeyFile::Pem(path) => load_pem(alloc, path, bytes, preparation),
    }
}

/// Returns the secret that a file holds.
fn secret(bytes: &[u8], is_trimmed: bool) -> &[u8]
    ensures { IsSecret is_trimmed bytes.now result.now }
{
    if is_trimmed {
        strip_line_end(bytes)
    } else {
        bytes
    }
}

/// Returns whether a secret is the text of a key of another kind.
fn holds_key(alloc: Global, secret: &[u8]) -> Result<bool, Fault<'static>>
    ensures ok { IfOk result (λ is. IsTrue is ↔ IsKeyText secret.now) }
    ensures err { IfErr result (λ e. e ≡ Fault.Memory) }
{
    match is_key_text(alloc, secret) {
        Ok(is) => Ok(is),
        Err(_) => Err(Fault::Memory),
    }
}

/// The problem of a secret that is the text of a key of another kind.
const KEY_TEXT: &str =
    "this is the text of a key, and with that of a public key anyone can sign; --pem, --jwk and --jwks read keys";

/// Returns the problem of a secret of zeros.
fn blank_problem(secret: &[u8]) -> &'static str {
    if secret.is_empty() {
        "the secret is empty"
    } else {
        "anyone can sign with this secret"
    }
}

fn load_secret<'a>(
    alloc: Global,
    file: SecretFile<'a>,
    bytes: &[u8],
    preparation: Preparation<'_>,
) -> Result<LoadedKeys, Fault<'a>>
    ensures ok { IfOk result (λ l. (secret : List ℕ)
        × IsSecret file.entry.is_trimmed bytes.now secret
        × IsTaken file.entry.allows_key secret
        × (l.keys.keys ≡ Keys.One (Plain Hmac secret)) × (l.own ≡ None)) }
    ensures err { IfErr result (λ e. (e ≡ Fault.Memory)
        ⊎ ((secret : List ℕ) × IsSecret file.entry.is_trimmed bytes.now secret
        × IsNotTaken file.entry.allows_key secret)) }
{
    let secret = given_secret(alloc, file, bytes)?;
    match DecodingKey::from_secret(alloc, secret) {
        Ok(key) => {
            let has_line_end = secret.ends_with(b"\n");
            loaded_keys(alloc, Keys::One(key), None, has_line_end, preparation)
        }
        Err(_) => Err(Fault::Memory),
    }
}

fn load_jwk<'a>(
    alloc: Global,
    path: &'a str,
    bytes: &[u8],
    preparation: Preparation<'_>,
) -> Result<LoadedKeys, Fault<'a>>
    ensures ok { IfOk result (λ l. (jwk : Jwk) × ReadsText ReadsKey bytes.now jwk
        × ((key : Key) × IsKeyOf jwk.algorithm key × (¬ IsBlankKey key)
        × (l.keys.keys ≡ Keys.One key) × (l.own ≡ own_of jwk))) }
    ensures err { IfErr result (λ e. (e ≡ Fault.Memory)
        ⊎ (((jwk : Jwk) → ¬ ReadsText ReadsKey bytes.now jwk)
        ⊎ (((jwk : Jwk) × ReadsText ReadsKey bytes.now jwk
        × ((key : Key) → ¬ IsKeyOf jwk.algorithm key))
        ⊎ ((jwk : Jwk) × ReadsText ReadsKey bytes.now jwk × IsBlankJwk jwk)))) }
{
    let jwk = match Jwk::from_slice(alloc, bytes) {
        Ok(jwk) => jwk,
        Err(error) => {
            let problem = key_problem(bytes, "this is not a JSON Web Key");
            return Err(fault_of(&error, Fault::File { path, problem }));
        }
    };
    let own = own_algorithm(&jwk);
    let read = DecodingKey::from_jwk(alloc, &jwk);
    // one drop
    drop(jwk);
    match read {
        Ok(key) => accept_key(alloc, path, key, own, preparation),
        Err(error) => {
            let problem = key_problem(bytes, "this key cannot verify signatures");
            Err(fault_of(&error, Fault::File { path, problem }))
        }
    }
}

/// Returns the keys that are this one, which is for this algorithm, unless anyone can sign for it.
fn accept_key<'a>(
    alloc: Global,
    path: &'a str,
    key: DecodingKey,
    own: Option<Algorithm>,
    preparation: Preparation<'_>,
) -> Result<LoadedKeys, Fault<'a>>
    ensures ok { IfOk result (λ l. (¬ IsBlankKey key) × (l.keys.keys ≡ Keys.One key) × (l.own ≡ own)) }
    ensures err { IfErr result (λ e. (e ≡ Fault.Memory) ⊎ IsBlankKey key) }
{
    if is_blank_key(&key) {
        return Err(Fault::File {
            path,
            problem: "anyone can sign with this key",
        });
    }
    loaded_keys(alloc, Keys::One(key), own, false, preparation)
}

fn load_set<'a>(
    alloc: Global,
    path: &'a str,
    bytes: &[u8],
    preparation: Preparation<'_>,
) -> Result<LoadedKeys, Fault<'a>>
    ensures ok { IfOk result (λ l. (items : List Item) × ReadsText ReadsItems bytes.now items
        × IsKeptSet items l.keys.keys × (l.own ≡ None)) }
    ensures err { IfErr result (λ e. (e ≡ Fault.Memory)
        ⊎ (((items : List Item) → ¬ ReadsText ReadsItems bytes.now items)
        ⊎ ((items : List Item) × ReadsText ReadsItems bytes.now items × (kept_of items ≡ [])))) }
{
    match KeyItems::from_slice(alloc, bytes) {
        Ok(items) => accept_items(alloc, path, items, preparation),
        Err(error) => {
            let problem = set_problem(bytes);
            Err(fault_of(&error, Fault::File { path, problem }))
        }
    }
}

/// Returns the kept keys of a set, if there are any.
fn accept_items<'a>(
    alloc: Global,
    path: &'a str,
    items: KeyItems,
    preparation: Preparation<'_>,
) -> Result<LoadedKeys, Fault<'a>>
    ensures ok { IfOk result (λ l. IsKeptSet items.items.items l.keys.keys × (l.own ≡ None)) }
    ensures err { IfErr result (λ e. (e ≡ Fault.Memory) ⊎ (kept_of items.items.items ≡ [])) }
{
    let count = items.items.len();
    match items.kept(alloc) {
        Ok(set) => accept_set(alloc, path, set, count, preparation),
        Err(_) => Err(Fault::Memory),
    }
}

/// Returns the keys that are this set of so many items, if it has a key.
fn accept_set<'a>(
    alloc: Global,
    path: &'a str,
    set: JwkSet,
    count: usize,
    preparation: Preparation<'_>,
) -> Result<LoadedKeys, Fault<'a>>
    ensures ok { IfOk result (λ l. (l.keys.keys ≡ Keys.Set set) × (l.own ≡ None)) }
    ensures err { IfErr result (λ e. (e ≡ Fault.Memory) ⊎ (set.keys.items ≡ [])) }
{
    if set.keys.is_empty() {
        return Err(Fault::File {
            path,
            problem: NO_KEY,
        });
    }
    let skipped = count.saturating_sub(set.keys.len());
    let mut loaded = loaded_keys(alloc, Keys::Set(set), None, false, preparation)?;
    loaded.skipped = skipped;
    Ok(loaded)
}

/// The problem of a set without a usable key.
const NO_KEY: &str = "no item of this set is a usable key; 'jwt keys' shows why";

fn load_pem<'a>(
    alloc: Global,
    path: &'a str,
    bytes: &[u8],
    preparation: Preparation<'_>,
) -> Result<LoadedKeys, Fault<'a>>
    ensures ok { IfOk result (λ l. (key : Key) × IsPemOf bytes.now key
        × (l.keys.keys ≡ Keys.One key) × (l.own ≡ None)) }
    ensures err { IfErr result (λ e. (e ≡ Fault.Memory)
        ⊎ ((k : Kind) × IsPemRefused bytes.now k)) }
{
    match public_key_from_pem(alloc, bytes) {
        Ok(key) => loaded_keys(alloc, Keys::One(key), None, false, preparation),
        Err(error) => Err(not_pem(path, &error, bytes)),
    }
}

/// Returns these keys, prepared.
fn loaded_keys(
    alloc: Global,
    keys: Keys,
    own: Option<Algorithm>,
    has_line_end: bool,
    preparation: Preparation<'_>,
) -> Result<LoadedKeys, Fault<'static>>
    ensures ok { IfOk result (λ l. (l.keys.keys ≡ keys) × (l.own ≡ own)) }
    ensures err { IfErr result (λ e. e ≡ Fault.Memory) }
{
    let algorithms = if preparation.algorithms.is_empty() {
        own.as_slice()
    } else {
        preparation.algorithms
    };
    match KeyRing::new(alloc, keys, algorithms, preparation.bytes) {
        Ok(keys) => Ok(LoadedKeys {
            keys,
            own,
            has_line_end,
            skipped: 0,
        }),
        Err(_) => Err(Fault::Memory),
    }
}
