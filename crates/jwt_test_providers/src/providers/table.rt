//! A provider that looks signatures up in a table.

ghost use Rattle.std.specs.Prelude.{◌≡◌, ℕ, List, Option, Ok, None, Some, IfOk, IfErr, option_map};
ghost use Rattle.std.specs.Prelude.{codes};
ghost use Rattle.jwt_base.specs.Kind as kind;
ghost use Rattle.jwt_base.specs.KindOf.{IsMemory, Refuses};
ghost use Rattle.jwt_base.specs.Algorithm.{family_of};
ghost use Rattle.jwt_keys.specs.Provider.{RefusesWith};
ghost use Rattle.jwt_crypto.specs.Hmac.{hash_bytes};
ghost use Rattle.jwt_crypto.specs.HmacKeys.{hash_named};
ghost use Rattle.jwt_keys.specs.FamilyRefusal.{family_refusal};
ghost use Rattle.jwt_test_providers.specs.law_proofs.Families.{bytes_refusal_of, bytes_made};
ghost use Rattle.jwt_test_providers.specs.Table.{Entry, is_of, is_signed, HasRow, Accepts};
ghost use Rattle.jwt_test_providers.specs.Table.{first_signature, no_row, rsa_answer, ec_answer};
ghost use Rattle.jwt_test_providers.specs.Table.{ed_answer};
ghost use Rattle.std.specs.List.{list_any};

use jwt_base::algorithms::Algorithm;
use jwt_base::errors::{Error, ErrorKind, Result, new_error};
use jwt_crypto::HmacProvider;
use jwt_keys::decoding_key::DecodingKey;
use jwt_keys::encoding_key::EncodingKey;
use jwt_keys::provider::{CryptoProvider, JwtSigner, JwtVerifier};
use jwt_params::curves::EllipticCurve;
use jwt_params::thumbprints::ThumbprintHash;
use std::alloc::Global;
use std::marker::Model;

/// A row of the table: this signature of this message, by an algorithm and the bytes of a key.
#[derive(Debug, Drop)]
pub struct Row {
    algorithm: Algorithm,
    key: Vec<u8>,
    message: Vec<u8>,
    signature: Vec<u8>,
}

impl Model for Row {
    ghost use Rattle.jwt_test_providers.specs.Table.{Entry};

    ghost Value = { Entry };

    ghost view = { λ r. record {
      algorithm = r.algorithm;
      key = r.key.items;
      message = r.message.items;
      signature = r.signature.items;
    } };
}

impl Row {
    /// Returns a row of copies of these. The only refusal is `OutOfMemory`.
    pub fn new(
        alloc: Global,
        algorithm: Algorithm,
        key: &[u8],
        message: &[u8],
        signature: &[u8],
    ) -> Result<Row>
        ensures ok { IfOk result (λ r. r ≡ record {
          algorithm = algorithm;
          key = key.now;
          message = message.now;
          signature = signature.now;
        }) }
        ensures err { IfErr result IsMemory }
    {
        Ok(Row {
            algorithm,
            key: key.to_vec(alloc)?,
            message: message.to_vec(alloc)?,
            signature: signature.to_vec(alloc)?,
        })
    }

    /// Returns a copy. The only refusal is `OutOfMemory`.
    pub fn clone(&self, alloc: Global) -> Result<Row>
        ensures ok { IfOk result (λ r. r ≡ self.now) }
        ensures err { IfErr result IsMemory }
    {
        Row::new(
            alloc,
            self.algorithm,
            self.key.as_slice(),
            self.message.as_slice(),
            self.signature.as_slice(),
        )
    }

    fn is_of(&self, algorithm: Algorithm, key: &[u8], message: &[u8]) -> bool
        ensures { result ≡ is_of algorithm key.now message.now self.now }
    {
        self.algorithm.name() == algorithm.name()
            && self.key.as_slice() == key
            && self.message.as_slice() == message
    }

    fn is_signed(&self, algorithm: Algorithm, key: &[u8], message: &[u8], signature: &[u8]) -> bool
        ensures { result ≡ is_signed algorithm key.now message.now signature.now self.now }
    {
        self.is_of(algorithm, key, message) && self.signature.as_slice() == signature
    }

    fn signature(&self) -> &[u8]
        ensures { result.now ≡ self.now.signature }
    {
        self.signature.as_slice()
    }
}

// The rows of one algorithm and key stay in the whole table, which a signer or a verifier copies.
#[derive(Debug, Drop)]
struct Rows {
    algorithm: Algorithm,
    key: Vec<u8>,
    rows: Vec<Row>,
}

impl Rows {
    fn new(alloc: Global, algorithm: Algorithm, key: &[u8], rows: &[Row]) -> Result<Rows>
        ensures algorithm { IfOk result (λ r. r.algorithm ≡ algorithm) }
        ensures key { IfOk result (λ r. r.key.items ≡ key.now) }
        ensures rows { IfOk result (λ r. r.rows.items ≡ rows.now) }
        ensures err { IfErr result IsMemory }
    {
        Ok(Rows {
            algorithm,
            key: key.to_vec(alloc)?,
            rows: copy_rows(alloc, rows)?,
        })
    }

    fn has(&self, message: &[u8], signature: &[u8]) -> bool
        ensures { result ≡ list_any (is_signed self.now.algorithm self.now.key.items message.now
            signature.now) self.now.rows.items }
    {
        self.rows.iter().any(|row| row.is_signed(
            self.algorithm,
            self.key.as_slice(),
            message,
            signature,
        ))
    }

    fn first(&self, message: &[u8]) -> Option<&Row>
        ensures { option_map (λ row. row.now.signature) result
            ≡ first_signature self.now.rows.items self.now.algorithm self.now.key.items
            message.now }
    {
        self.rows.iter().find(|row| row.is_of(self.algorithm, self.key.as_slice(), message))
    }
}

/// A signer that returns the signature of the first row of its algorithm and key for the message; a
/// message that is in no such row is refused with `Signing("no row")`.
#[derive(Debug, Drop)]
pub struct TableSigner {
    rows: Rows,
}

impl JwtSigner for TableSigner {
    ghost signs_by = { λ s. s.rows.algorithm };

    ghost sign_refusal = { λ s m. no_row
        (first_signature s.rows.rows.items s.rows.algorithm s.rows.key.items m) };

    ghost signs = { λ s m b. first_signature s.rows.rows.items s.rows.algorithm s.rows.key.items m
        ≡ Some b };

    fn algorithm(&self) -> Algorithm {
        self.rows.algorithm
    }

    fn sign(&self, alloc: Global, message: &[u8]) -> Result<Vec<u8>> {
        let Some(row) = self.rows.first(message) else {
            let reason = String::from_str(alloc, "no row")?;
            return Err(new_error(ErrorKind::Signing(reason)));
        };
        Ok(row.signature().to_vec(alloc)?)
    }
}

/// A verifier that accepts a signature of a message if a row of its algorithm and key has both.
#[derive(Debug, Drop)]
pub struct TableVerifier {
    rows: Rows,
}

impl JwtVerifier for TableVerifier {
    ghost verifies_by = { λ v. v.rows.algorithm };

    ghost accepts = { λ v m s. HasRow v.rows.rows.items v.rows.algorithm v.rows.key.items m s };

    ghost is_sparing = { λ _. ⊥ };

    fn algorithm(&self) -> Algorithm {
        self.rows.algorithm
    }

    fn verify(&self, _alloc: Global, message: &[u8], signature: &[u8]) -> Result<bool> {
        Ok(self.rows.has(message, signature))
    }
}

/// A provider that looks signatures up in a table. A key of components, or of another family than
/// the algorithm's, is refused with `InvalidKeyFormat`. Its digests are those of SHA-2.
#[derive(Debug, Drop)]
pub struct TableProvider {
    rows: Vec<Row>,
}

impl TableProvider {
    /// Returns the provider of this table.
    pub fn new(rows: Vec<Row>) -> TableProvider
        ensures { result.rows ≡ rows }
    {
        TableProvider { rows }
    }
}

impl CryptoProvider for TableProvider {
    type Signer = TableSigner;

    type Verifier = TableVerifier;

    ghost signer_refusal = { λ _ a k. family_refusal k.family (family_of a) };

    ghost verifier_refusal = { λ _ a k. bytes_refusal_of a k };

    ghost sign_refusal = { λ p a k m. no_row (first_signature p.rows.items a k.bytes m) };

    ghost signs = { λ p a k m s. first_signature p.rows.items a k.bytes m ≡ Some s };

    ghost accepts = { λ p a k m s. Accepts p.rows.items a k m s };

    ghost is_sparing = { λ _. ⊥ };

    ghost key_answers = { λ _. record {
      rsa_private = rsa_answer;
      rsa_public = rsa_answer;
      ec_private = ec_answer;
      ed_private = ed_answer;
      digest = λ h bytes. Ok (hash_bytes (hash_named h) bytes);
    } };

    fn signer_factory(
        &self,
        alloc: Global,
        algorithm: &Algorithm,
        key: &EncodingKey,
    ) -> Result<TableSigner> {
        if algorithm.family() != key.family() {
            return Err(new_error(ErrorKind::InvalidKeyFormat));
        }
        let rows = Rows::new(alloc, *algorithm, key.as_bytes(), self.rows.as_slice())?;
        Ok(TableSigner { rows })
    }

    fn verifier_factory(
        &self,
        alloc: Global,
        algorithm: &Algorithm,
        key: &DecodingKey,
    ) -> Result<TableVerifier> {
        if key.family() != algorithm.family() {
            return Err(new_error(ErrorKind::InvalidKeyFormat));
        }
        let bytes = key.try_get_as_bytes()?;
        let rows = Rows::new(alloc, *algorithm, bytes, self.rows.as_slice())?;
        Ok(TableVerifier { rows })
    }

    fn rsa_pub_components_from_private_key(
        &self,
        alloc: Global,
        der: &[u8],
    ) -> Result<(Vec<u8>, Vec<u8>)> {
        rsa_components(alloc, der)
    }

    fn rsa_pub_components_from_public_key(
        &self,
        alloc: Global,
        der: &[u8],
    ) -> Result<(Vec<u8>, Vec<u8>)> {
        rsa_components(alloc, der)
    }

    fn ec_pub_components_from_private_key(
        &self,
        alloc: Global,
        der: &[u8],
        algorithm: Algorithm,
    ) -> Result<(EllipticCurve, Vec<u8>, Vec<u8>)> {
        if der != b"ec".as_slice() || algorithm.name() != "ES256" {
            return Err(new_error(ErrorKind::InvalidEcdsaKey));
        }
        let x = [1].to_vec(alloc)?;
        let y = [2].to_vec(alloc)?;
        Ok((EllipticCurve::P256, x, y))
    }

    fn ed_pub_components_from_private_key(
        &self,
        alloc: Global,
        der: &[u8],
        curve: &EllipticCurve,
    ) -> Result<Vec<u8>> {
        match curve {
            EllipticCurve::Ed25519 if der.len() < 32 => Err(new_error(ErrorKind::InvalidEddsaKey)),
            EllipticCurve::Ed25519 => Ok(der[der.len() - 32..].to_vec(alloc)?),
            _ => Err(new_error(ErrorKind::InvalidAlgorithm)),
        }
    }

    fn compute_digest(&self, alloc: Global, bytes: &[u8], hash: ThumbprintHash) -> Result<Vec<u8>> {
        HmacProvider.compute_digest(alloc, bytes, hash)
    }

    ghost same_family = { λ _ a k h. bytes_made a k h };
}

fn copy_rows(alloc: Global, rows: &[Row]) -> Result<Vec<Row>>
    ensures ok { IfOk result (λ v. v.items ≡ rows.now) }
    ensures err { IfErr result IsMemory }
{
    let mut copies = Vec::new(alloc);
    for row in rows {
        copies.push(row.clone(alloc)?)?;
    }
    Ok(copies)
}

fn rsa_components(alloc: Global, der: &[u8]) -> Result<(Vec<u8>, Vec<u8>)>
    ensures ok { IfOk result (λ p. rsa_answer der.now ≡ Ok (p.0.items, p.1.items)) }
    ensures err { IfErr result (RefusesWith (rsa_answer der.now)) }
{
    if der != b"rsa".as_slice() {
        return Err(no_rsa_row(alloc));
    }
    let n = [0xC0, 0xFF, 0xEE].to_vec(alloc)?;
    let e = [1, 0, 1].to_vec(alloc)?;
    Ok((n, e))
}

// Returns the error `InvalidRsaKey("no row")`, or `OutOfMemory`.
fn no_rsa_row(alloc: Global) -> Error
    ensures { Refuses (Some (kind.InvalidRsaKey (codes "no row"))) result }
{
    match String::from_str(alloc, "no row") {
        Ok(reason) => new_error(ErrorKind::InvalidRsaKey(reason)),
        Err(refused) => Error::from(refused),
    }
}
