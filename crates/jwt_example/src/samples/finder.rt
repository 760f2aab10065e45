//! Tokens that are verified with keys of a table.

ghost use Rattle.std.specs.Prelude.{◌≡◌, option_map};
ghost use Rattle.jwt_standard.specs.StandardKeys.{verifier_refusal, StandardAccepts};
ghost use Rattle.jwt_standard.specs.law_proofs.StandardFamilies.{family_made};
ghost use Rattle.jsonwebtoken.specs.Tests.{InSet, named_key};

use jsonwebtoken::crypto::CryptoProvider;
use jsonwebtoken::errors::Result as Checked;
use jsonwebtoken::jwk::{Jwk, JwkSet, key_for, own_algorithm};
use jsonwebtoken::{
    Algorithm, AlgorithmFamily, DecodingKey, Header, KeyFinder, Refusal, TokenData, Validation,
    decode_by,
};
use jwt_standard::{StandardProvider, StandardVerifier};
use serde_json::Value;
use std::alloc::Global;
use std::result::Result;

/// The keys of a service, in rows that have a `kid`.
#[derive(Drop)]
pub struct Table {
    pub rows: JwkSet,
}

impl Table {
    /// Returns the row of the key that a header names.
    fn row(&self, header: &Header) -> Option<&Jwk>
        ensures { named_key self.now.rows.keys.items header.now ≡ option_map (λ row. row.now) result }
    {
        let Some(kid) = &header.kid else {
            return None;
        };
        self.rows.find(kid.as_str())
    }
}

/// Returns the claims of a token, verified with the row that it names.
pub fn verify_with_table(alloc: Global, token: &[u8], table: &Table, time: u64) -> Checked<Value> {
    let mut validation = Validation::new_strict(alloc, Algorithm::RS256)?;
    validation.set_audience(alloc, &["my-service"])?;
    let TokenData { header, claims } = decode_by(alloc, table, token, &validation, time)?;
    drop(header);
    Ok(claims)
}

impl KeyFinder for Table {
    type Found = DecodingKey;

    type Verifier = StandardVerifier;

    // It stands for the set of its rows.
    ghost source = { λ table. InSet table.rows.keys.items };

    ghost key = { λ _ found. found };

    ghost refusal = { λ _. verifier_refusal };

    ghost accepts = { λ _ a k m s. StandardAccepts a k m s };

    fn find(&self, alloc: Global, header: &Header) -> Result<DecodingKey, Refusal> {
        key_for(alloc, self.row(header), header)
    }

    fn own_algorithm(&self, header: &Header) -> Option<Algorithm> {
        match self.row(header) {
            Some(row) => own_algorithm(row),
            None => None,
        }
    }

    fn family(&self, found: &DecodingKey) -> AlgorithmFamily {
        found.family()
    }

    fn verifier(
        &self,
        alloc: Global,
        algorithm: Algorithm,
        found: &DecodingKey,
    ) -> Checked<StandardVerifier> {
        StandardProvider.verifier_factory(alloc, &algorithm, found)
    }

    ghost same_family = { λ _ a k h. family_made a k h };
}
