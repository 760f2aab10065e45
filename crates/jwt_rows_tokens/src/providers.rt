//! Providers of signatures: their signers and verifiers, the numbers and coordinates that they read
//! of keys, and their digests.

use jsonwebtoken::crypto::{CryptoProvider, JwtSigner, JwtVerifier};
use jsonwebtoken::jwk::{EllipticCurve, ThumbprintHash};
use jsonwebtoken::{DecodingKey, EncodingKey};
use jwt_rows::inputs::providers::two_of;
use jwt_rows::output::Verdict;
use jwt_rows::{Answer, Row};

/// Makes a signer, or makes one and then a call of it.
pub fn by_signer<P: CryptoProvider>(call: &str, row: &Row<'_>, provider: &P) -> Answer {
    let algorithm = row.algorithm("algorithm");
    let key = row.input::<EncodingKey>("key")?;
    if call == "CryptoProvider::signer_factory" {
        let alloc = row.begin();
        return match provider.signer_factory(alloc, &algorithm, &key) {
            Ok(signer) => row.give(&signer.algorithm()),
            Err(refusal) => row.refuse(&refusal),
        };
    }
    let signer = provider.signer_factory(row.alloc(), &algorithm, &key).ok()?;
    match call {
        "JwtSigner::sign" => sign(row, &signer),
        _ => {
            row.begin();
            row.give(&signer.algorithm())
        }
    }
}

/// Signs the message at `message`.
pub fn sign<S: JwtSigner>(row: &Row<'_>, signer: &S) -> Answer {
    let message = row.bytes("message");
    row.end(signer.sign(row.begin(), message.as_slice()))
}

/// Makes a verifier, or makes one and then a call of it.
pub fn by_verifier<P: CryptoProvider>(call: &str, row: &Row<'_>, provider: &P) -> Answer {
    let algorithm = row.algorithm("algorithm");
    let mut key = row.input::<DecodingKey>("key")?;
    if call == "CryptoProvider::verifier_factory" {
        let alloc = row.begin();
        return match provider.verifier_factory(alloc, &algorithm, &key) {
            Ok(verifier) => row.give(&verifier.algorithm()),
            Err(refusal) => row.refuse(&refusal),
        };
    }
    let verifier = provider
        .verifier_factory(row.alloc(), &algorithm, &key)
        .ok()?;
    match call {
        "JwtVerifier::verify" => verify(row, &verifier),
        "JwtVerifier::verify, each" => {
            key.zeroize();
            verify_each(row, &verifier)
        }
        _ => {
            row.begin();
            row.give(&verifier.algorithm())
        }
    }
}

/// Returns what the verifier says of each message and signature at `asked`, in turn.
pub fn verify_each<V: JwtVerifier>(row: &Row<'_>, verifier: &V) -> Answer {
    let alloc = row.alloc();
    let mut verdicts = Vec::new(alloc);
    for asked in row.list("asked") {
        let (message, signature) = two_of(alloc, asked)?;
        let verdict = verifier.verify(alloc, message.as_slice(), signature.as_slice());
        verdicts.push(verdict.ok()?).ok()?;
    }
    row.give(&verdicts)
}

/// Makes a call that reads a key in DER.
pub fn of_der<P: CryptoProvider>(method: &str, row: &Row<'_>, provider: &P) -> Answer {
    let der = row.bytes("der");
    let der = der.as_slice();
    match method {
        "rsa_pub_components_from_private_key" => {
            row.end(provider.rsa_pub_components_from_private_key(row.begin(), der))
        }
        "rsa_pub_components_from_public_key" => {
            row.end(provider.rsa_pub_components_from_public_key(row.begin(), der))
        }
        "ec_pub_components_from_private_key" => {
            let algorithm = row.algorithm("algorithm");
            row.end(provider.ec_pub_components_from_private_key(row.begin(), der, algorithm))
        }
        "ed_pub_components_from_private_key" => {
            let curve = row.read::<EllipticCurve>("curve")?;
            row.end(provider.ed_pub_components_from_private_key(row.begin(), der, &curve))
        }
        _ => None,
    }
}

/// Calls `compute_digest`.
pub fn digest<P: CryptoProvider>(row: &Row<'_>, provider: &P) -> Answer {
    let hash = row.read::<ThumbprintHash>("hash")?;
    let bytes = row.bytes("bytes");
    row.end(provider.compute_digest(row.begin(), bytes.as_slice(), hash))
}

fn verify<V: JwtVerifier>(row: &Row<'_>, verifier: &V) -> Answer {
    let message = row.bytes("message");
    let signature = row.bytes("signature");
    let alloc = row.begin();
    match verifier.verify(alloc, message.as_slice(), signature.as_slice()) {
        Ok(is_yes) => {
            let algorithm = verifier.algorithm();
            row.give(&Verdict { algorithm, is_yes })
        }
        Err(refusal) => row.refuse(&refusal),
    }
}
