//! Findings: the contents of a token and those that a failed test asks for.

use crate::attempts::value_unless_refused;
use crate::checked::{CheckedKeys, CheckedToken};
use crate::claim_findings::claim_findings;
use crate::part_findings::{
    Parts, altered_finding, is_of_base64url, part_finding, split_parts, text_finding,
};
use crate::signature_findings::length_finding;
use jsonwebtoken::jwk::JwkSet;
use jsonwebtoken::{
    Algorithm, AlgorithmFamily, Header, Refusal, Test, Text, Validation, decode_header,
};
use jwt_base::serialization::{json_value, part_bytes};
use serde_json::Value;
use std::alloc::{AllocError, Global};

/// The contents that a test found, and those that it asks for.
#[derive(Drop)]
pub struct Finding {
    pub found: String,
    pub wanted: String,
}

impl Finding {
    /// Returns the finding of these two sentences.
    pub fn new(alloc: Global, found: &str, wanted: &str) -> Result<Finding, AllocError> {
        Ok(Finding {
            found: String::from_str(alloc, found)?,
            wanted: String::from_str(alloc, wanted)?,
        })
    }
}

/// The number of names that a list shows.
const SHOWN_NAMES: usize = 8;

/// The number of characters of a text that are shown.
const SHOWN_CHARACTERS: usize = 100;

/// Returns a text of a token in quotes, with its control characters escaped, and cut if it is long.
pub fn quote(alloc: Global, text: &str) -> Result<String, AllocError> {
    let mut start = String::new(alloc);
    for character in text.chars().take(SHOWN_CHARACTERS) {
        start.push(character)?;
    }
    if start.len() < text.len() {
        return format!(in alloc; "{start:?}..");
    }
    format!(in alloc; "{start:?}")
}

/// Returns these names as a list in words: `a`, `a or b`, `a, b or c`.
pub fn choice(alloc: Global, names: &[String]) -> Result<String, AllocError> {
    let mut words = String::new(alloc);
    let count = names.len();
    for (place, name) in names.iter().take(SHOWN_NAMES).enumerate() {
        if place > 0 {
            words.push_str(if place + 1 == count { " or " } else { ", " })?;
        }
        words.push_str(name.as_str())?;
    }
    if count > SHOWN_NAMES {
        words.push_str(" or another of ")?;
        words.push_str(format!(in alloc; "{count}")?.as_str())?;
    }
    Ok(words)
}

/// Returns the value of a part, or `None` if it is not base64url or not JSON.
pub fn part_value(alloc: Global, part: &[u8]) -> Result<Option<Value>, AllocError> {
    match value_unless_refused(part_bytes(alloc, part))? {
        Some(bytes) => value_unless_refused(json_value(alloc, &bytes)),
        None => Ok(None),
    }
}

/// Returns the findings of the test that a refusal carries: one, or one for each claim rule that
/// fails.
pub fn findings_of(
    alloc: Global,
    token: CheckedToken<'_>,
    validation: &Validation,
    refusal: &Refusal,
) -> Result<Vec<Finding>, AllocError> {
    if let (Test::ClaimsAreValid, Some(parts)) = (refusal.test, split_parts(token.text)) {
        return claim_findings(alloc, parts.payload, validation, token.time);
    }
    let mut findings = Vec::new(alloc);
    findings.push(finding_of(alloc, token, validation, refusal.test)?)?;
    Ok(findings)
}

/// Returns the finding of a test other than that of the claim rules.
fn finding_of(
    alloc: Global,
    token: CheckedToken<'_>,
    validation: &Validation,
    test: Test,
) -> Result<Finding, AllocError> {
    let Some(parts) = split_parts(token.text) else {
        return text_finding(alloc, token.text);
    };
    match test {
        Test::HeaderIsBase64url
        | Test::HeaderIsJson
        | Test::HeaderIsValid
        | Test::SignatureIsBase64url
        | Test::PayloadIsBase64url
        | Test::PayloadIsJson
        | Test::ClaimsMatchType
        | Test::ClaimsAreAnObject => finding_by_part(alloc, token, parts, test),
        Test::KeyIsUsable => Finding::new(
            alloc,
            "a key whose members are malformed, or that verifies nothing here",
            "the members of RFC 7518 section 6 or RFC 8037 section 2; 'jwt keys' says more",
        ),
        Test::AlgorithmsAreConfigured => Finding::new(
            alloc,
            "no algorithm that is accepted",
            "--alg, or a key with an 'alg' of its own",
        ),
        Test::SignatureIsAccepted => signature_finding(alloc, token, parts),
        _ => finding_by_header(alloc, token, validation, test),
    }
}

/// Returns the finding of a test of the whole text or of a part.
fn finding_by_part(
    alloc: Global,
    token: CheckedToken<'_>,
    parts: Parts<'_>,
    test: Test,
) -> Result<Finding, AllocError> {
    match test {
        Test::HeaderIsBase64url | Test::HeaderIsJson | Test::HeaderIsValid => {
            part_finding(alloc, token.text, parts.header, test)
        }
        Test::SignatureIsBase64url => signature_part_finding(alloc, token, parts),
        _ => part_finding(alloc, token.text, parts.payload, test),
    }
}

/// Returns the finding of a signature part that is not base64url.
fn signature_part_finding(
    alloc: Global,
    token: CheckedToken<'_>,
    parts: Parts<'_>,
) -> Result<Finding, AllocError> {
    if parts.signature.iter().all(|byte| is_of_base64url(*byte))
        && let Some(finding) = length_finding(alloc, token, parts)?
    {
        return Ok(finding);
    }
    part_finding(
        alloc,
        token.text,
        parts.signature,
        Test::SignatureIsBase64url,
    )
}

/// Returns the finding of a signature that is not accepted.
fn signature_finding(
    alloc: Global,
    token: CheckedToken<'_>,
    parts: Parts<'_>,
) -> Result<Finding, AllocError> {
    if let Some(finding) = length_finding(alloc, token, parts)? {
        return Ok(finding);
    }
    if let Some(finding) = altered_finding(alloc, parts.payload)? {
        return Ok(finding);
    }
    Finding::new(
        alloc,
        "a signature that does not match this header, payload and key",
        wanted_key(alloc, token)?,
    )
}

/// Returns what a signature that does not match asks for, which the keys tell.
fn wanted_key(alloc: Global, token: CheckedToken<'_>) -> Result<&'static str, AllocError> {
    if token.has_line_end {
        return Ok(
            "the secret that it was signed with: the file ends with a newline, which --trim leaves out",
        );
    }
    if is_named_twice(alloc, token)? {
        return Ok(
            "the key that the token was signed with, as the first of its kid: the set has another key of this kid, which is never tried",
        );
    }
    Ok("the key that the token was signed with, and the token as it was issued")
}

/// Returns whether several keys of a set have the `kid` of the token.
fn is_named_twice(alloc: Global, token: CheckedToken<'_>) -> Result<bool, AllocError> {
    let CheckedKeys::Set(set) = token.keys else {
        return Ok(false);
    };
    match value_unless_refused(decode_header(alloc, token.text))? {
        Some(header) => {
            let count = set
                .keys
                .iter()
                .filter(|jwk| jwk.common.key_id == header.kid)
                .count();
            // one drop
            drop(header);
            Ok(count > 1)
        }
        None => Ok(false),
    }
}

fn finding_by_header(
    alloc: Global,
    token: CheckedToken<'_>,
    validation: &Validation,
    test: Test,
) -> Result<Finding, AllocError> {
    match decode_header(alloc, token.text) {
        Ok(header) => {
            let finding = header_finding(alloc, token, validation, test, &header);
            // one drop
            drop(header);
            finding
        }
        Err(_) => Err(AllocError),
    }
}

/// Returns the finding of a test of the header's members.
fn header_finding(
    alloc: Global,
    token: CheckedToken<'_>,
    validation: &Validation,
    test: Test,
    header: &Header,
) -> Result<Finding, AllocError> {
    match test {
        Test::CritIsUnderstood => crit_finding(alloc, header),
        Test::KeyIsFound => kid_finding(alloc, &header.kid, token.keys),
        Test::KeyAlgMatches => algorithm_finding(
            alloc,
            header,
            wanted_algorithm(key_algorithm_name(header, token.keys)),
        ),
        Test::AlgorithmIsAllowed => listing_finding(alloc, header, validation),
        Test::AlgorithmsShareFamily => family_finding(alloc, header, validation),
        _ => verifier_finding(alloc, header, token.keys),
    }
}

fn crit_finding(alloc: Global, header: &Header) -> Result<Finding, AllocError> {
    let names = crit_names(alloc, header)?;
    let listed = if names.is_empty() {
        "nothing"
    } else {
        names.as_str()
    };
    Ok(Finding {
        found: format!(in alloc; "a 'crit' that lists {listed}")?,
        wanted: String::from_str(
            alloc,
            "names that the header has and --crit gives, each once, and no name of RFC 7515 itself",
        )?,
    })
}

fn crit_names(alloc: Global, header: &Header) -> Result<String, AllocError> {
    let mut names = Vec::new(alloc);
    if let Some(texts) = &header.crit {
        for text in texts.as_slice() {
            names.push(quote(alloc, text.as_str())?)?;
        }
    }
    choice(alloc, &names)
}

fn kid_finding(
    alloc: Global,
    kid: &Option<Text>,
    keys: CheckedKeys<'_>,
) -> Result<Finding, AllocError> {
    let found = match kid {
        Some(kid) => format!(in alloc; "the kid {}", quote(alloc, kid.as_str())?)?,
        None => String::from_str(alloc, "a header without a kid")?,
    };
    let names = match keys {
        CheckedKeys::Set(set) => kid_names(alloc, set)?,
        CheckedKeys::One(_) => String::new(alloc),
    };
    let wanted = if names.is_empty() {
        String::from_str(alloc, "the kid of a key of the set, of which none has one")?
    } else {
        format!(in alloc; "the kid of a key of the set: {names}")?
    };
    Ok(Finding { found, wanted })
}

fn kid_names(alloc: Global, set: &JwkSet) -> Result<String, AllocError> {
    let mut names = Vec::new(alloc);
    for jwk in &set.keys {
        if let Some(kid) = &jwk.common.key_id {
            names.push(quote(alloc, kid.as_str())?)?;
        }
    }
    choice(alloc, &names)
}

fn algorithm_finding(alloc: Global, header: &Header, wanted: &str) -> Result<Finding, AllocError> {
    Ok(Finding {
        found: format!(in alloc; "the algorithm {}", header.alg.name())?,
        wanted: String::from_str(alloc, wanted)?,
    })
}

/// Returns the name of the algorithm that the key of a set is for.
fn key_algorithm_name(header: &Header, keys: CheckedKeys<'_>) -> &'static str {
    let (Some(kid), CheckedKeys::Set(set)) = (&header.kid, keys) else {
        return "none";
    };
    match set.find(kid.as_str()) {
        Some(jwk) => match &jwk.common.key_algorithm {
            Some(named) => named.name(),
            None => "none",
        },
        None => "none",
    }
}

/// Returns what the algorithm of a key asks for, by its name.
fn wanted_algorithm(name: &'static str) -> &'static str {
    match name {
        "RSA1_5" | "RSA-OAEP" | "RSA-OAEP-256" => {
            "another key: the key of this kid is for encryption, and verifies no token"
        }
        _ => name,
    }
}

/// Returns the finding of an algorithm that is not listed, or that others of its list do not fit.
fn listing_finding(
    alloc: Global,
    header: &Header,
    validation: &Validation,
) -> Result<Finding, AllocError> {
    let names = algorithm_names(alloc, &validation.algorithms)?;
    algorithm_finding(alloc, header, names.as_str())
}

fn algorithm_names(alloc: Global, algorithms: &[Algorithm]) -> Result<String, AllocError> {
    let mut names = Vec::new(alloc);
    for algorithm in algorithms {
        names.push(String::from_str(alloc, algorithm.name())?)?;
    }
    choice(alloc, &names)
}

fn family_finding(
    alloc: Global,
    header: &Header,
    validation: &Validation,
) -> Result<Finding, AllocError> {
    let names = algorithm_names(alloc, &validation.algorithms)?;
    Ok(Finding {
        found: format!(in alloc; "{names} are accepted, of different families")?,
        wanted: format!(in alloc; "algorithms of the family of {} alone", header.alg.name())?,
    })
}

fn verifier_finding(
    alloc: Global,
    header: &Header,
    keys: CheckedKeys<'_>,
) -> Result<Finding, AllocError> {
    let found = match keys {
        CheckedKeys::One(key) => key_name(key.family()),
        CheckedKeys::Set(_) => "a key of the set that does not fit",
    };
    Ok(Finding {
        found: String::from_str(alloc, found)?,
        wanted: format!(in alloc; "a key for {}, the token's algorithm", header.alg.name())?,
    })
}

fn key_name(family: AlgorithmFamily) -> &'static str {
    match family {
        AlgorithmFamily::Hmac => "a secret, for HS256, HS384 and HS512",
        AlgorithmFamily::Rsa => "an RSA key, for RS256 to RS512 and PS256 to PS512",
        AlgorithmFamily::Ec => "a key of an elliptic curve, for ES256 (P-256) or ES384 (P-384)",
        AlgorithmFamily::Ed => "an Ed25519 key, for EdDSA",
    }
}
