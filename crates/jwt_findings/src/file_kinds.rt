//! The kind of a file that holds something else than is wanted, and the argument that reads it.

use memchr::memmem;

/// The problem of a certificate, whose signature would have to be verified first.
const CERTIFICATE: &str =
    "this is a certificate; 'openssl x509 -pubkey -noout' prints its key in PEM";

/// The problem of a key of SSH (RFC 4253 section 6.6).
const OF_SSH: &str = "this is a key of SSH; 'ssh-keygen -e -m PKCS8 -f FILE' prints it in PEM";

/// Returns the likely problem of a file that is not a JSON Web Key that verifies, or `plain`.
pub fn key_problem(bytes: &[u8], plain: &'static str) -> &'static str {
    if is_set(bytes) {
        "this is a set of JSON Web Keys, not a single one; --jwks reads a set"
    } else {
        text_problem(bytes, plain)
    }
}

/// Returns the likely problem of a file that is not a set of JSON Web Keys.
pub fn set_problem(bytes: &[u8]) -> &'static str {
    if is_key(bytes) {
        "this is one JSON Web Key, not a set; --jwk reads one, and {\"keys\": [KEY]} is a set of one"
    } else if is_object(bytes) {
        object_problem(bytes)
    } else {
        text_problem(bytes, "this is not a set of JSON Web Keys")
    }
}

/// Returns the likely problem of a JSON object that is not a set of JSON Web Keys.
fn object_problem(bytes: &[u8]) -> &'static str {
    if has_member(bytes, b"\"jwks_uri\"") {
        "this is the configuration of an issuer; its 'jwks_uri' is the address of the keys"
    } else if is_certificate(bytes) {
        "this is a JSON object of certificates; the issuer has its JSON Web Keys at another address"
    } else {
        "this is not a set of JSON Web Keys"
    }
}

/// Returns the likely problem of a file that is not a public key in PEM, or `plain`.
pub fn pem_problem(bytes: &[u8], plain: &'static str) -> &'static str {
    if is_set(bytes) {
        "this is a set of JSON Web Keys, not PEM; --jwks reads a set"
    } else if is_key(bytes) {
        "this is a JSON Web Key, not PEM; --jwk reads one"
    } else if is_certificate(bytes) {
        CERTIFICATE
    } else if is_of_ssh(bytes) {
        OF_SSH
    } else {
        plain
    }
}

/// Returns whether a file is likely a set of JSON Web Keys (RFC 7517 section 5).
fn is_set(bytes: &[u8]) -> bool {
    is_object(bytes) && has_member(bytes, b"\"keys\"")
}

fn is_object(bytes: &[u8]) -> bool {
    bytes.trim_ascii_start().starts_with(b"{")
}

/// Returns whether a text is an object with this member, by its letters.
fn has_member(text: &[u8], quoted: &[u8]) -> bool {
    let Some(place) = memmem::find(text, quoted) else {
        return false;
    };
    let behind = text.get(place..).unwrap_or(b"").iter().skip(quoted.len());
    behind.copied().find(|byte| !byte.is_ascii_whitespace()) == Some(b':')
}

/// Returns the likely problem of a file that is no JSON if JSON is wanted, or `plain`.
fn text_problem(bytes: &[u8], plain: &'static str) -> &'static str {
    if bytes.trim_ascii().is_empty() {
        "the file is empty"
    } else if bytes.trim_ascii_start().starts_with(b"<") {
        "this is HTML or XML, as a server writes about an error"
    } else if is_certificate(bytes) {
        CERTIFICATE
    } else if memmem::find(bytes, b"-----BEGIN ").is_some() {
        "this is PEM, not JSON; --pem reads a public key in PEM, and 'jwt jwk' prints it as JSON"
    } else if is_of_ssh(bytes) {
        OF_SSH
    } else {
        plain
    }
}

/// Returns whether a file is likely a certificate in PEM (RFC 7468 section 5).
fn is_certificate(bytes: &[u8]) -> bool {
    memmem::find(bytes, b"-----BEGIN CERTIFICATE-----").is_some()
}

fn is_of_ssh(bytes: &[u8]) -> bool {
    bytes.starts_with(b"ssh-") || bytes.starts_with(b"ecdsa-sha2-")
}

/// Returns whether a file is likely a JSON Web Key (RFC 7517 section 4).
fn is_key(bytes: &[u8]) -> bool {
    is_object(bytes) && has_member(bytes, b"\"kty\"") && !is_set(bytes)
}
