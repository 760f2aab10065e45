//! Keys: their constructors and their content.

use jsonwebtoken::{DecodingKey, DecodingKeyKind, EncodingKey};
use jwt_rows::calls::debug;
use jwt_rows::inputs::jwks::jwk;
use jwt_rows::output::Bytes;
use jwt_rows::{Answer, Row};

/// Makes a call of `EncodingKey`.
pub fn encoding_key(method: &str, row: &Row<'_>) -> Answer {
    match method {
        "from_secret" | "from_rsa_der" | "from_ec_der" | "from_ed_der" => {
            encoding_key_of_bytes(method, row)
        }
        "from_base64_secret" => {
            let text = row.text("text");
            row.end(EncodingKey::from_base64_secret(row.begin(), text))
        }
        "from_urlsafe_base64_secret" => {
            let text = row.text("text");
            row.end(EncodingKey::from_urlsafe_base64_secret(row.begin(), text))
        }
        "debug" => debug::<EncodingKey>(row, "key"),
        _ => of_encoding_key(method, row),
    }
}

/// Makes a call of `DecodingKey`.
pub fn decoding_key(method: &str, row: &Row<'_>) -> Answer {
    match method {
        "from_secret" | "from_rsa_der" | "from_ec_der" | "from_ed_der" => {
            decoding_key_of_bytes(method, row)
        }
        "from_base64_secret" | "from_urlsafe_base64_secret" => decoding_key_of_text(method, row),
        "from_rsa_components"
        | "from_ec_components"
        | "from_ed_components"
        | "from_rsa_raw_components" => decoding_key_of_components(method, row),
        "from_jwk" => {
            let jwk = jwk(row)?;
            row.end(DecodingKey::from_jwk(row.begin(), &jwk))
        }
        "debug" => debug::<DecodingKey>(row, "key"),
        _ => of_decoding_key(method, row),
    }
}

/// Makes a call of `DecodingKeyKind`, the content of a key.
pub fn kind(method: &str, row: &Row<'_>) -> Answer {
    match method {
        "clone" => {
            let key = row.input::<DecodingKey>("key")?;
            row.end(key.kind().clone(row.begin()))
        }
        "zeroize" => {
            let mut kind = row.input::<DecodingKeyKind>("key")?;
            row.begin();
            kind.zeroize();
            row.give(&*kind)
        }
        "debug" => debug::<DecodingKeyKind>(row, "key"),
        _ => None,
    }
}

fn encoding_key_of_bytes(method: &str, row: &Row<'_>) -> Answer {
    let bytes = row.bytes("bytes");
    let bytes = bytes.as_slice();
    let alloc = row.begin();
    let answer = match method {
        "from_rsa_der" => EncodingKey::from_rsa_der(alloc, bytes),
        "from_ec_der" => EncodingKey::from_ec_der(alloc, bytes),
        "from_ed_der" => EncodingKey::from_ed_der(alloc, bytes),
        _ => EncodingKey::from_secret(alloc, bytes),
    };
    row.end(answer)
}

fn of_encoding_key(method: &str, row: &Row<'_>) -> Answer {
    let mut key = row.input::<EncodingKey>("key")?;
    let alloc = row.begin();
    match method {
        "family" => row.give(&key.family()),
        "as_bytes" => row.give(&Bytes(key.as_bytes())),
        "clone" => row.end(key.clone(alloc)),
        "zeroize" => {
            key.zeroize();
            row.give(&*key)
        }
        "zeroize, clone" => {
            key.zeroize();
            row.end(key.clone(alloc))
        }
        _ => None,
    }
}

fn decoding_key_of_bytes(method: &str, row: &Row<'_>) -> Answer {
    let bytes = row.bytes("bytes");
    let bytes = bytes.as_slice();
    let alloc = row.begin();
    let answer = match method {
        "from_rsa_der" => DecodingKey::from_rsa_der(alloc, bytes),
        "from_ec_der" => DecodingKey::from_ec_der(alloc, bytes),
        "from_ed_der" => DecodingKey::from_ed_der(alloc, bytes),
        _ => DecodingKey::from_secret(alloc, bytes),
    };
    row.end(answer)
}

fn decoding_key_of_text(method: &str, row: &Row<'_>) -> Answer {
    let text = row.text("text");
    let alloc = row.begin();
    let answer = match method {
        "from_base64_secret" => DecodingKey::from_base64_secret(alloc, text),
        _ => DecodingKey::from_urlsafe_base64_secret(alloc, text),
    };
    row.end(answer)
}

fn decoding_key_of_components(method: &str, row: &Row<'_>) -> Answer {
    match method {
        "from_rsa_components" => {
            let (n, e) = (row.text("n"), row.text("e"));
            row.end(DecodingKey::from_rsa_components(row.begin(), n, e))
        }
        "from_ec_components" => {
            let (x, y) = (row.text("x"), row.text("y"));
            row.end(DecodingKey::from_ec_components(row.begin(), x, y))
        }
        "from_ed_components" => {
            let x = row.text("x");
            row.end(DecodingKey::from_ed_components(row.begin(), x))
        }
        _ => {
            let n = row.bytes("n");
            let e = row.bytes("e");
            row.end(DecodingKey::from_rsa_raw_components(row.begin(), n.as_slice(), e.as_slice()))
        }
    }
}

fn of_decoding_key(method: &str, row: &Row<'_>) -> Answer {
    let mut key = row.input::<DecodingKey>("key")?;
    let alloc = row.begin();
    match method {
        "family" => row.give(&key.family()),
        "try_get_as_bytes" => row.end(key.try_get_as_bytes().map(Bytes)),
        "kind" => row.give(key.kind()),
        "clone" => row.end(key.clone(alloc)),
        "zeroize" => {
            key.zeroize();
            row.give(&*key)
        }
        "zeroize, clone" => {
            key.zeroize();
            row.end(key.clone(alloc))
        }
        _ => None,
    }
}
