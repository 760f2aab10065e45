//! The calls of the library that rows name.

use jsonwebtoken::jwk::{
    EllipticCurve, EllipticCurveKeyParameters, EllipticCurveKeyType, KeyOperations,
    OctetKeyPairParameters, OctetKeyPairType, OctetKeyParameters, OctetKeyType, OtherKeyParameters,
    PublicKeyUse, RSAKeyParameters, RSAKeyType,
};
use jsonwebtoken::{Enc, Zip};
use jwt_rows::{Answer, Row};
use jwt_rows_tokens::{
    by_provider, external_signature, files, kept, keys, places, prepared, sizes, tokens,
};
use jwt_rows_values::arithmetic::numbers::{limb, modulus, natural};
use jwt_rows_values::arithmetic::points::by_curve;
use jwt_rows_values::arithmetic::signatures::is_signature;
use jwt_rows_values::claims::{are_equal, claims, value};
use jwt_rows_values::json::{json_call, membered_call, named_call};
use jwt_rows_values::{
    algorithms, errors, extras, headers, jwks, key_items, operations, parameters, parts, rules,
    secrets, texts, validations,
};
use serde_json::Value;

/// Makes the call that the row names, with the row's inputs, and returns its result, or none if
/// there is no such call or an input is missing or malformed.
pub fn answer(row: &Row<'_>) -> Answer {
    let call = row.text("call");
    match call {
        "part_bytes" | "standard_bytes" | "url_bytes" => parts::decode(call, row),
        "part_text" | "json_value" => parts::of_bytes(call, row),
        "value_eq" => are_equal(row),
        "has_float" | "value_text" => value(call, row),
        "new_error" => errors::error("new", row),
        "is_blank" | "is_key_text" => secrets::of_secret(call, row),
        "is_blank_key" => secrets::of_key(row),
        "is_blank_jwk" | "jwk_has_key_text" => secrets::of_jwk(call, row),
        "has_blank_key" | "set_has_key_text" => secrets::of_set(call, row),
        "validate" => rules::claims_are_valid(row),
        "validate, missing" => rules::names_missing(row),
        "broken_rules" => rules::broken(row),
        "claimed_moments" => rules::moments(row),
        "get_current_timestamp" => rules::timestamp(row),
        "options_fault" => validations::fault(row),
        "is_same" => files::are_same(row),
        "sizes" => sizes::answer(row),
        "place" | "each_cut" | "each_change" => places::answer(call, row),
        "limb_from_octets" => limb(row),
        "right_sums" | "is_multiple" | "is_joint_multiple" => by_curve(call, row),
        "is_signature" => is_signature(row),
        _ => of_files(call, row),
    }
}

fn of_files(call: &str, row: &Row<'_>) -> Answer {
    match call {
        "public_key_from_der" | "unverified_key_from_certificate" => files::of_der(call, row),
        "public_key_from_pem" | "unverified_key_from_certificate_pem" | "jwk_from_pem" => {
            files::of_pem(call, row)
        }
        "rsa_components_from_der" => files::components_of_der(row),
        "ecdsa_signature" => files::signature_of_der(row),
        "decode_header"
        | "signed_part"
        | "dangerous::insecure_decode"
        | "dangerous::insecure_decode_claims"
        | "dangerous::insecure_decode_claims::<u64>" => tokens::read_token(call, row),
        "TokenData::debug" => tokens::debug_text(row),
        "signing_input" => external_signature::input(row),
        "encode_by_signature" => external_signature::encode(row),
        "decode_by_verdict" => external_signature::decode(row),
        "decode_with_kept" => kept::decode(row),
        "Jwk::thumbprint" | "Jwk::from_encoding_key" | "Jwk::from_decoding_key" => {
            by_provider::answer(call, row)
        }
        _ => match call.split_once("::") {
            Some((name, method)) => of_value(name, method, call, row),
            None => by_provider::answer(call, row),
        },
    }
}

// Makes a call of a type of values and keys.
fn of_value(name: &str, method: &str, call: &str, row: &Row<'_>) -> Answer {
    match name {
        "Error" => errors::error(method, row),
        "ErrorKind" => errors::kind(method, row),
        "Algorithm" => algorithms::algorithm(method, row),
        "AlgorithmFamily" => algorithms::family(method, row),
        "KeyAlgorithm" => algorithms::key_algorithm(method, row),
        "Text" => texts::text(method, row),
        "Texts" => texts::texts(method, row),
        "String" => claims::<String>(method, row),
        "bool" => claims::<bool>(method, row),
        "u32" => claims::<u32>(method, row),
        "u64" => claims::<u64>(method, row),
        "i32" => claims::<i32>(method, row),
        "i64" => claims::<i64>(method, row),
        "Value" => claims::<Value>(method, row),
        "Validation" => validations::validation(method, row),
        "EncodingKey" => keys::encoding_key(method, row),
        "DecodingKey" => keys::decoding_key(method, row),
        "DecodingKeyKind" => keys::kind(method, row),
        "PreparedHmac" => prepared::hmac(method, row),
        "PreparedRsa" => prepared::rsa(method, row),
        "SignatureProvider" => external_signature::signature(method, row),
        "VerdictProvider" => external_signature::verdict(method, row),
        "Jws" => tokens::parts(method, row),
        "Natural" => natural(method, row),
        "Modulus" => modulus(method, row),
        _ => of_json(name, method, call, row),
    }
}

// Makes a call of a type that has a JSON value, or else one that is given a provider.
fn of_json(name: &str, method: &str, call: &str, row: &Row<'_>) -> Answer {
    match name {
        "EllipticCurve" => named_call::<EllipticCurve>(method, row),
        "EllipticCurveKeyType" => named_call::<EllipticCurveKeyType>(method, row),
        "RSAKeyType" => named_call::<RSAKeyType>(method, row),
        "OctetKeyType" => named_call::<OctetKeyType>(method, row),
        "OctetKeyPairType" => named_call::<OctetKeyPairType>(method, row),
        "PublicKeyUse" => json_call::<PublicKeyUse>(method, row),
        "KeyOperations" => json_call::<KeyOperations>(method, row),
        "KeyOperationList" => operations::list(method, row),
        "CommonParameters" => parameters::common(method, row),
        "EllipticCurveKeyParameters" => membered_call::<EllipticCurveKeyParameters>(method, row),
        "RSAKeyParameters" => membered_call::<RSAKeyParameters>(method, row),
        "OctetKeyParameters" => membered_call::<OctetKeyParameters>(method, row),
        "OctetKeyPairParameters" => membered_call::<OctetKeyPairParameters>(method, row),
        "OtherKeyParameters" => json_call::<OtherKeyParameters>(method, row),
        "AlgorithmParameters" => parameters::of_algorithms(method, row),
        "FreeMembers" => parameters::free_members(method, row),
        "Jwk" => jwks::jwk(method, row),
        "JwkSet" => jwks::jwk_set(method, row),
        "KeyItems" => key_items::key_items(method, row),
        "Enc" => json_call::<Enc>(method, row),
        "Zip" => json_call::<Zip>(method, row),
        "Extras" => extras::extras(method, row),
        "Header" => headers::header(method, row),
        _ => by_provider::answer(call, row),
    }
}
