//! The table of the statuses: the number and the text of each.

// A status says which registered claim is meant: no state is kept between calls, so the name has to
// be in the number, or the caller would have to ask again with all that it gave. Missing claims
// have 40 to 59 and malformed ones 60 to 79, so that a further claim has its status next to the
// others. The names are those of `packages/c/include/jwtproved.h`.

ghost use Rattle.std.specs.Prelude.{◌≡◌, map, option_map};
ghost use Rattle.jwt_c_calls.specs.Status.{status_text, statuses, text_in};

/// A status: its number and its text.
pub type Status = (u32, &'static str);

pub const OK: Status = (0, "OK");

pub const INVALID_TOKEN: Status = (1, "InvalidToken");

pub const INVALID_SIGNATURE: Status = (2, "InvalidSignature");

pub const INVALID_ECDSA_KEY: Status = (3, "InvalidEcdsaKey");

pub const INVALID_EDDSA_KEY: Status = (4, "InvalidEddsaKey");

pub const RSA_FAILED_SIGNING: Status = (5, "RsaFailedSigning");

pub const INVALID_ALGORITHM_NAME: Status = (6, "InvalidAlgorithmName");

pub const UNSUPPORTED_ALGORITHM: Status = (7, "UnsupportedAlgorithm");

pub const INVALID_KEY_FORMAT: Status = (8, "InvalidKeyFormat");

pub const EXPIRED_SIGNATURE: Status = (9, "ExpiredSignature");

pub const INVALID_ISSUER: Status = (10, "InvalidIssuer");

pub const INVALID_AUDIENCE: Status = (11, "InvalidAudience");

pub const INVALID_SUBJECT: Status = (12, "InvalidSubject");

pub const IMMATURE_SIGNATURE: Status = (13, "ImmatureSignature");

pub const INVALID_ALGORITHM: Status = (14, "InvalidAlgorithm");

pub const MISSING_ALGORITHM: Status = (15, "MissingAlgorithm");

pub const INVALID_RSA_KEY: Status = (16, "RSA key invalid");

pub const SIGNING: Status = (17, "Signing failed");

pub const PROVIDER: Status = (18, "Private key, and not a public one");

pub const BASE64: Status = (19, "Base64 error");

pub const JSON: Status = (20, "JSON error");

pub const UTF8: Status = (21, "UTF-8 error");

pub const OUT_OF_MEMORY: Status = (22, "Out of memory");

pub const CLOCK_BEFORE_EPOCH: Status = (23, "Clock before 1970");

pub const INVALID_CRIT: Status = (24, "InvalidCrit");

pub const NO_KEY: Status = (25, "NoKey");

pub const MISSING_EXP: Status = (40, "Missing required claim: exp");

pub const MISSING_NBF: Status = (41, "Missing required claim: nbf");

pub const MISSING_AUD: Status = (42, "Missing required claim: aud");

pub const MISSING_ISS: Status = (43, "Missing required claim: iss");

pub const MISSING_SUB: Status = (44, "Missing required claim: sub");

pub const MISSING_CLAIM: Status = (59, "Missing required claim");

pub const MALFORMED_EXP: Status = (60, "Invalid format for claim: exp");

pub const MALFORMED_NBF: Status = (61, "Invalid format for claim: nbf");

pub const MALFORMED_AUD: Status = (62, "Invalid format for claim: aud");

pub const MALFORMED_ISS: Status = (63, "Invalid format for claim: iss");

pub const MALFORMED_SUB: Status = (64, "Invalid format for claim: sub");

pub const MALFORMED_CLAIM: Status = (79, "Invalid format for claim");

pub const BUFFER_TOO_SMALL: Status = (100, "Buffer too small");

pub const BAD_OPTIONS: Status = (101, "Invalid options");

pub const UNKNOWN_NUMBER: Status = (102, "Unknown number");

pub const BAD_HEADER: Status = (104, "Invalid header");

pub const BAD_CLAIMS: Status = (105, "Invalid claims");

pub const BAD_KEY: Status = (106, "Invalid key");

pub const ALL_ZERO_SECRET: Status = (107, "Secret is empty or all zeros");

pub const NO_VERIFIER: Status = (108, "No verifier");

pub const HANDLE_IN_USE: Status = (109, "Handle already in use");

pub const NO_USABLE_KEY: Status = (110, "No key fits the algorithms");

pub const TOKEN_TOO_LONG: Status = (111, "Token too long");

pub const NO_MEMBER: Status = (112, "No such member");

pub const KEY_AS_SECRET: Status = (113, "Secret is the text of a key");

pub const NOT_FOR_SIGNATURES: Status = (115, "Key is not for signatures");

pub const IS_CERTIFICATE: Status = (116, "Certificate, and not a key");

pub const NO_KEYS: Status = (117, "No keys");

pub const UNFIT_KEY: Status = (118, "Key fits no algorithm");

/// Returns the text of a status, if the number is one.
pub fn text_of(number: u32) -> Option<&'static str>
    ensures { option_map (λ t. t.now) result ≡ status_text number }
{
    text_in(&statuses(), number)
}

fn statuses() -> [Status; 55]
    ensures { map (λ s. (s.0, s.1.now)) result ≡ statuses }
{
    [
        OK,
        INVALID_TOKEN,
        INVALID_SIGNATURE,
        INVALID_ECDSA_KEY,
        INVALID_EDDSA_KEY,
        RSA_FAILED_SIGNING,
        INVALID_ALGORITHM_NAME,
        UNSUPPORTED_ALGORITHM,
        INVALID_KEY_FORMAT,
        EXPIRED_SIGNATURE,
        INVALID_ISSUER,
        INVALID_AUDIENCE,
        INVALID_SUBJECT,
        IMMATURE_SIGNATURE,
        INVALID_ALGORITHM,
        MISSING_ALGORITHM,
        INVALID_RSA_KEY,
        SIGNING,
        PROVIDER,
        BASE64,
        JSON,
        UTF8,
        OUT_OF_MEMORY,
        CLOCK_BEFORE_EPOCH,
        INVALID_CRIT,
        NO_KEY,
        MISSING_EXP,
        MISSING_NBF,
        MISSING_AUD,
        MISSING_ISS,
        MISSING_SUB,
        MISSING_CLAIM,
        MALFORMED_EXP,
        MALFORMED_NBF,
        MALFORMED_AUD,
        MALFORMED_ISS,
        MALFORMED_SUB,
        MALFORMED_CLAIM,
        BUFFER_TOO_SMALL,
        BAD_OPTIONS,
        UNKNOWN_NUMBER,
        BAD_HEADER,
        BAD_CLAIMS,
        BAD_KEY,
        ALL_ZERO_SECRET,
        NO_VERIFIER,
        HANDLE_IN_USE,
        NO_USABLE_KEY,
        TOKEN_TOO_LONG,
        NO_MEMBER,
        KEY_AS_SECRET,
        NOT_FOR_SIGNATURES,
        IS_CERTIFICATE,
        NO_KEYS,
        UNFIT_KEY,
    ]
}

fn text_in(table: &[Status], number: u32) -> Option<&'static str>
    ensures { option_map (λ t. t.now) result
        ≡ text_in number (map (λ s. (s.0, s.1.now)) table.now) }
{
    for status in table {
        if status.0 == number {
            return Some(status.1);
        }
    }
    None
}
