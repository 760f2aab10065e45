//! The command that the arguments of the program ask for.

ghost use Rattle.std.specs.Prelude.{◌≡◌, option_map, map, string_bytes};
ghost use Rattle.jwt_base.specs.Algorithm.{algorithm_named};
ghost use Rattle.jwt_tool_command.specs.Words.{Request, request_of, request_named};
ghost use Rattle.jwt_tool_command.specs.Words.{thumbprint_request, hash_of_name};
ghost use Rattle.jwt_tool_command.specs.Words.{encoding_request, decoding_request};
ghost use Rattle.jwt_tool_command.specs.Words.{claims_asked, ForClaims, ForClaimsBySet};
ghost use Rattle.jwt_tool_command.specs.Asked.{asked};

use jsonwebtoken::jwk::ThumbprintHash;
use jwt_base::algorithms::Algorithm;
use jwt_base::decimal::decimal_number;

/// A command of the program.
#[derive(Debug, Drop)]
pub enum Command<'a> {
    /// Prints the header of a token.
    Header,
    /// Prints the thumbprint of the key that it reads as JSON (RFC 7638).
    Thumbprint {
        hash: ThumbprintHash,
    },
    /// Issues the token of the claims that it reads as JSON, signed with HMAC and a secret.
    Encode {
        algorithm: Algorithm,
        secret: &'a str,
    },
    /// Verifies a token with HMAC and a secret, at a time in seconds since 1970-01-01 00:00:00 UTC,
    /// and prints its claims.
    Decode {
        algorithm: Algorithm,
        secret: &'a str,
        time: u64,
    },
    /// Verifies a token with HMAC and the key that its header names in a key set (RFC 7517 section
    /// 5), given as its JSON text, and prints its claims.
    DecodeWithSet {
        algorithm: Algorithm,
        set: &'a str,
        time: u64,
    },
}

/// Returns the command that the arguments ask for, or `None` if the usage is to be printed.
pub fn requested_command(words: &[String]) -> Option<Command<'_>>
    ensures { option_map asked result ≡ request_of (map string_bytes words.now) }
{
    match words {
        [] => Some(Command::Header),
        [word] => word_command(word.as_str()),
        [word, hash] => thumbprint_command(word.as_str(), hash.as_str()),
        [word, algorithm, secret] => {
            encode_command(word.as_str(), algorithm.as_str(), secret.as_str())
        }
        [word, algorithm, by, time] => {
            decode_command(
                word.as_str(),
                algorithm.as_str(),
                by.as_str(),
                time.as_str(),
            )
        }
        _ => None,
    }
}

fn word_command(word: &str) -> Option<Command<'_>>
    ensures { option_map asked result ≡ request_named word.now }
{
    match word {
        "header" => Some(Command::Header),
        _ => None,
    }
}

fn thumbprint_command<'a>(word: &str, hash: &str) -> Option<Command<'a>>
    ensures { option_map asked result ≡ thumbprint_request word.now hash.now }
{
    if word != "thumbprint" {
        return None;
    }
    let hash = hash_of(hash)?;
    Some(Command::Thumbprint { hash })
}

fn hash_of(name: &str) -> Option<ThumbprintHash>
    ensures { result ≡ hash_of_name name.now }
{
    match name {
        "SHA256" => Some(ThumbprintHash::SHA256),
        "SHA384" => Some(ThumbprintHash::SHA384),
        "SHA512" => Some(ThumbprintHash::SHA512),
        _ => None,
    }
}

fn encode_command<'a>(word: &str, algorithm: &str, secret: &'a str) -> Option<Command<'a>>
    ensures { option_map asked result ≡ encoding_request word.now algorithm.now secret.now }
{
    if word != "encode" {
        return None;
    }
    let algorithm = algorithm_of(algorithm)?;
    Some(Command::Encode { algorithm, secret })
}

fn decode_command<'a>(word: &str, algorithm: &str, by: &'a str, time: &str) -> Option<Command<'a>>
    ensures { option_map asked result ≡ decoding_request word.now algorithm.now by.now time.now }
{
    match word {
        "decode" => decode_by_secret(algorithm, by, time),
        "decode-set" => decode_by_set(algorithm, by, time),
        _ => None,
    }
}

fn decode_by_secret<'a>(algorithm: &str, secret: &'a str, time: &str) -> Option<Command<'a>>
    ensures { option_map asked result ≡ claims_asked ForClaims algorithm.now secret.now time.now }
{
    let algorithm = algorithm_of(algorithm)?;
    let time = decimal_number(time)?;
    Some(Command::Decode {
        algorithm,
        secret,
        time,
    })
}

fn decode_by_set<'a>(algorithm: &str, set: &'a str, time: &str) -> Option<Command<'a>>
    ensures { option_map asked result ≡ claims_asked ForClaimsBySet algorithm.now set.now time.now }
{
    let algorithm = algorithm_of(algorithm)?;
    let time = decimal_number(time)?;
    Some(Command::DecodeWithSet {
        algorithm,
        set,
        time,
    })
}

fn algorithm_of(name: &str) -> Option<Algorithm>
    ensures { result ≡ algorithm_named name.now }
{
    name.parse::<Algorithm>().ok()
}
