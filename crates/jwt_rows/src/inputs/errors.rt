//! The kinds of errors: the name, followed in parentheses by the string that the kind holds.

use crate::input::Input;
use jsonwebtoken::errors::{Error, ErrorKind, new_error};
use serde_json::Value;
use std::alloc::Global;

impl Input for ErrorKind {
    fn read(alloc: Global, described: &Value) -> Option<ErrorKind> {
        let text = described.as_str()?;
        match text.strip_suffix(')') {
            Some(text) => kind_with_text(alloc, text),
            None => kind_of_token(text),
        }
    }
}

impl Input for Error {
    fn read(alloc: Global, described: &Value) -> Option<Error> {
        Some(new_error(ErrorKind::read(alloc, described)?))
    }
}

fn kind_with_text(alloc: Global, text: &str) -> Option<ErrorKind> {
    let (name, held) = text.split_once('(')?;
    let held = String::from_str(alloc, held).ok()?;
    match name {
        "MissingRequiredClaim" => Some(ErrorKind::MissingRequiredClaim(held)),
        "InvalidClaimFormat" => Some(ErrorKind::InvalidClaimFormat(held)),
        "InvalidRsaKey" => Some(ErrorKind::InvalidRsaKey(held)),
        "Signing" => Some(ErrorKind::Signing(held)),
        "Provider" => Some(ErrorKind::Provider(held)),
        _ => None,
    }
}

fn kind_of_token(name: &str) -> Option<ErrorKind> {
    match name {
        "InvalidToken" => Some(ErrorKind::InvalidToken),
        "InvalidSignature" => Some(ErrorKind::InvalidSignature),
        "InvalidAlgorithm" => Some(ErrorKind::InvalidAlgorithm),
        "MissingAlgorithm" => Some(ErrorKind::MissingAlgorithm),
        "InvalidCrit" => Some(ErrorKind::InvalidCrit),
        "NoKey" => Some(ErrorKind::NoKey),
        "Base64" => Some(ErrorKind::Base64),
        "Json" => Some(ErrorKind::Json),
        "Utf8" => Some(ErrorKind::Utf8),
        "OutOfMemory" => Some(ErrorKind::OutOfMemory),
        _ => kind_of_claim(name),
    }
}

fn kind_of_claim(name: &str) -> Option<ErrorKind> {
    match name {
        "InvalidEcdsaKey" => Some(ErrorKind::InvalidEcdsaKey),
        "InvalidEddsaKey" => Some(ErrorKind::InvalidEddsaKey),
        "RsaFailedSigning" => Some(ErrorKind::RsaFailedSigning),
        "InvalidAlgorithmName" => Some(ErrorKind::InvalidAlgorithmName),
        "UnsupportedAlgorithm" => Some(ErrorKind::UnsupportedAlgorithm),
        "InvalidKeyFormat" => Some(ErrorKind::InvalidKeyFormat),
        "ExpiredSignature" => Some(ErrorKind::ExpiredSignature),
        "InvalidIssuer" => Some(ErrorKind::InvalidIssuer),
        "InvalidAudience" => Some(ErrorKind::InvalidAudience),
        "InvalidSubject" => Some(ErrorKind::InvalidSubject),
        "ImmatureSignature" => Some(ErrorKind::ImmatureSignature),
        "ClockBeforeEpoch" => Some(ErrorKind::ClockBeforeEpoch),
        _ => None,
    }
}
