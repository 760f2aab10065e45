//! Errors and their kinds.

ghost use Rattle.std.specs.Prelude.{◌≡◌, IfOk, IfErr, string_bytes};
ghost use Rattle.jwt_base.specs.Kind as kind;
ghost use Rattle.jwt_base.specs.KindOf.{kind_held, kind_of, IsMemory};

use base64::{DecodeAllocError, DecodeError, DecodeSliceError};
use std::alloc::{AllocError, AllocFailed, Global};
use std::fmt;
use std::str::Utf8Error;
use std::string::FromUtf8Error;

/// An error, which holds its kind.
#[derive(Debug, Drop)]
pub struct Error {
    kind: ErrorKind,
}

/// The result of a call that can be refused.
pub type Result<T, E = Error> = std::result::Result<T, E>;

/// The kind of an error.
#[derive(Debug, Drop)]
pub enum ErrorKind {
    /// The token does not have three parts (RFC 7515 section 7.1), or `exp` is less than the time
    /// that must be left.
    InvalidToken,
    /// The signature is not the message's.
    InvalidSignature,
    /// The bytes are not an elliptic curve key.
    InvalidEcdsaKey,
    /// The bytes are not an Edwards curve key.
    InvalidEddsaKey,
    /// A provider could not sign with an RSA key.
    RsaFailedSigning,
    /// The string does not name an algorithm.
    InvalidAlgorithmName,
    /// The call does not support this algorithm.
    UnsupportedAlgorithm,
    /// The key is of another family or kind than the call asks for.
    InvalidKeyFormat,
    /// The token has expired (RFC 7519 section 4.1.4).
    ExpiredSignature,
    /// The issuer is not one of those that are accepted (RFC 7519 section 4.1.1).
    InvalidIssuer,
    /// The audience is not one of those that are accepted (RFC 7519 section 4.1.3).
    InvalidAudience,
    /// The subject is not the one that is accepted (RFC 7519 section 4.1.2).
    InvalidSubject,
    /// The token is not valid yet (RFC 7519 section 4.1.5).
    ImmatureSignature,
    /// The algorithm is not one of those that are asked for.
    InvalidAlgorithm,
    /// No algorithm is listed to choose from.
    MissingAlgorithm,
    /// The claim of this name is required, and is absent or malformed.
    MissingRequiredClaim(String),
    /// The claim of this name has a wrong type.
    InvalidClaimFormat(String),
    /// A provider refused an RSA key, for this reason.
    InvalidRsaKey(String),
    /// A provider could not sign, for this reason.
    Signing(String),
    /// A provider refused, or a file holds no public key, for this reason.
    Provider(String),
    /// The text is not canonical base64 (RFC 4648).
    Base64,
    /// The bytes or the value are not JSON of the expected form, or a value cannot be written as
    /// JSON.
    Json,
    /// The bytes are not UTF-8.
    Utf8,
    /// A request for memory was refused.
    OutOfMemory,
    /// A clock tells a time before 1970-01-01 00:00:00 UTC.
    ClockBeforeEpoch,
    /// The header's `crit` is malformed, or names an extension that is not understood (RFC 7515
    /// section 4.1.11).
    InvalidCrit,
    /// No key of the set has the header's `kid`.
    NoKey,
}

/// Returns the error of a kind.
pub fn new_error(kind: ErrorKind) -> Error
    ensures held { result.kind ≡ kind }
    ensures kind { kind_of result ≡ kind_held kind }
{
    Error { kind }
}

/// Returns the error of an algorithm that is not served, `UnsupportedAlgorithm`.
pub fn unsupported_algorithm() -> Error
    ensures { kind_of result ≡ kind.UnsupportedAlgorithm }
{
    new_error(ErrorKind::UnsupportedAlgorithm)
}

impl Error {
    /// Returns the kind that the error holds.
    pub fn kind(&self) -> &ErrorKind
        ensures held { result.now ≡ self.now.kind }
        ensures kind { kind_held result.now ≡ kind_of self.now }
    {
        &self.kind
    }

    /// Returns the kind, out of the error.
    pub fn into_kind(self) -> ErrorKind
        ensures held { result ≡ self.kind }
        ensures kind { kind_held result ≡ kind_of self }
    {
        let Error { kind } = self;
        kind
    }

    /// Returns a copy. The only refusal is `OutOfMemory`.
    pub fn clone(&self, alloc: Global) -> Result<Error>
        ensures ok { IfOk result (λ e. kind_of e ≡ kind_of self.now) }
        ensures err { IfErr result IsMemory }
    {
        Ok(new_error(self.kind.clone(alloc)?))
    }
}

impl ErrorKind {
    ghost use Rattle.jwt_base.specs.Kind.{kind_name};

    /// Returns the name of the kind, such as `MissingRequiredClaim`, without the string that it may
    /// hold.
    pub fn name(&self) -> &'static str
        ensures { result.now ≡ kind_name (kind_held self.now) }
    {
        match self {
            ErrorKind::InvalidToken => "InvalidToken",
            ErrorKind::InvalidSignature => "InvalidSignature",
            ErrorKind::InvalidEcdsaKey => "InvalidEcdsaKey",
            ErrorKind::InvalidEddsaKey => "InvalidEddsaKey",
            ErrorKind::RsaFailedSigning => "RsaFailedSigning",
            ErrorKind::InvalidAlgorithmName => "InvalidAlgorithmName",
            ErrorKind::UnsupportedAlgorithm => "UnsupportedAlgorithm",
            ErrorKind::InvalidKeyFormat => "InvalidKeyFormat",
            ErrorKind::ExpiredSignature => "ExpiredSignature",
            ErrorKind::InvalidIssuer => "InvalidIssuer",
            ErrorKind::InvalidAudience => "InvalidAudience",
            ErrorKind::InvalidSubject => "InvalidSubject",
            ErrorKind::ImmatureSignature => "ImmatureSignature",
            ErrorKind::InvalidAlgorithm => "InvalidAlgorithm",
            ErrorKind::MissingAlgorithm => "MissingAlgorithm",
            ErrorKind::MissingRequiredClaim(_) => "MissingRequiredClaim",
            ErrorKind::InvalidClaimFormat(_) => "InvalidClaimFormat",
            ErrorKind::InvalidRsaKey(_) => "InvalidRsaKey",
            ErrorKind::Signing(_) => "Signing",
            ErrorKind::Provider(_) => "Provider",
            ErrorKind::Base64 => "Base64",
            ErrorKind::Json => "Json",
            ErrorKind::Utf8 => "Utf8",
            ErrorKind::OutOfMemory => "OutOfMemory",
            ErrorKind::ClockBeforeEpoch => "ClockBeforeEpoch",
            ErrorKind::InvalidCrit => "InvalidCrit",
            ErrorKind::NoKey => "NoKey",
        }
    }

    /// Returns a copy. The only refusal is `OutOfMemory`.
    pub fn clone(&self, alloc: Global) -> Result<ErrorKind>
        ensures ok { IfOk result (λ k. kind_held k ≡ kind_held self.now) }
        ensures err { IfErr result IsMemory }
    {
        match self {
            ErrorKind::MissingRequiredClaim(claim) => Ok(ErrorKind::MissingRequiredClaim(copy_text(
                alloc,
                claim.as_str(),
            )?)),
            ErrorKind::InvalidClaimFormat(claim) => Ok(ErrorKind::InvalidClaimFormat(copy_text(
                alloc,
                claim.as_str(),
            )?)),
            ErrorKind::InvalidRsaKey(message) => Ok(ErrorKind::InvalidRsaKey(copy_text(
                alloc,
                message.as_str(),
            )?)),
            ErrorKind::Signing(message) => Ok(ErrorKind::Signing(copy_text(
                alloc,
                message.as_str(),
            )?)),
            ErrorKind::Provider(message) => Ok(ErrorKind::Provider(copy_text(
                alloc,
                message.as_str(),
            )?)),
            ErrorKind::InvalidToken => Ok(ErrorKind::InvalidToken),
            ErrorKind::InvalidSignature => Ok(ErrorKind::InvalidSignature),
            ErrorKind::InvalidEcdsaKey => Ok(ErrorKind::InvalidEcdsaKey),
            ErrorKind::InvalidEddsaKey => Ok(ErrorKind::InvalidEddsaKey),
            ErrorKind::RsaFailedSigning => Ok(ErrorKind::RsaFailedSigning),
            ErrorKind::InvalidAlgorithmName => Ok(ErrorKind::InvalidAlgorithmName),
            ErrorKind::UnsupportedAlgorithm => Ok(ErrorKind::UnsupportedAlgorithm),
            ErrorKind::InvalidKeyFormat => Ok(ErrorKind::InvalidKeyFormat),
            ErrorKind::ExpiredSignature => Ok(ErrorKind::ExpiredSignature),
            ErrorKind::InvalidIssuer => Ok(ErrorKind::InvalidIssuer),
            ErrorKind::InvalidAudience => Ok(ErrorKind::InvalidAudience),
            ErrorKind::InvalidSubject => Ok(ErrorKind::InvalidSubject),
            ErrorKind::ImmatureSignature => Ok(ErrorKind::ImmatureSignature),
            ErrorKind::InvalidAlgorithm => Ok(ErrorKind::InvalidAlgorithm),
            ErrorKind::MissingAlgorithm => Ok(ErrorKind::MissingAlgorithm),
            ErrorKind::Base64 => Ok(ErrorKind::Base64),
            ErrorKind::Json => Ok(ErrorKind::Json),
            ErrorKind::Utf8 => Ok(ErrorKind::Utf8),
            ErrorKind::OutOfMemory => Ok(ErrorKind::OutOfMemory),
            ErrorKind::ClockBeforeEpoch => Ok(ErrorKind::ClockBeforeEpoch),
            ErrorKind::InvalidCrit => Ok(ErrorKind::InvalidCrit),
            ErrorKind::NoKey => Ok(ErrorKind::NoKey),
        }
    }
}

impl ErrorKind {
    ghost use Rattle.std.specs.Prelude.{◌++◌};
    ghost use Rattle.jwt_base.specs.Kind.{text_of};
    ghost use Rattle.jwt_base.specs.equality.KindEq.{number_of_held, text_of_held};

    // Returns the place in the list of kinds, by which equality tells kinds apart.
    fn number(&self) -> u8
        ensures { result ≡ number_of_held self.now }
    {
        match self {
            ErrorKind::InvalidToken => 0,
            ErrorKind::InvalidSignature => 1,
            ErrorKind::InvalidEcdsaKey => 2,
            ErrorKind::InvalidEddsaKey => 3,
            ErrorKind::RsaFailedSigning => 4,
            ErrorKind::InvalidAlgorithmName => 5,
            ErrorKind::UnsupportedAlgorithm => 6,
            ErrorKind::InvalidKeyFormat => 7,
            ErrorKind::ExpiredSignature => 8,
            ErrorKind::InvalidIssuer => 9,
            ErrorKind::InvalidAudience => 10,
            ErrorKind::InvalidSubject => 11,
            ErrorKind::ImmatureSignature => 12,
            ErrorKind::InvalidAlgorithm => 13,
            ErrorKind::MissingAlgorithm => 14,
            ErrorKind::MissingRequiredClaim(_) => 15,
            ErrorKind::InvalidClaimFormat(_) => 16,
            ErrorKind::InvalidRsaKey(_) => 17,
            ErrorKind::Signing(_) => 18,
            ErrorKind::Provider(_) => 19,
            ErrorKind::Base64 => 20,
            ErrorKind::Json => 21,
            ErrorKind::Utf8 => 22,
            ErrorKind::OutOfMemory => 23,
            ErrorKind::ClockBeforeEpoch => 24,
            ErrorKind::InvalidCrit => 25,
            ErrorKind::NoKey => 26,
        }
    }

    fn held_text(&self) -> &str
        ensures { result.now ≡ text_of_held self.now }
    {
        match self {
            ErrorKind::MissingRequiredClaim(text) => text.as_str(),
            ErrorKind::InvalidClaimFormat(text) => text.as_str(),
            ErrorKind::InvalidRsaKey(text) => text.as_str(),
            ErrorKind::Signing(text) => text.as_str(),
            ErrorKind::Provider(text) => text.as_str(),
            _ => "",
        }
    }

    // Returns what is displayed before the string that the kind holds.
    fn message(&self) -> &'static str
        ensures { result.now ++ text_of_held self.now ≡ text_of (kind_held self.now) }
    {
        match self {
            ErrorKind::MissingRequiredClaim(_) => "Missing required claim: ",
            ErrorKind::InvalidClaimFormat(_) => "Invalid format for claim: ",
            ErrorKind::InvalidRsaKey(_) => "RSA key invalid: ",
            ErrorKind::Signing(_) => "Signing failed: ",
            ErrorKind::Provider(_) => "Custom provider error: ",
            ErrorKind::Base64 => "Base64 error",
            ErrorKind::Json => "JSON error",
            ErrorKind::Utf8 => "UTF-8 error",
            ErrorKind::OutOfMemory => "Out of memory",
            ErrorKind::ClockBeforeEpoch => "Clock before 1970",
            _ => self.name(),
        }
    }
}

/// Compares the kinds and the strings that they hold.
impl PartialEq for ErrorKind {
    ghost use Rattle.std.specs.Prelude.{◌≡◌, ◌↔◌, IsTrue};
    ghost use Rattle.std.specs.Cmp.{partial_equiv_from_equiv};
    ghost use Rattle.jwt_base.specs.KindOf.{kind_held};
    ghost use Rattle.jwt_base.specs.equality.KindEq.{kind_eq, kind_eq_equiv};

    ghost eq = { kind_eq };

    ghost laws = { partial_equiv_from_equiv kind_eq_equiv };

    fn eq(&self, other: &ErrorKind) -> bool
        ensures test { result ≡ kind_eq self.now other.now }
        ensures same { IsTrue result ↔ (kind_held self.now ≡ kind_held other.now) }
    {
        self.number() == other.number() && self.held_text() == other.held_text()
    }
}

impl Eq for ErrorKind {
    ghost use Rattle.jwt_base.specs.equality.KindEq.{kind_eq_equiv};

    ghost laws = { kind_eq_equiv };
}

/// Compares the kinds and the strings that they hold.
impl PartialEq for Error {
    ghost use Rattle.std.specs.Prelude.{◌≡◌, ◌↔◌, IsTrue};
    ghost use Rattle.std.specs.Cmp.{partial_equiv_from_equiv};
    ghost use Rattle.jwt_base.specs.KindOf.{kind_of};
    ghost use Rattle.jwt_base.specs.equality.KindEq.{error_eq, error_eq_equiv};

    ghost eq = { error_eq };

    ghost laws = { partial_equiv_from_equiv error_eq_equiv };

    fn eq(&self, other: &Error) -> bool
        ensures test { result ≡ error_eq self.now other.now }
        ensures same { IsTrue result ↔ (kind_of self.now ≡ kind_of other.now) }
    {
        self.kind == other.kind
    }
}

impl Eq for Error {
    ghost use Rattle.jwt_base.specs.equality.KindEq.{error_eq_equiv};

    ghost laws = { error_eq_equiv };
}

impl From<ErrorKind> for Error {
    ghost from_gives = { λ k e. kind_of e ≡ kind_held k };

    fn from(kind: ErrorKind) -> Error {
        new_error(kind)
    }
}

impl From<AllocError> for Error {
    ghost from_gives = { λ _ e. IsMemory e };

    fn from(_refused: AllocError) -> Error {
        new_error(ErrorKind::OutOfMemory)
    }
}

impl<T: Drop> From<AllocFailed<T>> for Error {
    ghost from_gives = { λ _ e. IsMemory e };

    fn from(_refused: AllocFailed<T>) -> Error {
        new_error(ErrorKind::OutOfMemory)
    }
}

impl From<DecodeError> for Error {
    ghost from_gives = { λ _ e. kind_of e ≡ kind.Base64 };

    fn from(_refused: DecodeError) -> Error {
        new_error(ErrorKind::Base64)
    }
}

impl From<DecodeSliceError> for Error {
    ghost from_gives = { λ _ e. kind_of e ≡ kind.Base64 };

    fn from(_refused: DecodeSliceError) -> Error {
        new_error(ErrorKind::Base64)
    }
}

impl From<DecodeAllocError> for Error {
    ghost use Rattle.jwt_base.specs.Faults.{base64_kind};

    ghost from_gives = { λ refused e. kind_of e ≡ base64_kind refused };

    fn from(refused: DecodeAllocError) -> Error {
        match refused {
            DecodeAllocError::OutOfMemory => new_error(ErrorKind::OutOfMemory),
            DecodeAllocError::DecodeError(_) => new_error(ErrorKind::Base64),
        }
    }
}

impl From<serde_json::Error> for Error {
    ghost use Rattle.jwt_base.specs.Faults.{IsJsonFault};

    ghost from_gives = { IsJsonFault };

    fn from(refused: serde_json::Error) -> Error {
        if refused.is_memory() {
            new_error(ErrorKind::OutOfMemory)
        } else {
            new_error(ErrorKind::Json)
        }
    }
}

impl From<Utf8Error> for Error {
    ghost from_gives = { λ _ e. kind_of e ≡ kind.Utf8 };

    fn from(_refused: Utf8Error) -> Error {
        new_error(ErrorKind::Utf8)
    }
}

impl From<FromUtf8Error<Global>> for Error {
    ghost from_gives = { λ _ e. kind_of e ≡ kind.Utf8 };

    fn from(_refused: FromUtf8Error<Global>) -> Error {
        new_error(ErrorKind::Utf8)
    }
}

impl fmt::Display for ErrorKind {
    ghost use Rattle.std.specs.Prelude.{Some};
    ghost use Rattle.jwt_base.specs.Kind.{text_of};
    ghost use Rattle.jwt_base.specs.KindOf.{kind_held};

    ghost output = { λ k. Some (text_of (kind_held k)) };

    fn fmt<W: fmt::Write>(&self, f: &mut fmt::Formatter<W>) -> fmt::Result {
        let (message, text) = (self.message(), self.held_text());
        write!(f, "{message}{text}")
    }
}

impl fmt::Display for Error {
    ghost use Rattle.std.specs.Prelude.{Some};
    ghost use Rattle.jwt_base.specs.Kind.{text_of};
    ghost use Rattle.jwt_base.specs.KindOf.{kind_of};

    ghost output = { λ e. Some (text_of (kind_of e)) };

    fn fmt<W: fmt::Write>(&self, f: &mut fmt::Formatter<W>) -> fmt::Result {
        let kind = &self.kind;
        write!(f, "{kind}")
    }
}

fn copy_text(alloc: Global, text: &str) -> Result<String>
    ensures ok { IfOk result (λ t. string_bytes t ≡ text.now) }
    ensures err { IfErr result IsMemory }
{
    Ok(String::from_str(alloc, text)?)
}
