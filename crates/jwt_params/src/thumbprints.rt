//! The hashes of thumbprints.

/// A hash function for thumbprints (RFC 7638 section 3.4).
#[derive(Clone, Debug, PartialEq, Eq, Drop)]
pub enum ThumbprintHash {
    /// SHA-256.
    SHA256,
    /// SHA-384.
    SHA384,
    /// SHA-512.
    SHA512,
}
