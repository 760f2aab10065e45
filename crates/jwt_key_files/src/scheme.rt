//! The algorithms of keys, by their identifiers (RFC 3279, RFC 5480 and RFC 8410).

ghost use Rattle.std.specs.Prelude.{◌≡◌, ◌≢◌, MatchOption};
ghost use Rattle.jwt_key_files.specs.declared.scheme.Scheme.{Scheme};
ghost use Rattle.jwt_key_files.specs.PublicKeys.{identifier};

// An algorithm that public keys are for, with the curve of an elliptic curve key.
#[derive(Clone, Copy)]
pub(crate) enum Scheme {
    Rsa,
    P256,
    P384,
    Ed25519,
}

const RSA: [u8; 13] = [6, 9, 0x2a, 0x86, 0x48, 0x86, 0xf7, 0x0d, 1, 1, 1, 5, 0];

const P256: [u8; 19] = [
    6, 7, 0x2a, 0x86, 0x48, 0xce, 0x3d, 2, 1, 6, 8, 0x2a, 0x86, 0x48, 0xce, 0x3d, 3, 1, 7,
];

const P384: [u8; 16] = [
    6, 7, 0x2a, 0x86, 0x48, 0xce, 0x3d, 2, 1, 6, 5, 0x2b, 0x81, 4, 0, 0x22,
];

const ED25519: [u8; 5] = [6, 3, 0x2b, 0x65, 0x70];

// Returns the algorithm whose identifier has this content.
pub(crate) fn read_identifier(content: &[u8]) -> Option<Scheme>
    ensures { MatchOption result ((s : Scheme) → content.now ≢ identifier s)
        (λ s. content.now ≡ identifier s) }
{
    if content == RSA.as_slice() {
        return Some(Scheme::Rsa);
    }
    if content == P256.as_slice() {
        return Some(Scheme::P256);
    }
    if content == P384.as_slice() {
        return Some(Scheme::P384);
    }
    if content == ED25519.as_slice() {
        return Some(Scheme::Ed25519);
    }
    None
}
