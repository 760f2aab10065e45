//! What a verifier allows its keys and its tokens.

// The bound on a token's length is the verifier's, and no option of `Validation`, whose members are
// those of the crate that this is a port of. It is compared before anything is read: reading a
// header takes some 25 times its length in memory.

ghost use Rattle.std.specs.Prelude.{◌≡◌};
ghost use Rattle.jwt_verifier.specs.Fitness.{token_limit, usual_limits};

/// The greatest length of a token in bytes, unless the maker of a verifier sets another: 1 MiB.
pub const TOKEN_LIMIT: usize = 1_048_576;

/// The greatest number of bytes of prepared keys, unless the maker of a verifier sets another: 64 MiB.
pub const PREPARED_LIMIT: usize = 67_108_864;

/// What a verifier allows its keys and its tokens.
#[derive(Clone, Copy)]
pub struct Limits {
    /// The greatest length of a token, in bytes. Reading a token allocates memory in proportion
    /// to it.
    pub max_len: usize,
    /// Whether keys with which anyone can sign are allowed: secrets whose bytes are all 0, as in
    /// the empty one (RFC 2104 section 2).
    pub allows_blank: bool,
    /// The greatest number of bytes of prepared keys. Keys beyond it verify too, with the same
    /// result, and take longer. With 0 nothing is prepared, which is for a verifier of one token: to
    /// prepare a key takes as long as one or two verifications.
    pub max_prepared: usize,
}

impl Limits {
    /// Returns the limits of [`Verifier::new`](crate::Verifier::new): tokens of up to
    /// [`TOKEN_LIMIT`] bytes, no key with which anyone can sign, and up to [`PREPARED_LIMIT`] bytes
    /// of prepared keys.
    pub fn new() -> Limits
        ensures { result ≡ usual_limits }
    {
        Limits {
            max_len: TOKEN_LIMIT,
            allows_blank: false,
            max_prepared: PREPARED_LIMIT,
        }
    }
}
