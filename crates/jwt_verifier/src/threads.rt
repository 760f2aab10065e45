//! Verifiers that several threads share.

ghost use Rattle.std.specs.Prelude.{◌≡◌};

use crate::verifier::Verifier;
use std::alloc::Global;
use std::sync::Arc;

/// Returns the verifier, which may go to another thread while others have it too: this is proved
/// here, where the prover sees what a verifier consists of.
pub fn sendable(verifier: Arc<Verifier, Global>) -> Arc<Verifier, Global>
    ensures { result ≡ verifier }
{
    sendable_value(verifier)
}

fn sendable_value<T: Send>(value: T) -> T
    ensures { result ≡ value }
{
    value
}
