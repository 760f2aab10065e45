//! What a handle holds: keys, or one or several verifiers.

// Threads share a verifier by a handle each: a count, and no copy of keys. The kit's rule for C is
// that a handle is given to one call at a time.

ghost use Rattle.std.specs.Prelude.{◌≡◌, ◌++◌, ◌∷◌, [], IfOk, MatchOption, None, Some};
ghost use Rattle.jwt_c_calls.specs.Acceptors.{accepting, accepting_all, made_value};
ghost use Rattle.jwt_c_calls.specs.Contents.{acceptors_in, keys_in, AreJoined};

use crate::acceptors::{Acceptor, Made, share_all};
use crate::held_keys::HeldKeys;
use jsonwebtoken::errors::Result as Checked;
use std::alloc::Global;

/// Keys; or holders of verifiers, each of which is freed with the last of its own. A token is offered
/// to the first verifier, and to each other one if those before it refuse the token.
#[derive(Drop)]
pub enum Content {
    Keys(HeldKeys),
    Verifier(Acceptor, Vec<Acceptor>),
}

impl Content {
    /// Returns the first holder of a verifier.
    pub fn of_made(alloc: Global, made: Made) -> Checked<Content>
        ensures { IfOk result (λ c. acceptors_in (Some c) ≡ Some (made_value made ∷ [])) }
    {
        let first = Acceptor::of(alloc, made)?;
        Ok(Content::Verifier(first, Vec::new(alloc)))
    }

    /// Returns one more holder of each verifier, or a copy of keys.
    pub fn share(&self, alloc: Global) -> Checked<Content>
        ensures keys { IfOk result (λ c. keys_in (Some c) ≡ keys_in (Some self.now)) }
        ensures verifiers { IfOk result (λ c. acceptors_in (Some c) ≡ acceptors_in (Some self.now)) }
    {
        match self {
            Content::Keys(keys) => Ok(Content::Keys(keys.clone(alloc)?)),
            Content::Verifier(first, others) => {
                let first = first.share(alloc)?;
                Ok(Content::Verifier(first, share_all(alloc, others.as_slice(), Vec::new(alloc))?))
            }
        }
    }

    /// Returns a holder of the verifiers of the one, and then of those of the other, if both have
    /// verifiers.
    pub fn joined(&self, alloc: Global, other: &Content) -> Checked<Option<Content>>
        ensures { IfOk result (λ c. AreJoined (acceptors_in (Some self.now))
            (acceptors_in (Some other.now)) c) }
    {
        let Content::Verifier(first, others) = self else {
            return Ok(None);
        };
        let Content::Verifier(next, last) = other else {
            return Ok(None);
        };
        let first = first.share(alloc)?;
        let mut all = share_all(alloc, others.as_slice(), Vec::new(alloc))?;
        all.push(next.share(alloc)?)?;
        Ok(Some(Content::Verifier(first, share_all(alloc, last.as_slice(), all)?)))
    }
}
