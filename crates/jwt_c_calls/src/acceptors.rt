//! A verifier with the further rules of its options.

// Handles of several threads share the verifier, and have a copy of the rules each.

ghost use Rattle.std.specs.Prelude.{◌≡◌, ◌++◌, IfOk};
ghost use Rattle.jwt_c_calls.specs.Acceptors.{accepting, accepting_all, made_value};

use jsonwebtoken::errors::Result as Checked;
use jwt_further::Further;
use jwt_verifier::{Verifier, sendable};
use std::alloc::Global;
use std::sync::Arc;

/// A verifier that was made, and the further rules of its options.
#[derive(Drop)]
pub struct Made {
    pub verifier: Verifier,
    pub further: Further,
}

/// One of the holders of a verifier, which is freed with the last, and the further rules.
#[derive(Drop)]
pub struct Acceptor {
    pub verifier: Arc<Verifier, Global>,
    pub further: Further,
}

impl Acceptor {
    /// Returns the first holder.
    pub fn of(alloc: Global, made: Made) -> Checked<Acceptor>
        ensures { IfOk result (λ a. accepting a ≡ made_value made) }
    {
        let Made { verifier, further } = made;
        let verifier = Arc::new(alloc, verifier)?;
        Ok(Acceptor {
            verifier: sendable(verifier),
            further,
        })
    }

    /// Returns one more holder.
    pub fn share(&self, alloc: Global) -> Checked<Acceptor>
        ensures { IfOk result (λ a. accepting a ≡ accepting self.now) }
    {
        Ok(Acceptor {
            verifier: Arc::try_clone(&self.verifier)?,
            further: self.further.clone(alloc)?,
        })
    }
}

/// Returns one more holder of each, after those that the list has.
pub fn share_all(
    alloc: Global,
    acceptors: &[Acceptor],
    mut list: Vec<Acceptor>,
) -> Checked<Vec<Acceptor>>
    ensures { IfOk result (λ l. accepting_all l.items ≡ accepting_all list.items ++ accepting_all acceptors.now) }
{
    for acceptor in acceptors {
        list.push(acceptor.share(alloc)?)?;
    }
    Ok(list)
}
