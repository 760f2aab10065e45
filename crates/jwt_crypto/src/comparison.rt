//! A comparison that does not stop early.

// Bytes are compared by a fold without an early stop, in the verifiers and in the search for a
// prepared secret. No contract speaks of time; docs/SPEED.md tells what the built code does.

ghost use Rattle.std.specs.Prelude.{◌≡◌, ◌↔◌, IsTrue};

/// Returns whether the two are the same. If their lengths are, every byte of both is read, and no
/// branch depends on their bytes. Allocates no memory.
pub fn is_same(expected: &[u8], given: &[u8]) -> bool
    ensures { IsTrue result ↔ (given.now ≡ expected.now) }
{
    if expected.len() != given.len() {
        return false;
    }
    let mut difference = 0u8;
    for i in 0..expected.len() {
        difference |= expected[i] ^ given[i];
    }
    difference == 0
}
