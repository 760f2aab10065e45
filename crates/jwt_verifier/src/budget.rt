//! How many bytes of prepared keys a ring may still keep.

ghost use Rattle.std.specs.Prelude.{◌≡◌, ◌⊎◌, ◌<◌, ◌+◌, IsTrue};

/// The bytes that are left.
#[derive(Drop)]
pub(crate) struct Budget {
    pub(crate) left: usize,
}

impl Budget {
    /// Takes this number of bytes, if as many are left.
    pub(crate) fn take(&mut self, bytes: usize) -> bool
        ensures { (IsTrue result × (self.new.left + bytes ≡ self.old.left))
            ⊎ ((¬ IsTrue result) × (self.new.left ≡ self.old.left) × (self.old.left < bytes)) }
    {
        if self.left < bytes {
            return false;
        }
        self.left -= bytes;
        true
    }
}
