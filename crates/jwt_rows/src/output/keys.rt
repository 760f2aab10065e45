//! Keys: an object of the family and the bytes, or of the family and the two numbers of RSA.

use crate::answer::{Answer, Shown};
use crate::output::{Bytes, Output};
use jsonwebtoken::jwk::EllipticCurve;
use jsonwebtoken::{DecodingKey, DecodingKeyKind, EncodingKey};
use std::alloc::Global;

impl Output for EncodingKey {
    fn show(&self, alloc: Global) -> Answer {
        let mut shown = Shown::new(alloc);
        shown.add("family", &self.family());
        shown.add("bytes", &Bytes(self.as_bytes()));
        shown.end()
    }
}

impl Output for DecodingKey {
    fn show(&self, alloc: Global) -> Answer {
        let mut shown = Shown::new(alloc);
        shown.add("family", &self.family());
        add_kind(&mut shown, self.kind());
        shown.end()
    }
}

impl Output for DecodingKeyKind {
    fn show(&self, alloc: Global) -> Answer {
        let mut shown = Shown::new(alloc);
        add_kind(&mut shown, self);
        shown.end()
    }
}

/// A point on a curve.
impl Output for (EllipticCurve, Vec<u8>, Vec<u8>) {
    fn show(&self, alloc: Global) -> Answer {
        let mut shown = Shown::new(alloc);
        shown.add("crv", &self.0);
        shown.add("x", &self.1);
        shown.add("y", &self.2);
        shown.end()
    }
}

// Adds the content of a key: its bytes, or its two numbers.
fn add_kind(shown: &mut Shown, kind: &DecodingKeyKind) {
    match kind {
        DecodingKeyKind::SecretOrDer(bytes) => shown.add("bytes", bytes),
        DecodingKeyKind::RsaModulusExponent { n, e } => {
            shown.add("n", n);
            shown.add("e", e);
        }
    }
}
