//! Values that are known by their names: the name of a known value, or an object `{"other": ..}`
//! for any other.

use crate::answer::{Answer, object, string};
use crate::output::{List, Output};
use jsonwebtoken::jwk::{
    EllipticCurve, EllipticCurveKeyType, KeyAlgorithm, KeyOperationList, KeyOperations,
    OctetKeyPairType, OctetKeyType, PublicKeyUse, RSAKeyType,
};
use jsonwebtoken::{Algorithm, AlgorithmFamily, Enc, Text, Texts, Zip};
use std::alloc::Global;

impl Output for Text {
    fn show(&self, alloc: Global) -> Answer {
        string(alloc, self.as_str())
    }
}

impl Output for Texts {
    fn show(&self, alloc: Global) -> Answer {
        List(self.as_slice()).show(alloc)
    }
}

impl Output for Algorithm {
    fn show(&self, alloc: Global) -> Answer {
        string(alloc, self.name())
    }
}

impl Output for KeyAlgorithm {
    fn show(&self, alloc: Global) -> Answer {
        string(alloc, self.name())
    }
}

impl Output for AlgorithmFamily {
    fn show(&self, alloc: Global) -> Answer {
        self.to_value(alloc).ok()
    }
}

impl Output for PublicKeyUse {
    fn show(&self, alloc: Global) -> Answer {
        match self {
            PublicKeyUse::Other(name) => object(alloc, "other", name.show(alloc)),
            _ => self.to_value(alloc).ok(),
        }
    }
}

impl Output for KeyOperations {
    fn show(&self, alloc: Global) -> Answer {
        match self {
            KeyOperations::Other(name) => object(alloc, "other", name.show(alloc)),
            _ => self.to_value(alloc).ok(),
        }
    }
}

impl Output for KeyOperationList {
    fn show(&self, alloc: Global) -> Answer {
        List(self.as_slice()).show(alloc)
    }
}

impl Output for EllipticCurve {
    fn show(&self, alloc: Global) -> Answer {
        string(alloc, self.name())
    }
}

impl Output for EllipticCurveKeyType {
    fn show(&self, alloc: Global) -> Answer {
        string(alloc, self.name())
    }
}

impl Output for RSAKeyType {
    fn show(&self, alloc: Global) -> Answer {
        string(alloc, self.name())
    }
}

impl Output for OctetKeyType {
    fn show(&self, alloc: Global) -> Answer {
        string(alloc, self.name())
    }
}

impl Output for OctetKeyPairType {
    fn show(&self, alloc: Global) -> Answer {
        string(alloc, self.name())
    }
}

impl Output for Enc {
    fn show(&self, alloc: Global) -> Answer {
        match self {
            Enc::Other(name) => object(alloc, "other", name.show(alloc)),
            _ => self.to_value(alloc).ok(),
        }
    }
}

impl Output for Zip {
    fn show(&self, alloc: Global) -> Answer {
        match self {
            Zip::Other(name) => object(alloc, "other", name.show(alloc)),
            Zip::Deflate => self.to_value(alloc).ok(),
        }
    }
}
