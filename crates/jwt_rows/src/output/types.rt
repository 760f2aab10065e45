//! Types that have a JSON value: this value; with the kind of the key, where there is a key.

use crate::answer::{Answer, Shown, string};
use crate::output::{List, Output};
use jsonwebtoken::jwk::{
    AlgorithmParameters, CommonParameters, EllipticCurveKeyParameters, FreeMembers, Jwk, JwkSet,
    OctetKeyPairParameters, OctetKeyParameters, OtherKeyParameters, RSAKeyParameters,
};
use jsonwebtoken::{Extras, Header};
use std::alloc::Global;

impl Output for CommonParameters {
    fn show(&self, alloc: Global) -> Answer {
        self.to_value(alloc).ok()
    }
}

impl Output for EllipticCurveKeyParameters {
    fn show(&self, alloc: Global) -> Answer {
        self.to_value(alloc).ok()
    }
}

impl Output for RSAKeyParameters {
    fn show(&self, alloc: Global) -> Answer {
        self.to_value(alloc).ok()
    }
}

impl Output for OctetKeyParameters {
    fn show(&self, alloc: Global) -> Answer {
        self.to_value(alloc).ok()
    }
}

impl Output for OctetKeyPairParameters {
    fn show(&self, alloc: Global) -> Answer {
        self.to_value(alloc).ok()
    }
}

impl Output for OtherKeyParameters {
    fn show(&self, alloc: Global) -> Answer {
        self.to_value(alloc).ok()
    }
}

impl Output for FreeMembers {
    fn show(&self, alloc: Global) -> Answer {
        self.inner().show(alloc)
    }
}

impl Output for Extras {
    fn show(&self, alloc: Global) -> Answer {
        self.inner().show(alloc)
    }
}

impl Output for AlgorithmParameters {
    fn show(&self, alloc: Global) -> Answer {
        let mut shown = Shown::new(alloc);
        shown.put("kind", kind(alloc, self));
        shown.put("value", self.to_value(alloc).ok());
        shown.end()
    }
}

impl Output for Jwk {
    fn show(&self, alloc: Global) -> Answer {
        let mut shown = Shown::new(alloc);
        shown.put("kind", kind(alloc, &self.algorithm));
        shown.put("value", self.to_value(alloc).ok());
        shown.end()
    }
}

impl Output for &Jwk {
    fn show(&self, alloc: Global) -> Answer {
        (*self).show(alloc)
    }
}

impl Output for JwkSet {
    fn show(&self, alloc: Global) -> Answer {
        List(self.keys.as_slice()).show(alloc)
    }
}

impl Output for Header {
    fn show(&self, alloc: Global) -> Answer {
        let Some(key) = &self.jwk else {
            return self.to_value(alloc).ok();
        };
        let mut shown = Shown::new(alloc);
        shown.put("jwk", kind(alloc, &key.algorithm));
        shown.put("value", self.to_value(alloc).ok());
        shown.end()
    }
}

// Returns the name of the kind of these parameters.
fn kind(alloc: Global, parameters: &AlgorithmParameters) -> Answer {
    let name = match parameters {
        AlgorithmParameters::EllipticCurve(_) => "EllipticCurve",
        AlgorithmParameters::RSA(_) => "RSA",
        AlgorithmParameters::OctetKey(_) => "OctetKey",
        AlgorithmParameters::OctetKeyPair(_) => "OctetKeyPair",
        AlgorithmParameters::Other(_) => "Other",
    };
    string(alloc, name)
}
