//! Validations: the JSON object that `Validation::from_value` reads, with a set as the sorted list
//! of its members, and null for a field that is not configured.

use crate::answer::{Answer, Shown};
use crate::output::{List, Output};
use jsonwebtoken::Validation;
use std::alloc::Global;
use std::collections::HashSet;

impl Output for Validation {
    fn show(&self, alloc: Global) -> Answer {
        let mut shown = Shown::new(alloc);
        let least = self.reject_tokens_expiring_in_less_than;
        shown.add("validate_exp", &self.validate_exp);
        shown.add("validate_nbf", &self.validate_nbf);
        shown.add("validate_aud", &self.validate_aud);
        shown.add("leeway", &self.leeway);
        shown.add("reject_tokens_expiring_in_less_than", &least);
        shown.add("aud", &self.aud);
        shown.add("iss", &self.iss);
        shown.add("required_spec_claims", &self.required_spec_claims);
        shown.add("understood_crit", &self.understood_crit);
        shown.add("sub", &self.sub);
        shown.add("algorithms", &List(self.algorithms.as_slice()));
        shown.end()
    }
}

impl Output for HashSet<String> {
    fn show(&self, alloc: Global) -> Answer {
        let mut members = Vec::new(alloc);
        for member in self.iter() {
            members.push(member.as_str()).ok()?;
        }
        members.sort_unstable();
        List(members.as_slice()).show(alloc)
    }
}
