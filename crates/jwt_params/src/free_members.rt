//! The members of keys of types that are not known here.

ghost use Rattle.std.specs.Prelude.{◌≡◌, ◌↔◌, IsTrue, true, false, IfOk, IfErr};
ghost use Rattle.serde_json.specs.View.{members_view};
ghost use Rattle.serde_json.specs.Written.{members_have_float};
ghost use Rattle.jwt_base.specs.Kind as kind;
ghost use Rattle.jwt_base.specs.KindOf.{IsMemory, RefusesAs};
ghost use Rattle.jwt_base.specs.Members.{has_named, without};
ghost use Rattle.jwt_params.specs.Common.{common_names};

use crate::common::common_names;
use jwt_base::errors::Result;
use jwt_base::json::equality::{any_member_has_float, hash_names, members_are_equal};
use jwt_base::json::members::{any_is_named, clone_members, members_without};
use serde_json::{Map, Value};
use std::alloc::Global;
use std::collections::BTreeMap;
use std::hash::{Hash, Hasher};
use std::marker::Model;

/// The members of a key whose type is not known here. A contract sees them in the order of their
/// names.
#[derive(Debug, Drop)]
pub struct FreeMembers {
    members: Map<String, Value>,
}

impl Model for FreeMembers {
    ghost use Rattle.serde_json.specs.Data.{Members};
    ghost use Rattle.serde_json.specs.View.{members_view};
    ghost use Rattle.jwt_base.specs.equality.DataCode.{coded_members};

    ghost Value = { Members };

    ghost coded = { coded_members };

    ghost view = { λ f. members_view f.members.entries };
}

impl FreeMembers {
    /// Returns the members.
    pub fn inner(&self) -> &BTreeMap<String, Value>
        ensures { members_view result.now.entries ≡ self.now }
    {
        &self.members
    }

    /// Returns the members as a map, which is not copied.
    pub fn into_map(self) -> BTreeMap<String, Value>
        ensures { members_view result.entries ≡ self }
    {
        let FreeMembers { members } = self;
        members
    }

    /// Returns a copy. The only refusal is `OutOfMemory`.
    pub fn clone(&self, _alloc: Global) -> Result<FreeMembers>
        ensures ok { IfOk result (λ f. f ≡ self.now) }
        ensures err { IfErr result IsMemory }
    {
        let members = self.copy_members()?;
        Ok(FreeMembers { members })
    }

    /// Returns the members of a key except those that keys of every type may have (RFC 7517
    /// section 4). A float among them is refused with `Json`.
    pub fn among(alloc: Global, members: &BTreeMap<String, Value>) -> Result<FreeMembers>
        ensures ok { IfOk result (λ f. f ≡ without common_names
            (members_view members.now.entries)) }
        ensures no_float { IfOk result (λ f. members_have_float f ≡ false) }
        ensures err { IfErr result (RefusesAs kind.Json
            (members_have_float (without common_names (members_view members.now.entries)) ≡ true)) }
    {
        let members = members_without(alloc, &common_names(), members)?;
        Ok(FreeMembers { members })
    }

    /// Returns whether one of the members has a name that keys of every type may have (RFC 7517
    /// section 4).
    pub fn has_common_name(&self) -> bool
        ensures { result ≡ has_named common_names self.now }
    {
        any_is_named(&common_names(), &self.members)
    }

    pub(crate) fn has_float(&self) -> bool
        ensures { result ≡ members_have_float self.now }
    {
        any_member_has_float(&self.members)
    }

    pub(crate) fn copy_members(&self) -> Result<Map<String, Value>>
        ensures ok { IfOk result (λ m. members_view m.entries ≡ self.now) }
        ensures err { IfErr result IsMemory }
    {
        clone_members(&self.members)
    }
}

impl From<BTreeMap<String, Value>> for FreeMembers {
    ghost from_gives = { λ m f. f ≡ members_view m.entries };

    fn from(members: BTreeMap<String, Value>) -> FreeMembers {
        FreeMembers { members }
    }
}

/// Compares the names and the values. Any two floats count as equal.
impl PartialEq for FreeMembers {
    ghost use Rattle.std.specs.Cmp.{partial_equiv_from_equiv};
    ghost use Rattle.jwt_base.specs.DataEq.{members_eq, members_marked};
    ghost use Rattle.jwt_base.specs.equality.DataEqLaws.{members_eq_equiv};

    ghost eq = { members_eq };

    ghost laws = { partial_equiv_from_equiv members_eq_equiv };

    fn eq(&self, other: &FreeMembers) -> bool
        ensures test { result ≡ members_eq self.now other.now }
        ensures same { IsTrue result ↔ (members_marked self.now ≡ members_marked other.now) }
    {
        members_are_equal(&self.members, &other.members)
    }
}

impl Eq for FreeMembers {
    ghost use Rattle.jwt_base.specs.equality.DataEqLaws.{members_eq_equiv};

    ghost laws = { members_eq_equiv };
}

/// Feeds the names alone.
impl Hash for FreeMembers {
    ghost use Rattle.jwt_base.specs.equality.NamesFed.{names_fed, names_alike};

    ghost hash_input = { names_fed };

    ghost respects_eq = { names_alike.fed };

    fn hash<H: Hasher>(&self, state: &mut H) {
        hash_names(&self.members, state);
    }
}
