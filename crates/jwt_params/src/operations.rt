//! The operations that a key may be used for.

ghost use Rattle.std.specs.Prelude.{◌≡◌, Some, None, IfOk, IfErr};
ghost use Rattle.serde_json.specs.View.{view};
ghost use Rattle.jwt_base.specs.Kind as kind;
ghost use Rattle.jwt_base.specs.KindOf.{IsMemory, RefusesAs};

use jwt_base::cloning::CloneIn;
use jwt_base::errors::{ErrorKind, Result, new_error};
use jwt_base::text::Text;
use serde_json::Value;
use std::alloc::Global;
use std::hash::{Hash, Hasher};
use std::marker::Model;

/// An operation that a key may be used for, an entry of `key_ops` (RFC 7517 section 4.3).
#[derive(Debug, Drop, Eq)]
pub enum KeyOperations {
    /// Compute a signature or a MAC, `sign`.
    Sign,
    /// Verify a signature or a MAC, `verify`.
    Verify,
    /// Encrypt content, `encrypt`.
    Encrypt,
    /// Decrypt content, `decrypt`.
    Decrypt,
    /// Encrypt a key, `wrapKey`.
    WrapKey,
    /// Decrypt a key, `unwrapKey`.
    UnwrapKey,
    /// Derive a key, `deriveKey`.
    DeriveKey,
    /// Derive bits that are not a key, `deriveBits`.
    DeriveBits,
    /// Any other name.
    Other(Text),
}

impl KeyOperations {
    ghost use Rattle.jwt_params.specs.Operation.{operation_text, operation_named, operation_from};
    ghost use Rattle.jwt_params.specs.Operation.{operation_value, normal_operation};
    ghost use Rattle.jwt_params.specs.Operation.{is_other_operation};

    /// Returns the name as a JSON string. The only refusal is `OutOfMemory`.
    pub fn to_value(&self, alloc: Global) -> Result<Value>
        ensures ok { IfOk result (λ v. view v ≡ operation_value self.now) }
        ensures reads_back { IfOk result (λ v. operation_from (view v)
            ≡ Some (normal_operation self.now)) }
        ensures err { IfErr result IsMemory }
    {
        Ok(Value::try_from_str(alloc, self.as_str())?)
    }

    /// Returns the operation that a JSON string names: one of the eight known ones, or `Other`. A
    /// value that is not a string is refused with `Json`.
    pub fn from_value(alloc: Global, value: &Value) -> Result<KeyOperations>
        ensures ok { IfOk result (λ o. operation_from (view value.now) ≡ Some o) }
        ensures err { IfErr result (RefusesAs kind.Json (operation_from (view value.now) ≡ None)) }
    {
        let name = value.as_str().ok_or(new_error(ErrorKind::Json))?;
        KeyOperations::from_name(alloc, name)
    }

    /// Returns a copy. The only refusal is `OutOfMemory`.
    pub fn clone(&self, alloc: Global) -> Result<KeyOperations>
        ensures ok { IfOk result (λ o. o ≡ self.now) }
        ensures err { IfErr result IsMemory }
    {
        Ok(match self {
            KeyOperations::Sign => KeyOperations::Sign,
            KeyOperations::Verify => KeyOperations::Verify,
            KeyOperations::Encrypt => KeyOperations::Encrypt,
            KeyOperations::Decrypt => KeyOperations::Decrypt,
            KeyOperations::WrapKey => KeyOperations::WrapKey,
            KeyOperations::UnwrapKey => KeyOperations::UnwrapKey,
            KeyOperations::DeriveKey => KeyOperations::DeriveKey,
            KeyOperations::DeriveBits => KeyOperations::DeriveBits,
            KeyOperations::Other(name) => KeyOperations::Other(name.clone(alloc)?),
        })
    }

    fn as_str(&self) -> &str
        ensures { result.now ≡ operation_text self.now }
    {
        match self {
            KeyOperations::Sign => "sign",
            KeyOperations::Verify => "verify",
            KeyOperations::Encrypt => "encrypt",
            KeyOperations::Decrypt => "decrypt",
            KeyOperations::WrapKey => "wrapKey",
            KeyOperations::UnwrapKey => "unwrapKey",
            KeyOperations::DeriveKey => "deriveKey",
            KeyOperations::DeriveBits => "deriveBits",
            KeyOperations::Other(name) => name.as_str(),
        }
    }

    fn from_name(alloc: Global, name: &str) -> Result<KeyOperations>
        ensures ok { IfOk result (λ o. o ≡ operation_named name.now) }
        ensures err { IfErr result IsMemory }
    {
        Ok(match name {
            "sign" => KeyOperations::Sign,
            "verify" => KeyOperations::Verify,
            "encrypt" => KeyOperations::Encrypt,
            "decrypt" => KeyOperations::Decrypt,
            "wrapKey" => KeyOperations::WrapKey,
            "unwrapKey" => KeyOperations::UnwrapKey,
            "deriveKey" => KeyOperations::DeriveKey,
            "deriveBits" => KeyOperations::DeriveBits,
            _ => KeyOperations::Other(Text::from_str(alloc, name)?),
        })
    }

    fn is_other(&self) -> bool
        ensures { result ≡ is_other_operation self.now }
    {
        matches!(self, KeyOperations::Other(_))
    }
}

impl PartialEq for KeyOperations {
    ghost use Rattle.std.specs.Prelude.{◌≡◌, ◌↔◌, IsTrue};
    ghost use Rattle.std.specs.Cmp.{partial_equiv_from_equiv};
    ghost use Rattle.jwt_params.specs.equality.NamesSame.{operation_eq, operation_eq_equiv};

    ghost eq = { operation_eq };

    ghost laws = { partial_equiv_from_equiv operation_eq_equiv };

    fn eq(&self, other: &KeyOperations) -> bool
        ensures test { result ≡ operation_eq self.now other.now }
        ensures same { IsTrue result ↔ (self.now ≡ other.now) }
    {
        self.is_other() == other.is_other() && self.as_str() == other.as_str()
    }
}

impl Hash for KeyOperations {
    ghost use Rattle.jwt_params.specs.equality.NamesSame.{operation_fed, operation_alike};

    ghost hash_input = { operation_fed };

    ghost respects_eq = { operation_alike.fed };

    fn hash<H: Hasher>(&self, state: &mut H) {
        self.as_str().hash(state);
    }
}

/// The operations that a key may be used for, `key_ops` (RFC 7517 section 4.3), in order. A
/// contract sees the list.
#[derive(Debug, Drop)]
pub struct KeyOperationList {
    operations: Vec<KeyOperations>,
}

impl Model for KeyOperationList {
    ghost use Rattle.std.specs.Prelude.{List};
    ghost use Rattle.jwt_params.specs.declared.operations.KeyOperations.{KeyOperations};

    ghost Value = { List KeyOperations };

    ghost view = { λ l. l.operations.items };
}

impl KeyOperationList {
    ghost use Rattle.jwt_params.specs.Operation.{operations_from, operations_value};
    ghost use Rattle.jwt_params.specs.Operation.{normal_operations};

    /// Returns a list of copies of these operations, in order. The only refusal is `OutOfMemory`.
    pub fn from_slice(alloc: Global, operations: &[KeyOperations]) -> Result<KeyOperationList>
        ensures ok { IfOk result (λ l. l ≡ operations.now) }
        ensures err { IfErr result IsMemory }
    {
        let mut copies = Vec::new(alloc);
        for operation in operations {
            copies.push(operation.clone(alloc)?)?;
        }
        Ok(KeyOperationList { operations: copies })
    }

    /// Returns the operations, in order.
    pub fn as_slice(&self) -> &[KeyOperations]
        ensures { result.now ≡ self.now }
    {
        self.operations.as_slice()
    }

    /// Returns the operations as a `Vec`, which is not copied.
    pub fn into_vec(self) -> Vec<KeyOperations>
        ensures { result.items ≡ self }
    {
        let KeyOperationList { operations } = self;
        operations
    }

    /// Returns a copy. The only refusal is `OutOfMemory`.
    pub fn clone(&self, alloc: Global) -> Result<KeyOperationList>
        ensures ok { IfOk result (λ l. l ≡ self.now) }
        ensures err { IfErr result IsMemory }
    {
        KeyOperationList::from_slice(alloc, self.as_slice())
    }

    /// Returns the names as a JSON list. The only refusal is `OutOfMemory`.
    pub fn to_value(&self, alloc: Global) -> Result<Value>
        ensures ok { IfOk result (λ v. view v ≡ operations_value self.now) }
        ensures reads_back { IfOk result (λ v. operations_from (view v)
            ≡ Some (normal_operations self.now)) }
        ensures err { IfErr result IsMemory }
    {
        let mut items = Vec::new(alloc);
        for operation in self.as_slice() {
            items.push(Value::try_from_str(alloc, operation.as_str())?)?;
        }
        Ok(Value::Array(items))
    }

    /// Returns the operations that a JSON list of strings names. Any other value is refused with
    /// `Json`.
    pub fn from_value(alloc: Global, value: &Value) -> Result<KeyOperationList>
        ensures ok { IfOk result (λ l. operations_from (view value.now) ≡ Some l) }
        ensures err { IfErr result (RefusesAs kind.Json (operations_from (view value.now) ≡ None)) }
    {
        let items = value.as_array().ok_or(new_error(ErrorKind::Json))?;
        let mut operations = Vec::new(alloc);
        for item in items {
            operations.push(KeyOperations::from_value(alloc, item)?)?;
        }
        Ok(KeyOperationList { operations })
    }
}

impl CloneIn for KeyOperationList {
    fn clone_in(&self, alloc: Global) -> Result<KeyOperationList> {
        self.clone(alloc)
    }
}

impl From<Vec<KeyOperations>> for KeyOperationList {
    ghost from_gives = { λ v l. l ≡ v.items };

    fn from(operations: Vec<KeyOperations>) -> KeyOperationList {
        KeyOperationList { operations }
    }
}

impl PartialEq for KeyOperationList {
    ghost use Rattle.std.specs.Prelude.{◌≡◌, ◌↔◌, IsTrue};
    ghost use Rattle.std.specs.Cmp.{partial_equiv_from_equiv};
    ghost use Rattle.jwt_params.specs.equality.NamesSame.{operations_eq, operations_eq_equiv};

    ghost eq = { operations_eq };

    ghost laws = { partial_equiv_from_equiv operations_eq_equiv };

    fn eq(&self, other: &KeyOperationList) -> bool
        ensures test { result ≡ operations_eq self.now other.now }
        ensures same { IsTrue result ↔ (self.now ≡ other.now) }
    {
        self.is_same(other)
    }
}

impl KeyOperationList {
    ghost use Rattle.jwt_params.specs.equality.NamesSame.{operations_eq};

    // apart from `eq`, whose contract has two clauses over what this one finds
    fn is_same(&self, other: &KeyOperationList) -> bool
        ensures { result ≡ operations_eq self.now other.now }
    {
        self.operations == other.operations
    }
}

impl Eq for KeyOperationList {
    ghost use Rattle.jwt_params.specs.equality.NamesSame.{operations_eq_equiv};

    ghost laws = { operations_eq_equiv };
}

impl Hash for KeyOperationList {
    ghost use Rattle.jwt_params.specs.equality.NamesSame.{operations_fed, operations_alike};

    ghost hash_input = { operations_fed };

    ghost respects_eq = { operations_alike.fed };

    fn hash<H: Hasher>(&self, state: &mut H) {
        self.operations.hash(state);
    }
}
