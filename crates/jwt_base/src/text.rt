//! Strings that contracts see by their content, and not by where they lie in memory.

ghost use Rattle.std.specs.Prelude.{◌≡◌, IfOk, IfErr, string_bytes};
ghost use Rattle.std.specs.Str.{bytes_eq};
ghost use Rattle.std.specs.Cmp.Lexicographic.{pointwise};
ghost use Rattle.std.proofs.Common.{rules};
ghost use Rattle.std.specs.Cmp.Rules.{comparing, hashing};
ghost use Rattle.std.specs.Hash as fed;
ghost use Rattle.std.proofs.lemmas.Slice.Eq.{bytes_eq-Decides};
ghost use Rattle.jwt_base.specs.KindOf.{IsMemory};

use crate::cloning::CloneIn;
use crate::errors::Result;
use std::alloc::Global;
use std::fmt;
use std::hash::{Hash, Hasher};
use std::marker::Model;

/// A string. A contract sees its UTF-8 bytes.
#[derive(Drop)]
pub struct Text {
    string: String,
}

impl Model for Text {
    ghost use Rattle.std.specs.Prelude.{List, ℕ, string_bytes};

    ghost Value = { List ℕ };

    ghost view = { λ t. string_bytes t.string };
}

impl Text {
    /// Returns a `Text` with these characters. The only refusal is `OutOfMemory`.
    pub fn from_str(alloc: Global, text: &str) -> Result<Text>
        ensures ok { IfOk result (λ t. t ≡ text.now) }
        ensures err { IfErr result IsMemory }
    {
        Ok(Text {
            string: String::from_str(alloc, text)?,
        })
    }

    /// Returns a copy. The only refusal is `OutOfMemory`.
    pub fn clone(&self, alloc: Global) -> Result<Text>
        ensures ok { IfOk result (λ t. t ≡ self.now) }
        ensures err { IfErr result IsMemory }
    {
        Text::from_str(alloc, self.as_str())
    }

    /// Returns the characters.
    pub fn as_str(&self) -> &str
        ensures { result.now ≡ self.now }
    {
        self.string.as_str()
    }

    /// Returns the text as a `String`, which is not copied.
    pub fn into_string(self) -> String
        ensures { string_bytes result ≡ self }
    {
        let Text { string } = self;
        string
    }
}

impl CloneIn for Text {
    fn clone_in(&self, alloc: Global) -> Result<Text> {
        self.clone(alloc)
    }
}

impl From<String> for Text {
    ghost from_gives = { λ s t. t ≡ string_bytes s };

    fn from(string: String) -> Text {
        Text { string }
    }
}

impl PartialEq for Text {
    ghost eq = { bytes_eq };

    ghost laws = { Prim.search (comparing, rules) };

    fn eq(&self, other: &Text) -> bool {
        self.as_str() == other.as_str()
    }
}

impl Eq for Text {
    ghost laws = { Prim.search (comparing, rules) };
}

impl Hash for Text {
    ghost hash_input = { fed.str };

    ghost respects_eq = { Prim.search (hashing, rules) };

    fn hash<H: Hasher>(&self, state: &mut H) {
        self.as_str().hash(state);
    }
}

/// Shows the characters in quotes, as `str` does.
impl fmt::Debug for Text {
    fn fmt<W: fmt::Write>(&self, f: &mut fmt::Formatter<W>) -> fmt::Result {
        fmt::Debug::fmt(self.as_str(), f)
    }
}

/// A list of strings. A contract sees the list of their bytes.
#[derive(Drop)]
pub struct Texts {
    texts: Vec<Text>,
}

impl Model for Texts {
    ghost use Rattle.std.specs.Prelude.{List, ℕ};

    ghost Value = { List (List ℕ) };

    ghost view = { λ t. t.texts.items };
}

impl Texts {
    ghost use Rattle.std.specs.Prelude.{map};

    /// Returns the list of copies of these strings, in order. The only refusal is `OutOfMemory`.
    pub fn from_slice(alloc: Global, texts: &[&str]) -> Result<Texts>
        ensures ok { IfOk result (λ t. t ≡ map (λ s. s.now) texts.now) }
        ensures err { IfErr result IsMemory }
    {
        let mut list = Vec::new(alloc);
        for text in texts {
            list.push(Text::from_str(alloc, text)?)?;
        }
        Ok(Texts { texts: list })
    }

    /// Returns a copy. The only refusal is `OutOfMemory`.
    pub fn clone(&self, alloc: Global) -> Result<Texts>
        ensures ok { IfOk result (λ t. t ≡ self.now) }
        ensures err { IfErr result IsMemory }
    {
        let mut texts = Vec::new(alloc);
        for text in self.as_slice() {
            texts.push(text.clone(alloc)?)?;
        }
        Ok(Texts { texts })
    }

    /// Returns the strings, in order.
    pub fn as_slice(&self) -> &[Text]
        ensures { result.now ≡ self.now }
    {
        self.texts.as_slice()
    }

    /// Returns the strings as a `Vec`, which is not copied.
    pub fn into_vec(self) -> Vec<Text>
        ensures { result.items ≡ self }
    {
        let Texts { texts } = self;
        texts
    }
}

impl CloneIn for Texts {
    fn clone_in(&self, alloc: Global) -> Result<Texts> {
        self.clone(alloc)
    }
}

impl From<Vec<Text>> for Texts {
    ghost from_gives = { λ v t. t ≡ v.items };

    fn from(texts: Vec<Text>) -> Texts {
        Texts { texts }
    }
}

impl PartialEq for Texts {
    ghost eq = { pointwise bytes_eq };

    ghost laws = { Prim.search (comparing, rules) };

    fn eq(&self, other: &Texts) -> bool {
        self.texts == other.texts
    }
}

impl Eq for Texts {
    ghost laws = { Prim.search (comparing, rules) };
}

impl Hash for Texts {
    ghost hash_input = { fed.slice fed.str };

    ghost respects_eq = { (fed.items_Alike (fed.same_Alike fed.str bytes_eq-Decides)).fed };

    fn hash<H: Hasher>(&self, state: &mut H) {
        self.texts.hash(state);
    }
}

/// Shows the strings in brackets.
impl fmt::Debug for Texts {
    fn fmt<W: fmt::Write>(&self, f: &mut fmt::Formatter<W>) -> fmt::Result {
        fmt::Debug::fmt(self.as_slice(), f)
    }
}
