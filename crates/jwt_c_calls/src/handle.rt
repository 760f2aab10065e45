//! What C holds of keys, or of a verifier.
//!
//! C may write nothing into a struct that points to a value with a count, so the pointer is one to
//! bytes, and the struct says itself what it owns.

// A handle is a struct of the caller's that holds a pointer, all zeros at first, as `regex_t` is
// used, and not a pointer that a call returns: so a slip has a status, such as a use after the
// struct was freed. An export may not take a pointer to a value with a count, so the struct holds
// one to bytes, and says in its model what it owns: at null nothing, otherwise a box with its
// value. This code and its proofs know nothing of tokens.

ghost use Rattle.std.specs.Prelude.{◌≡◌, Option, Some, None, MatchOption};
ghost use Rattle.std.specs.Coded.{coded_option};
ghost use Rattle.jwt_c_calls.specs.Owned.{handle_owns};
ghost use Rattle.jwt_c_calls.specs.contracts.content.Content.{the_row as content_row};
ghost use Rattle.jwt_c_calls.specs.declared.content.Content.{Content as ContentValue};

use crate::content::Content;
use crate::raw_box::RawBox;
use std::alloc::Global;
use std::marker::Model;
use std::mem::replace;
use std::ptr::null_mut;

/// A pointer to what the handle holds, or null: `struct jwt_handle` of
/// `packages/c/include/jwtproved.h`.
#[repr(C)]
pub struct Handle {
    at: *mut u8,
    alloc: Global,
    pub ghost held: { Option ContentValue } by { coded_option content_row.coded },
}

impl Model for Handle {
    ghost also_owns = { λ h. handle_owns content_row h.alloc h.at h.held };
}

impl Handle {
    /// Returns the handle that holds nothing.
    pub fn none(alloc: Global) -> Handle
        ensures { result.held ≡ None }
    {
        Handle {
            at: null_mut(),
            alloc,
        }
    }

    fn some(kept: RawBox<Content, Global>) -> Handle
        ensures { result.held ≡ Some kept.value }
    {
        let RawBox { at, alloc } = kept;
        Handle {
            at: at as *mut u8,
            alloc,
        }
    }

    fn into_raw(self) -> Option<RawBox<Content, Global>>
        ensures { MatchOption result (self.held ≡ None) (λ k. self.held ≡ Some k.value) }
    {
        let Handle { at, alloc } = self;
        if at.is_null() {
            None
        } else {
            Some(RawBox {
                at: at as *mut Content,
                alloc,
            })
        }
    }

    /// Returns the handle of a content. It may go to another thread, since what it holds may.
    pub fn of(value: Box<Content>) -> Handle
        ensures { result.held ≡ Some value.value }
    {
        Handle::some(RawBox::of(value))
    }

    fn into_box(self) -> Option<Box<Content>>
        ensures { MatchOption result (self.held ≡ None) (λ b. self.held ≡ Some b.value) }
    {
        match self.into_raw() {
            Some(kept) => Some(kept.into_box()),
            None => None,
        }
    }

    /// Returns the content, if there is one, and leaves nothing.
    pub fn take(&mut self, alloc: Global) -> Option<Box<Content>>
        ensures taken { MatchOption result (self.old.held ≡ None)
            (λ b. self.old.held ≡ Some b.value) }
        ensures none { self.new.held ≡ None }
    {
        replace(self, Handle::none(alloc)).into_box()
    }
}

impl Drop for Handle {
    fn drop(self) {
        if let Some(value) = self.into_box() {
            drop(value);
        }
    }
}
