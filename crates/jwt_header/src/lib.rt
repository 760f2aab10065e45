//! The header of a token (RFC 7515 section 4): the members that are known by their names, and the
//! others as `Extras`.
//!
//! For whoever issues tokens with more than an algorithm in their header, or reads one before the
//! token is verified; `jsonwebtoken` exports it.
//!
//! `Header::new(alloc, Algorithm::HS256)?` is a header with the type `JWT`, and every other member
//! is a field: `header.kid = Some(kid)`. [`Extras`] holds what has no field, and refuses the names
//! of those that have one ([`is_header_name`]). The values of a header are those of whoever sent
//! the token until it is verified; `decode` lets them choose the key that `kid` names and one of
//! the algorithms that are listed, and no more.
#![tactic(auto)]

mod certificates;
mod extras;
mod header;
mod names;

pub use extras::{Extras, is_header_name};
pub use header::Header;
pub use names::{Enc, Zip};
