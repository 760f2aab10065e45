//! Providers of signatures for the tests: one that looks signatures up in a table, one that accepts
//! every signature, and one that refuses every call. A fourth stands over `HmacProvider`, and
//! refuses short secrets.

mod closed;
mod long_secrets;
mod no;
mod table;
mod yes;

pub use closed::{NoSigner, NoVerifier};
pub use long_secrets::LongSecrets;
pub use no::NoProvider;
pub use table::{Row, TableProvider, TableSigner, TableVerifier};
pub use yes::{YesProvider, YesVerifier};
