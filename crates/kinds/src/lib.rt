//! The kinds of record that a table can hold, and the fingerprints of their keys.
#![tactic(auto)]

mod fingerprint;
mod glyphs;
mod hash;
mod kern;
mod kind;
mod ligature;
mod sequence;

pub use fingerprint::{Fibonacci, Fingerprint, Fnv1a, examples};
pub use hash::fnv1a;
pub use kern::{Kern, Pair};
pub use kind::Kind;
pub use ligature::{KeyFault, Ligature};
pub use sequence::{Sequence, SequenceBytes};
