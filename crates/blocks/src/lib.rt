//! The flat words of a filter seen as blocks: each bit, offset and remainder read and written.
#![tactic(auto)]

mod moves;
mod places;
mod reading;
mod search;
mod writing;

pub use moves::{lower_offsets, move_down, move_up, raise_offsets};
pub use reading::Blocks;
pub use search::NextRun;
pub use writing::{set_occupied, set_offset, set_remainder, set_runend};

/// The quotient of a fingerprint: it counts the bits of the occupied row.
#[derive(Clone, Copy, PartialEq, Eq, Debug)]
pub struct Quotient(pub u32);

/// The number of a slot: it counts the bits of the runend row, and the remainders.
#[derive(Clone, Copy, PartialEq, Eq, Debug)]
pub struct Slot(pub u32);
