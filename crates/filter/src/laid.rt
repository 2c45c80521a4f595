//! The type of words that hold a layout, for reading. Its methods stand in the modules below, whose contracts name the type.
ghost use Rattle.std.specs.Prelude.{◌≡◌, ◌*◌, ◌≤◌};
ghost use Rattle.layout.specs.Rule.{sorted, Roomy};
ghost use Rattle.layout.specs.Format.{filter_words};
ghost use Rattle.filter.specs.Meaning.{fingerprints_in};

use blocks::Blocks;

mod edits;
mod find;
mod runs;
mod slots;

/// The words of a filter's blocks, for reading: they are the layout of the list that is read back from them.
#[derive(Clone, Copy)]
pub(crate) struct Layout<'a> {
    pub(crate) blocks: Blocks<'a>,
    pub(crate) count: u32,
    ghost few: { count ≤ 16640 },
    ghost laid: { blocks.words.now
        ≡ filter_words blocks.width.bits count
        (fingerprints_in blocks.width.bits count blocks.words.now) },
    ghost rising: { sorted (fingerprints_in blocks.width.bits count blocks.words.now)
        ≡ fingerprints_in blocks.width.bits count blocks.words.now },
    ghost roomy: { Roomy (64 * count) blocks.width.bits
        (fingerprints_in blocks.width.bits count blocks.words.now) },
}
