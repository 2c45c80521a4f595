//! The words of a filter, and how they are printed.
ghost use Rattle.std.specs.Prelude.{◌≡◌, false, ◌+◌, ◌*◌, ◌<◌, min, replicate, flat_map, [], ◌∷◌, ◌++◌, IfOk, vec_len, Some};
ghost use Rattle.std.specs.Fmt.{digit_glyph};
ghost use Rattle.console.specs.Texts.{word_text, block_text, blocks_text};
ghost use Rattle.console.specs.Sending.{Sent};

use crate::fault::Fault;
use crate::output::send;
use filter::{MOST_BLOCKS, Plan};
use itoa::Buffer;
use std::alloc::{AllocError, Global};
use std::fmt;
use std::io::Write;

/// How many words a block has.
fn block_words(plan: Plan) -> usize
    ensures { result ≡ plan.r + 3 }
{
    plan.r() as usize + 3
}

/// Words for that many blocks, at most 16,640, each 0.
pub fn blank(heap: Global, plan: Plan, blocks: usize) -> Result<Vec<u64>, AllocError>
    ensures size { IfOk result (λ v. vec_len v ≡ min blocks 16640 * (plan.r + 3)) }
    ensures zeros { IfOk result (λ v. v.items ≡ replicate (min blocks 16640 * (plan.r + 3)) 0) }
{
    vec![in heap; 0u64; blocks.min(MOST_BLOCKS) * block_words(plan)]
}

/// A digit to the base 16.
fn digit(value: u8) -> u8
    requires { value < 16 }
    ensures { result ≡ digit_glyph false value }
{
    if value < 10 {
        b'0' + value
    } else {
        b'a' - 10 + value
    }
}

/// A space and a word, which is written in 16 digits to the base 16.
fn spaced(word: u64) -> [u8; 17]
    ensures { result ≡ 32 ∷ word_text word }
{
    let mut text = [b' '; 17];
    let mut left = word;
    for at in (0..16).rev() {
        text[at + 1] = digit((left % 16) as u8);
        left /= 16;
    }
    text
}

/// Writes words, a space before each.
fn send_words<W: Write>(out: &mut W, words: &[u64]) -> Result<(), Fault>
    ensures { Sent (W.contents out.old) (W.contents out.new)
        (flat_map (λ w. 32 ∷ word_text w) words.now) result }
{
    for word in words {
        send(out, &spaced(*word))?;
    }
    Ok(())
}

/// A block of a filter, printed as its number and its words.
#[derive(Drop)]
struct Block<'a> {
    number: usize,
    words: &'a [u64],
}

impl fmt::Display for Block<'_> {
    ghost output = { λ b. Some (block_text b.number b.words.now) };

    fn fmt<W: fmt::Write>(&self, f: &mut fmt::Formatter<W>) -> fmt::Result {
        let number = self.number;
        write!(f, "block {number}")?;
        for word in self.words {
            write!(f, " {word:016x}")?;
        }
        Ok(())
    }
}

impl Block<'_> {
    /// Writes the line of the block.
    fn send<W: Write>(&self, out: &mut W) -> Result<(), Fault>
        ensures { Sent (W.contents out.old) (W.contents out.new)
            (block_text self.now.number self.now.words.now ++ 10 ∷ []) result }
    {
        let mut digits = Buffer::new();
        send(out, b"block ")?;
        send(out, digits.format(self.number).as_bytes())?;
        send_words(out, self.words)?;
        send(out, b"\n")
    }
}

/// The blocks of a filter, printed a line for each.
#[derive(Drop)]
pub struct Blocks<'a> {
    plan: Plan,
    words: &'a [u64],
}

impl<'a> Blocks<'a> {
    /// The whole blocks of the words under the plan.
    pub fn of(plan: Plan, words: &'a [u64]) -> Blocks<'a>
        ensures { (result.plan ≡ plan) × (result.words.now ≡ words.now) }
    {
        Blocks { plan, words }
    }

    /// Writes the line of each block. Nothing is allocated for it.
    pub fn send<W: Write>(&self, out: &mut W) -> Result<(), Fault>
        ensures { Sent (W.contents out.old) (W.contents out.new)
            (blocks_text (self.now.plan.r + 3) self.now.words.now) result }
    {
        let size = block_words(self.plan);
        for (number, words) in self.words.chunks_exact(size).enumerate() {
            Block { number, words }.send(out)?;
        }
        Ok(())
    }
}

impl fmt::Display for Blocks<'_> {
    ghost output = { λ s. Some (blocks_text (s.plan.r + 3) s.words.now) };

    fn fmt<W: fmt::Write>(&self, f: &mut fmt::Formatter<W>) -> fmt::Result {
        let blocks = self.words.chunks_exact(block_words(self.plan));
        for (number, words) in blocks.enumerate() {
            writeln!(f, "{}", Block { number, words })?;
        }
        Ok(())
    }
}
