//! Reading a text whole.
ghost use Rattle.std.specs.Prelude.{◌≡◌, ◌⊎◌, ℕ, List, IfOk, IfErr, OnOk, OnErr, IfSome};
ghost use Rattle.std.specs.Io.KnownBytes.{Consumes, IsAtEnd};
ghost use Rattle.console.specs.declared.fault.Fault.TheVariants.{Memory, Stream};

use crate::fault::Fault;
use std::alloc::Global;
use std::io::{ErrorKind, Read};

/// How many bytes are asked for at a time.
const CHUNK: usize = 16_384;

/// All that an input has left. A read that a signal interrupts is tried again.
// That an input fails is left open: the library says of no read when it is an error, nor of which kind, so whatever kind that is, it is the stream that fails.
// The library's `read_to_end` may want memory itself, and does not say which of the two its error is. As there, 2^64 - 1 tries are the most.
pub fn read_text<R: Read>(heap: Global, input: &mut R) -> Result<Vec<u8>, Fault>
    ensures text { IfOk result
        (λ text. IfSome (R.remaining input.old) (λ bytes. text.items ≡ bytes)) }
    ensures all { OnOk result (IsAtEnd (R.remaining input.new)) }
    ensures fault { IfErr result (λ e. (e ≡ Memory) ⊎ (e ≡ Stream)) }
    ensures in_order { (bytes : List ℕ)
        × Consumes (R.remaining input.old) (R.remaining input.new) bytes }
{
    let mut text = Vec::new(heap);
    let mut chunk = [0u8; CHUNK];
    for _ in 0..u64::MAX {
        match input.read(&mut chunk) {
            Ok(0) => return Ok(text),
            Ok(n) => text.extend_from_slice(&chunk[..n])?,
            Err(error) if error.kind() == ErrorKind::Interrupted => {}
            Err(_) => return Err(Fault::Stream),
        }
    }
    Err(Fault::Stream)
}
