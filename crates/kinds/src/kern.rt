ghost use Rattle.kinds.specs.Bytes.{pair_bytes};
ghost use Rattle.kinds.specs.Glyphs.{pair_bytes_one};

use crate::glyphs::bytes_of_two;
use crate::kind::Kind;

/// Two glyphs that stand side by side.
#[derive(Clone, Copy, PartialEq, Eq, PartialOrd, Ord, Debug)]
pub struct Pair {
    pub left: u16,
    pub right: u16,
}

/// Kerning: for a pair of glyphs, how far the right one moves.
pub struct Kern;

impl Kind for Kern {
    type Key = Pair;

    type Value = i16;

    type Bytes = [u8; 4];

    ghost bytes = { pair_bytes };

    ghost apart = { λ p q e. pair_bytes_one p q e };

    fn bytes(key: &Pair) -> [u8; 4] {
        bytes_of_two(key.left, key.right)
    }

    fn same(a: &Pair, b: &Pair) -> bool {
        a == b
    }
}
