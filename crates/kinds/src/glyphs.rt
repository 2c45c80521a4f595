//! The bytes of glyphs: two for each, the high one first.
ghost use Rattle.std.specs.Prelude.{◌≡◌, [], ◌∷◌};
ghost use Rattle.kinds.specs.Bytes.{glyph_bytes};

/// The bytes of two glyphs.
pub(crate) fn bytes_of_two(first: u16, second: u16) -> [u8; 4]
    ensures { result ≡ glyph_bytes (first ∷ second ∷ []) }
{
    let [a, b] = first.to_be_bytes();
    let [c, d] = second.to_be_bytes();
    [a, b, c, d]
}

/// The bytes of three glyphs.
pub(crate) fn bytes_of_three(first: u16, second: u16, third: u16) -> [u8; 6]
    ensures { result ≡ glyph_bytes (first ∷ second ∷ third ∷ []) }
{
    let [a, b, c, d] = bytes_of_two(first, second);
    let [e, f] = third.to_be_bytes();
    [a, b, c, d, e, f]
}

/// The bytes of four glyphs.
pub(crate) fn bytes_of_four(first: u16, second: u16, third: u16, fourth: u16) -> [u8; 8]
    ensures { result ≡ glyph_bytes (first ∷ second ∷ third ∷ fourth ∷ []) }
{
    let [a, b, c, d] = bytes_of_two(first, second);
    let [e, f, g, h] = bytes_of_two(third, fourth);
    [a, b, c, d, e, f, g, h]
}
