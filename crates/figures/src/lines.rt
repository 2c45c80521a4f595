//! The lines of a text.
ghost use Rattle.std.specs.Prelude.{◌≡◌};
ghost use Rattle.std.specs.Iterator.{YieldsFirstRef, item_count};
ghost use Rattle.figures.specs.Lines.{Cut, lines_of};
ghost use Rattle.figures.specs.Coming.{lines_left};

/// The first line of the text and what follows it. A line ends at byte 10, which the last may lack.
pub fn next_line(text: &[u8]) -> Option<(&[u8], &[u8])>
    ensures { Cut text.now result }
{
    match text.iter().position(|b| *b == b'\n') {
        Some(end) => Some((&text[..end], &text[end + 1..])),
        None if text.is_empty() => None,
        None => Some((text, &[])),
    }
}

/// The lines of a text that are still to come.
#[derive(Drop)]
pub struct Lines<'a> {
    left: &'a [u8],
}

impl<'a> Lines<'a> {
    /// The lines of a text, in turn.
    pub fn of(text: &'a [u8]) -> Lines<'a>
        ensures { lines_left result ≡ lines_of text.now }
    {
        Lines { left: text }
    }
}

impl<'a> Iterator for Lines<'a> {
    type Item = &'a [u8];

    ghost next_gives = { YieldsFirstRef lines_left };

    ghost remaining = { item_count lines_left };

    fn next(&mut self) -> Option<&'a [u8]> {
        let (line, rest) = next_line(self.left)?;
        self.left = rest;
        Some(line)
    }
}
