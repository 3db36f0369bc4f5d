// Text cut at a byte, and cut into lines.
ghost use Rattle.std.specs.Prelude.{◌≡◌, MatchOption, length};
ghost use Rattle.std.specs.Iterator.{at_most};
ghost use Rattle.picture.specs.Lines.{Without, Cut, FirstLine};

pub(crate) const LINE_END: u8 = b'\n';

// The text before the first such byte and the text behind it; none where there is no such byte.
pub fn split_once(text: &[u8], byte: u8) -> Option<(&[u8], &[u8])>
    ensures { MatchOption result (Without byte text.now) (λ p. Cut byte text.now p.0.now p.1.now) }
{
    let i = text.iter().position(|b| *b == byte)?;
    Some((&text[..i], &text[i + 1..]))
}

// A cursor over the lines of a text.
#[derive(Drop)]
pub struct Lines<'a> {
    rest: &'a [u8],
}

impl<'a> Lines<'a> {
    pub fn new(text: &'a [u8]) -> Self
        ensures { result.rest.now ≡ text.now }
    {
        Lines { rest: text }
    }
}

// A line comes without its line end, which the last one may lack.
impl<'a> Iterator for Lines<'a> {
    type Item = &'a [u8];

    ghost next_gives = { λ lines line after. FirstLine lines.rest.now line after.rest.now };

    ghost remaining = { λ lines. at_most (length lines.rest.now) };

    fn next(&mut self) -> Option<&'a [u8]> {
        if self.rest.is_empty() {
            return None;
        }
        let (line, rest) = split_once(self.rest, LINE_END).unwrap_or((self.rest, &[]));
        self.rest = rest;
        Some(line)
    }
}
