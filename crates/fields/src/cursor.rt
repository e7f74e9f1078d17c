// A place in a text, with the number of its line. Text is judged line by line, so a cursor goes from one line's start to the next.
// Its methods take it by value and return the advanced one.
ghost use Rattle.std.specs.Prelude.{◌≡◌, ◌<◌, ◌+◌, ◌^◌};
ghost use Rattle.listings.specs.Inner.Stops.{stop};

#[derive(Clone, Copy)]
pub struct Cursor {
    pub at: usize,
    pub line: usize,
}

impl Cursor {
    // The start of a text: line 1.
    pub fn new() -> Self
        ensures { (result.at ≡ 0) × (result.line ≡ 1) }
    {
        Cursor { at: 0, line: 1 }
    }

    // At the first byte `separator` from here on, or at the end where there is none.
    pub fn seek(self, text: &[u8], separator: u8) -> Cursor
        ensures { (result.at ≡ stop separator text.now self.at) × (result.line ≡ self.line) }
    {
        let rest = &text[self.at.min(text.len())..]; // nothing, behind the end
        let length = rest
            .iter()
            .position(|&b| b == separator)
            .unwrap_or(rest.len());
        Cursor {
            at: self.at + length,
            line: self.line,
        }
    }

    // Past the separator here, on the same line.
    pub fn past_separator(self) -> Cursor
        requires { self.at + 1 < 2 ^ 64 }
        ensures { (result.at ≡ self.at + 1) × (result.line ≡ self.line) }
    {
        Cursor {
            at: self.at + 1,
            line: self.line,
        }
    }

    // Past the byte 10 here, at the start of the next line.
    pub fn next_line(self) -> Cursor
        requires { (self.at + 1 < 2 ^ 64) × (self.line + 1 < 2 ^ 64) }
        ensures { (result.at ≡ self.at + 1) × (result.line ≡ self.line + 1) }
    {
        Cursor {
            at: self.at + 1,
            line: self.line + 1,
        }
    }
}
