// Where a cursor over a text stands, and which bytes it passes over.
ghost use Rattle.std.specs.Prelude.{◌≡◌};
ghost use Rattle.reader.specs.Lines.{blank};
ghost use Rattle.reader.specs.Tokens.{skips, passed};

// Where a cursor stands that is in no word: at a line's start, later in a line, or in a comment.
#[derive(Clone, Copy)]
pub enum Mode {
    Start,
    Within,
    Comment,
}

impl Mode {
    // Whether a byte is passed over.
    pub fn skips(self, b: u8) -> bool
        ensures { result ≡ skips self b }
    {
        match self {
            Mode::Start => is_blank(b) || b == b'c',
            Mode::Within => is_blank(b),
            Mode::Comment => true,
        }
    }

    pub fn passed(self, b: u8) -> Mode
        ensures { result ≡ passed self b }
    {
        match (self, b) {
            (_, b'\n') => Mode::Start,
            (Mode::Start, b'c') => Mode::Comment,
            (Mode::Comment, _) => Mode::Comment,
            _ => Mode::Within,
        }
    }
}

pub fn is_blank(b: u8) -> bool
    ensures { result ≡ blank b }
{
    matches!(b, b' ' | b'\t' | b'\r' | b'\n')
}
