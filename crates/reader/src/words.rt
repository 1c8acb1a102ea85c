// The lent text with a cursor, and a word of it.
ghost use Rattle.std.specs.Prelude.{◌≤◌, length};

use crate::cursor::Mode;

// A word of the text, and where it begins.
#[derive(Clone, Copy)]
pub struct Word<'a> {
    pub bytes: &'a [u8],
    pub place: usize,
}

// The text, and the place up to which it is read.
// Stays: that a step leaves the text alone is a clause of each, since an invariant cannot compare two moments.
#[derive(Clone, Copy)]
pub struct Reader<'a> {
    pub(crate) text: &'a [u8],
    pub(crate) at: usize,
    pub(crate) mode: Mode,
    ghost inside: { at ≤ length text.now },
}
