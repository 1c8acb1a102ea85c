// The lent text, read from word to word and from line to line.
ghost use Rattle.std.specs.Prelude.{◌≡◌, ℕ, suc, ◌+◌, ◌-◌, ◌<◌, ◌≤◌, min, false, [], ◌∷◌, length, take, drop, MatchOption, slice_index};
ghost use Rattle.reader.specs.Left.{left};
ghost use Rattle.reader.specs.Runs.{line_len};
ghost use Rattle.reader.specs.Tokens.{skips, token};

use crate::cursor::Mode;
use crate::runs::{first_line, word_len};
use crate::words::{Reader, Word};

impl<'a> Reader<'a> {
    pub fn new(text: &'a [u8]) -> Reader<'a>
        ensures text { result.text ≡ text.entry }
        ensures at { result.at ≡ 0 }
        ensures mode { result.mode ≡ Mode.Start }
    {
        Reader {
            text,
            at: 0,
            mode: Mode::Start,
        }
    }

    // Passes over blanks and comments up to the next word.
    // Stays: the cursor itself is what the loop moves, and its mode goes with it; a `for` would count beside it.
    fn skip_gap(&mut self)
        ensures text { self.new.text ≡ self.old.text }
        ensures on { self.old.at ≤ self.new.at }
        ensures same { left self.new ≡ left self.old }
        ensures stops { self.new.at < length self.new.text.now → skips self.new.mode (slice_index self.new.text.now self.new.at) ≡ false }
    {
        while self.at < self.text.len() {
            let b = self.text[self.at];
            if !self.mode.skips(b) {
                return;
            }
            self.mode = self.mode.passed(b);
            self.at += 1;
        }
    }

    // The next word, or none at the end of the text.
    pub fn next_word(&mut self) -> Option<Word<'a>>
        ensures text { self.new.text ≡ self.old.text }
        ensures word { MatchOption result (left self.old ≡ []) (λ w. (left self.old ≡ token w.place w.bytes.now ∷ left self.new) × (self.old.at < self.new.at)) }
    {
        self.skip_gap();
        let place = self.at;
        if place == self.text.len() {
            return None;
        }
        let rest = &self.text[place..];
        let bytes = &rest[..word_len(rest)];
        self.at += bytes.len();
        self.mode = Mode::Within;
        Some(Word { bytes, place })
    }

    // The next line, without its line feed.
    pub fn next_line(&mut self) -> &'a [u8]
        ensures text { self.new.text ≡ self.old.text }
        ensures mode { self.new.mode ≡ Mode.Start }
        ensures line { result.now ≡ take (line_len (drop self.old.at self.old.text.now)) (drop self.old.at self.old.text.now) }
        ensures at { self.new.at ≡ min (self.old.at + line_len (drop self.old.at self.old.text.now) + 1) (length self.old.text.now) }
    {
        let (line, rest) = first_line(&self.text[self.at..]);
        self.at = self.text.len() - rest.len();
        self.mode = Mode::Start;
        line
    }
}
