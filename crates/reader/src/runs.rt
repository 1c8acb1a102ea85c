// Runs of bytes: the blanks before a word, a word, a line.
ghost use Rattle.std.specs.Prelude.{◌≡◌, ◌≤◌, ◌==◌, length, position};
ghost use Rattle.reader.specs.Runs.{gap_len, word_len, line_of, after_line};

use crate::cursor::is_blank;

// How many blanks come first.
// Stays: one function over a test of bytes would need a clause on the test, and be longer than these two.
pub fn gap_len(bytes: &[u8]) -> usize
    ensures value { result ≡ gap_len bytes.now }
    ensures within { result ≤ length bytes.now }
{
    bytes.iter().take_while(|b| is_blank(**b)).count()
}

// How many bytes come before the first blank.
pub fn word_len(bytes: &[u8]) -> usize
    ensures value { result ≡ word_len bytes.now }
    ensures within { result ≤ length bytes.now }
{
    bytes.iter().take_while(|b| !is_blank(**b)).count()
}

// The first line of a text, and what follows its line feed.
pub fn first_line<'a>(text: &'a [u8]) -> (&'a [u8], &'a [u8])
    ensures line { result.0.now ≡ line_of text.now }
    ensures rest { result.1.now ≡ after_line text.now }
{
    match line_feed(text) {
        Some(end) => (&text[..end], &text[end + 1..]),
        None => (text, &[]),
    }
}

fn line_feed(text: &[u8]) -> Option<usize>
    ensures { result ≡ position (λ b. b == 10) text.now }
{
    text.iter().position(|b| *b == b'\n')
}
