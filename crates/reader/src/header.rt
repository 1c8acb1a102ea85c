// The header of a rule file, `p cnf V C`.
ghost use Rattle.std.specs.Prelude.{◌≡◌, [], Some, codes};
ghost use Rattle.std.specs.Str.{bytes_eq};
ghost use Rattle.std.specs.List.{list_all};
ghost use Rattle.reader.specs.Lines.{blank, words, comment};
ghost use Rattle.reader.specs.Runs.{led};
ghost use Rattle.reader.specs.Reading.{head_of, is_silent, limited as limited_head};
ghost use Rattle.reader.specs.Heads.{HeaderIs};

use crate::cursor::is_blank;
use crate::numerals::number;
use crate::parts::Header;
use crate::runs::{gap_len, word_len};
use rules::{Fault, Reason};

// The first word of a line, empty where there is none, and the rest of the line.
fn split_word<'a>(line: &'a [u8]) -> (&'a [u8], &'a [u8])
    ensures words { words line.now ≡ led result.0.now (words result.1.now) }
    ensures none { result.0.now ≡ [] → words line.now ≡ [] }
{
    let line = &line[gap_len(line)..];
    line.split_at(word_len(line))
}

fn is_comment(line: &[u8]) -> bool
    ensures { result ≡ comment line.now }
{
    matches!(line, [b'c', ..])
}

fn all_blank(line: &[u8]) -> bool
    ensures { result ≡ list_all blank line.now }
{
    line.iter().all(|b| is_blank(*b))
}

// Whether a line is blank or a comment.
pub fn is_skipped(line: &[u8]) -> bool
    ensures { result ≡ is_silent line.now (words line.now) }
{
    is_comment(line) || all_blank(line)
}

// A header within the limits.
fn limited(variables: u32, rules: u32, place: usize) -> Result<Header, Fault>
    ensures { HeaderIs place (limited_head (Some variables) (Some rules)) result }
{
    if variables > 2048 || rules > 16384 {
        return Err(Reason::Header.at(place));
    }
    Ok(Header {
        variables: variables as usize,
        rules: rules as usize,
    })
}

// `p` and `cnf`, the words that every header begins with.
// Stays: a header is taken apart by patterns, and a pattern cannot be a parameter.
fn is_p(word: &[u8]) -> bool
    ensures { result ≡ bytes_eq word.now (codes "p") }
{
    matches!(word, [b'p'])
}

fn is_cnf(word: &[u8]) -> bool
    ensures { result ≡ bytes_eq word.now (codes "cnf") }
{
    matches!(word, [b'c', b'n', b'f'])
}

// The header that a line is, or a refusal at the line's place.
pub fn header(line: &[u8], place: usize) -> Result<Header, Fault>
    ensures { HeaderIs place (head_of (words line.now)) result }
{
    let fault = Reason::Header.at(place);
    let (name, rest) = split_word(line);
    if !is_p(name) {
        return Err(fault);
    }
    let (format, rest) = split_word(rest);
    if !is_cnf(format) {
        return Err(fault);
    }
    let (third, rest) = split_word(rest);
    let Some(variables) = number(third) else {
        return Err(fault);
    };
    let (fourth, rest) = split_word(rest);
    let Some(rules) = number(fourth) else {
        return Err(fault);
    };
    let ([], _) = split_word(rest) else {
        return Err(fault);
    };
    limited(variables, rules, place)
}
