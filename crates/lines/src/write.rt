// A line is written once, for every sink: onto a stack, or to see whether it fits.
ghost use Rattle.std.specs.Prelude.{◌≡◌, ◌+◌, ◌≤◌, List, length, OnOk, nat_le};
ghost use Rattle.std.specs.Fmt.{signed_decimal};
ghost use Rattle.std.specs.List.{AllByRecursion};
ghost use Rattle.stack.specs.Items.{spares};
ghost use Rattle.outlet.specs.Memory.{Appended, laid};
ghost use Rattle.lines.specs.Lines.{spaced, parted, line, line_of, letter, Narrow};
ghost use Rattle.lines.specs.Sinks.{Takes};

use crate::sinks::{Room, Sink};
use itoa::Buffer;
use outlet::{Kind, Refusal};
use stack::Stack;

fn write_literal<S: Sink>(out: &mut S, lit: i32) -> Result<(), Refusal>
    ensures { Takes S.took S.room out.old (signed_decimal lit) out.new result }
{
    out.take(Buffer::new().format(lit).as_bytes())
}

fn write_spaced<S: Sink>(out: &mut S, lits: &[i32]) -> Result<(), Refusal>
    ensures text { Takes S.took S.room out.old (spaced lits.now) out.new result }
    ensures narrow { OnOk result (AllByRecursion Narrow lits.now) }
{
    for lit in lits {
        out.take(b" ")?;
        write_literal(out, *lit)?;
    }
    Ok(())
}

fn write_parted<S: Sink>(out: &mut S, lits: &[i32]) -> Result<(), Refusal>
    ensures text { Takes S.took S.room out.old (parted lits.now) out.new result }
    ensures narrow { OnOk result (AllByRecursion Narrow lits.now) }
{
    match lits {
        [] => Ok(()),
        [first, rest @ ..] => {
            write_literal(out, *first)?;
            write_spaced(out, rest)
        }
    }
}

// Stays: `From<Kind>` would have to stand in crate outlet, which knows no text.
fn letter_of(kind: Kind) -> u8
    ensures { result ≡ letter kind }
{
    match kind {
        Kind::Cube => b'C',
        Kind::Learnt => b'L',
    }
}

// The line of an entry: its kind, its number within the kind and its literals.
#[derive(Clone, Copy)]
pub struct Line<'a> {
    pub kind: Kind,
    pub number: u64,
    pub lits: &'a [i32],
}

impl<'a> Line<'a> {
    fn write<S: Sink>(&self, out: &mut S) -> Result<(), Refusal>
        ensures text { Takes S.took S.room out.old (line_of self.now) out.new result }
        ensures narrow { OnOk result (AllByRecursion Narrow self.now.lits.now) }
    {
        out.take(&[letter_of(self.kind), b','])?;
        out.take(Buffer::new().format(self.number).as_bytes())?;
        out.take(b",")?;
        write_parted(out, self.lits)?;
        out.take(b"\n")
    }

    // Whether it takes at most `room` bytes, its line feed with it.
    pub fn fits(&self, room: usize) -> bool
        ensures { result ≡ nat_le (length (line_of self.now)) room }
    {
        self.write(&mut Room { left: room }).is_ok()
    }

    // Writes it where there is room.
    pub fn put(&self, out: &mut Stack<u8>)
        requires { length (line_of self.now) ≤ length (spares out.old) }
        ensures line { Appended out.old (line_of self.now) out.new }
        ensures narrow { AllByRecursion Narrow self.now.lits.now }
    {
        let _ = self.write(out);
    }
}

// Writes a line into the bytes from a place on, and answers the place behind it.
pub fn put_line(bytes: &mut [u8], at: usize, kind: Kind, n: u64, lits: &[i32]) -> usize
    requires { at + length (line kind n lits.now) ≤ length bytes.old }
    ensures end { result ≡ at + length (line kind n lits.now) }
    ensures memory { bytes.new ≡ laid bytes.old at (line kind n lits.now) }
    ensures narrow { AllByRecursion Narrow lits.now }
{
    let mut text = Stack::new(bytes);
    text.keep_spares(at);
    let line = Line {
        kind,
        number: n,
        lits,
    };
    line.put(&mut text);
    text.len()
}
