// How many bytes a line takes.
ghost use Rattle.std.specs.Prelude.{◌≡◌, length, nat_le};
ghost use Rattle.outlet.specs.declared.kinds.Kind.{Kind};
ghost use Rattle.lines.specs.Lines.{line};

use crate::write::Line;
use outlet::Kind;

// Whether a line, its line feed with it, takes at most `room` bytes.
pub fn line_fits(n: u64, lits: &[i32], room: usize) -> bool
    ensures { (k : Kind) → result ≡ nat_le (length (line k n lits.now)) room }
{
    // the letters of both kinds are one byte
    let line = Line {
        kind: Kind::Cube,
        number: n,
        lits,
    };
    line.fits(room)
}
