// Reads a question from standard input, and writes what is found.
#![tactic(auto)]

ghost use Rattle.std.specs.Prelude.{◌≤◌, length, IfOk};

use report::report;
use std::io;
use std::io::Read;

// One byte more than an input may have, so that a longer one is told from a fitting one.
const MOST: usize = 65_537;

// Reads until the input ends or the buffer is full.
// Stays: the input's memory is fixed, so that no allocation can fail before the question is read.
fn read_input(rt: &HostRuntime, buffer: &mut [u8]) -> io::Result<usize>
    ensures { IfOk result (λ n. n ≤ length buffer.old) }
{
    let mut input = rt.stdin();
    let mut len = 0;
    for _ in 0..MOST {
        if len >= buffer.len() {
            break;
        }
        let got = input.read(&mut buffer[len..])?;
        if got == 0 {
            break;
        }
        len += got;
    }
    Ok(len)
}

fn main(rt: HostRuntime) -> io::Result<()> {
    let mut buffer = [0; MOST];
    let len = read_input(&rt, &mut buffer)?;
    let input = &buffer[0..len];
    let text = report(rt.alloc(), input)?;
    print!(rt; "{text}")
}
