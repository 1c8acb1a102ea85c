//! A holder of cubes. A loan that it takes it settles, and to settle the cube once more it lends it again.
#![tactic(auto)]

use book::{Book, Mark, Refusal, Word};
use std::io;

// Borrows the cube and gives it back; the cube that came back.
fn look_at(book: &mut Book, cube: u16) -> Result<u16, Refusal> {
    let loan = book.lend(cube)?;
    let spent = book.settle(loan, Word::Back).unwrap();
    Ok(spent.cube())
}

// Gives the cube back, borrows it again and says that it is done with.
fn finish(book: &mut Book, cube: u16) -> Result<(), Refusal> {
    let first = book.lend(cube)?;
    let _spent = book.settle(first, Word::Back).unwrap();
    let second = book.lend(cube).unwrap();
    let _closed = book.settle(second, Word::Closed).unwrap();
    Ok(())
}

fn main(rt: HostRuntime) -> io::Result<()> {
    let mut book = Book::new();
    let _ = book.enter();
    let _ = book.enter();
    let looked = look_at(&mut book, 2) == Ok(2);
    let finished = finish(&mut book, 1).is_ok();
    let again = finish(&mut book, 1).is_ok();
    println!(rt; "looked at cube 2: {looked}, finished cube 1: {finished}, once more: {again}")?;
    let waiting = book.tally(Mark::Waiting);
    let out = book.tally(Mark::Out);
    let closed = book.tally(Mark::Closed);
    println!(rt; "waiting {waiting}, out {out}, closed {closed}")
}
