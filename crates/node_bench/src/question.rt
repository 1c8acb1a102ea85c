// Two ripple adders over the same two numbers. Ten signals for each bit, from 1 on: the inputs 1 and 2; carry 3 and sum 4 of
// the first adder; 5 to 7, carry 8 and sum 9 of the second; and 10, whether the sums differ.
use std::alloc::{AllocError, Global};

pub const BITS: u8 = 64;

pub const VARIABLES: usize = 640;

#[derive(Drop)]
pub struct Question {
    pub clauses: Vec<i32>,
    pub odds: Vec<i32>,
}

fn signal(bit: u8, which: u8) -> i32 {
    10 * bit as i32 + which as i32
}

// A signal negated.
fn not(bit: u8, which: u8) -> i32 {
    -(10 * bit as i32 + which as i32)
}

// The out-th signal of a bit is the conjunction of two others.
fn conjunction(table: &mut Vec<i32>, bit: u8, out: u8, a: u8, b: u8) -> Result<(), AllocError> {
    table.extend_from_slice(&[not(bit, out), signal(bit, a), 0])?;
    table.extend_from_slice(&[not(bit, out), signal(bit, b), 0])?;
    table.extend_from_slice(&[signal(bit, out), not(bit, a), not(bit, b), 0])
}

// The out-th signal of a bit says whether two others differ.
fn difference(table: &mut Vec<i32>, bit: u8, out: u8, a: u8, b: u8) -> Result<(), AllocError> {
    table.extend_from_slice(&[not(bit, out), signal(bit, a), signal(bit, b), 0])?;
    table.extend_from_slice(&[not(bit, out), not(bit, a), not(bit, b), 0])?;
    table.extend_from_slice(&[signal(bit, out), not(bit, a), signal(bit, b), 0])?;
    table.extend_from_slice(&[signal(bit, out), signal(bit, a), not(bit, b), 0])
}

// The next bit's carry of the first adder: at least two of the inputs and the carry.
fn majority(table: &mut Vec<i32>, bit: u8, next: u8) -> Result<(), AllocError> {
    for (a, b) in [(1u8, 2u8), (1, 3), (2, 3)] {
        table.extend_from_slice(&[not(next, 3), signal(bit, a), signal(bit, b), 0])?;
    }
    for (a, b) in [(1u8, 2u8), (1, 3), (2, 3)] {
        table.extend_from_slice(&[signal(next, 3), not(bit, a), not(bit, b), 0])?;
    }
    Ok(())
}

// The next bit's carry of the second adder: both inputs, or one of them and the carry.
fn disjunction(table: &mut Vec<i32>, bit: u8, next: u8) -> Result<(), AllocError> {
    table.extend_from_slice(&[signal(next, 8), not(bit, 6), 0])?;
    table.extend_from_slice(&[signal(next, 8), not(bit, 7), 0])?;
    table.extend_from_slice(&[not(next, 8), signal(bit, 6), signal(bit, 7), 0])
}

fn add_bit(question: &mut Question, bit: u8) -> Result<(), AllocError> {
    difference(&mut question.clauses, bit, 5, 1, 2)?;
    conjunction(&mut question.clauses, bit, 6, 1, 2)?;
    conjunction(&mut question.clauses, bit, 7, 5, 8)?;
    difference(&mut question.clauses, bit, 9, 5, 8)?;
    if bit < BITS - 1 {
        majority(&mut question.clauses, bit, bit + 1)?;
        disjunction(&mut question.clauses, bit, bit + 1)?;
    }
    question.odds.extend_from_slice(&[
        not(bit, 4),
        signal(bit, 1),
        signal(bit, 2),
        signal(bit, 3),
        0,
    ])?;
    question
        .odds
        .extend_from_slice(&[not(bit, 10), signal(bit, 4), signal(bit, 9), 0])
}

// Some sum bit differs.
fn ask(table: &mut Vec<i32>) -> Result<(), AllocError> {
    for bit in 0..BITS {
        table.extend_from_slice(&[signal(bit, 10)])?;
    }
    table.extend_from_slice(&[0])
}

pub fn build(heap: Global) -> Result<Question, AllocError> {
    let mut question = Question {
        clauses: Vec::new(heap),
        odds: Vec::new(heap),
    };
    question
        .clauses
        .extend_from_slice(&[not(0, 3), 0, not(0, 8), 0])?;
    for bit in 0..BITS {
        add_bit(&mut question, bit)?;
    }
    ask(&mut question.clauses)?;
    Ok(question)
}
