use book::{Book, Mark, Refusal, Word};

// Lends the cube, and settles it by that word.
fn lend(book: &mut Book, cube: u16, word: Word) -> Result<(), Refusal> {
    let loan = book.lend(cube)?;
    let _spent = book.settle(loan, word).unwrap();
    Ok(())
}

// What refuses a cube that is out already; none where it can't be lent at first.
fn lend_while_out(book: &mut Book, cube: u16) -> Option<Refusal> {
    let loan = book.lend(cube).ok()?;
    let refusal = book.lend(cube).unwrap_err();
    let _spent = book.settle(loan, Word::Back).unwrap();
    Some(refusal)
}

// What another book refuses the loan with; the loan comes back and is settled at home.
fn settle_elsewhere(home: &mut Book, other: &mut Book, cube: u16) -> Option<Refusal> {
    let loan = home.lend(cube).ok()?;
    match other.settle(loan, Word::Closed) {
        Ok(_spent) => None,
        Err((refusal, loan)) => {
            let _spent = home.settle(loan, Word::Back).unwrap();
            Some(refusal)
        }
    }
}

// How many of `count` new cubes got the next number in turn.
fn enter(book: &mut Book, count: u16) -> usize {
    (1..=count).filter(|&n| book.enter() == Ok(n)).count()
}

#[test]
fn refusals_have_these_numbers(rt: HostRuntime) {
    let refusals = [Refusal::Full, Refusal::NotWaiting, Refusal::NotOut];
    assert!(rt; refusals.map(Refusal::number) == [23, 26, 27]);
}

#[test]
fn cubes_are_lent_by_number(rt: HostRuntime) {
    let mut book = Book::new();
    let unknown = lend(&mut book, 1, Word::Back);
    let entered = enter(&mut book, 2);
    let lent = [
        lend(&mut book, 0, Word::Back),
        lend(&mut book, 1, Word::Back),
        lend(&mut book, 3, Word::Back),
    ];
    let while_out = lend_while_out(&mut book, 2);
    let closed = [
        lend(&mut book, 2, Word::Closed),
        lend(&mut book, 2, Word::Back),
    ];
    assert!(rt; unknown == Err(Refusal::NotWaiting) && entered == 2);
    assert!(rt; lent == [Err(Refusal::NotWaiting), Ok(()), Err(Refusal::NotWaiting)]);
    assert!(rt;
        while_out == Some(Refusal::NotWaiting) && closed == [Ok(()), Err(Refusal::NotWaiting)]
    );
    let states = [book.state(0), book.state(1), book.state(2), book.state(3)];
    assert!(rt; states == [None, Some(Mark::Waiting), Some(Mark::Closed), None]);
}

#[test]
fn a_loan_is_refused_by_another_book(rt: HostRuntime) {
    let mut home = Book::new();
    let mut other = Book::new();
    let entered = enter(&mut home, 1);
    let unknown = settle_elsewhere(&mut home, &mut other, 1);
    let also = enter(&mut other, 1);
    let waiting = settle_elsewhere(&mut home, &mut other, 1);
    assert!(rt; entered == 1 && also == 1);
    assert!(rt; unknown == Some(Refusal::NotOut) && waiting == Some(Refusal::NotOut));
    assert!(rt; home.state(1) == Some(Mark::Waiting) && other.state(1) == Some(Mark::Waiting));
}

#[test]
fn the_book_has_4096_entries(rt: HostRuntime) {
    let mut book = Book::new();
    assert!(rt; enter(&mut book, 4095) == 4095 && !book.is_full());
    assert!(rt; book.enter() == Ok(4096) && book.is_full());
    assert!(rt; book.enter() == Err(Refusal::Full) && Refusal::Full.number() == 23);
    let closed = lend(&mut book, 4096, Word::Closed);
    let unknown = lend(&mut book, 4097, Word::Back);
    let while_out = lend_while_out(&mut book, 4095);
    let tallies = [Mark::Waiting, Mark::Out, Mark::Closed].map(|mark| book.tally(mark));
    assert!(rt;
        closed == Ok(())
            && unknown == Err(Refusal::NotWaiting)
            && while_out == Some(Refusal::NotWaiting)
    );
    assert!(rt; tallies == [4095, 0, 1]);
}
