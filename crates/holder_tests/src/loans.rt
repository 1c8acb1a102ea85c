use crate::office::Office;
use book::Mark;

#[test]
fn loans_are_taken_by_their_cube(rt: HostRuntime) {
    let mut office = Office::new(rt.alloc());
    let first = office.lend(3);
    let second = office.lend(1);
    let twice = office.lend(1);
    let held = office.loans.len();
    let cubes = [
        office.loans.cube(0),
        office.loans.cube(1),
        office.loans.cube(2),
    ];
    let unknown = office.give_back(2);
    let large = office.give_back(65_537);
    let known = office.give_back(3);
    let again = office.give_back(3);
    let left = office.loans.len();
    let rest = office.loans.cube(0);
    let book = office.close();
    assert!(rt; first && second && !twice && held == 2 && cubes == [Some(3), Some(1), None]);
    assert!(rt; !unknown && !large && known && !again && left == 1 && rest == Some(1));
    assert!(rt; book.tally(Mark::Waiting) == 3);
}

#[test]
fn the_newest_loan_comes_first(rt: HostRuntime) {
    let mut office = Office::new(rt.alloc());
    let none = office.give_back_newest();
    let first = office.lend(2);
    let second = office.lend(3);
    let newest = office.give_back_newest();
    let third = office.lend(1);
    let cubes = [office.loans.cube(0), office.loans.cube(1)];
    let book = office.close();
    assert!(rt; first && second && third && none == None && newest == Some(3));
    assert!(rt; cubes == [Some(2), Some(1)] && book.tally(Mark::Out) == 0);
}
