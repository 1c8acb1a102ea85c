// Writing the current branch into an outlet. Its literals stand in branch records, and an outlet wants them in a row: they
// are laid at the start of the trail, what stood there is kept at the decisions' own heights, and after the put all is moved back.
ghost use Rattle.std.specs.Prelude.{◌≡◌, ℕ, ◌≤◌, false, List, take, pos, is_ok, slice_index_or, slice_set};
ghost use Rattle.outlet.specs.Entries.{Entry, put_reply, put_after};
ghost use Rattle.account.specs.Piles.{Fit};
ghost use Rattle.branches.specs.Spelled.{newest_first, branch_entry};
ghost use Rattle.branches.specs.Laying.{laid_one, moved_one, laid, moved_back};

use crate::sides::{searched, written};
use outlet::{Kind, Outlet, Refusal};
use stack::Record;

// The cell at a place; past the end 0.
fn cell(cells: &[i32], i: usize) -> i32
    ensures { result ≡ slice_index_or cells.now i (pos 0) }
{
    cells.get(i).copied().unwrap_or(0)
}

// Writes a cell; past the end nothing.
fn write_cell(cells: &mut [i32], i: usize, x: i32)
    ensures { cells.new ≡ slice_set cells.old i x }
{
    if i < cells.len() {
        cells[i] = x;
    }
}

// The cell at i is kept at the record's height, and the record's literal written in its place.
fn lay_one(cells: &mut [i32], kind: Kind, i: usize, r: Record)
    ensures { cells.new ≡ laid_one kind i r cells.old }
{
    let kept = cell(cells, i);
    write_cell(cells, r.height, kept);
    write_cell(cells, i, written(kind, r));
}

// The kept cell goes back to i, and the side being searched to the record's height.
fn move_one(cells: &mut [i32], i: usize, r: Record)
    ensures { cells.new ≡ moved_one i r cells.old }
{
    let kept = cell(cells, r.height);
    write_cell(cells, i, kept);
    write_cell(cells, r.height, searched(r));
}

// From the oldest record to the newest, so that no kept cell is written over: heights rise.
#[tactic(auto, using(crate::proofs::Moves::laid_more))]
fn lay_out(cells: &mut [i32], kind: Kind, records: &[Record])
    ensures { cells.new ≡ laid kind 0 records.now cells.old }
{
    for (i, r) in records.iter().enumerate() {
        lay_one(cells, kind, i, *r);
    }
}

#[tactic(auto, using(crate::proofs::Moves::moved_last))]
fn take_back(cells: &mut [i32], records: &[Record])
    ensures { cells.new ≡ moved_back 0 records.now cells.old }
{
    for (i, r) in records.iter().enumerate().rev() {
        move_one(cells, i, *r);
    }
}

// Puts the branch of these records, as a cube or as the clause of its negated decisions. `cells` is the trail's memory, of
// which the first `len` are the trail.
// Stays: two slices and no `Pile`, which would ask for all records of a stack, and for leave to write them.
#[tactic(auto, using(crate::proofs::Moves::branch_laid))]
pub fn put_branch<O: Outlet>(
    out: &mut O,
    kind: Kind,
    cells: &mut [i32],
    records: &[Record],
) -> Result<(), Refusal>
    ensures value { (n len : ℕ) (es : List Entry) → n ≤ 2048 → Fit n (take len cells.old) (newest_first records.now) → O.Outlet.means out.old es → result ≡ put_reply (O.Outlet.fitting out.old es (branch_entry kind records.now)) }
    ensures entries { (n len : ℕ) (es : List Entry) → n ≤ 2048 → Fit n (take len cells.old) (newest_first records.now) → O.Outlet.means out.old es → O.Outlet.means out.new (put_after (is_ok result) es (branch_entry kind records.now)) }
    ensures memory { (n len : ℕ) → n ≤ 2048 → Fit n (take len cells.old) (newest_first records.now) → cells.new ≡ cells.old }
    ensures fitting { O.Outlet.fitting out.new ≡ O.Outlet.fitting out.old }
    ensures kept { O.Outlet.keeps out.old out.new }
    ensures refused { is_ok result ≡ false → out.new ≡ out.old }
{
    let count = records.len();
    if count > cells.len() {
        return Err(Refusal::NoRoom);
    }
    lay_out(cells, kind, records);
    let answer = out.put(kind, &cells[..count]);
    take_back(cells, records);
    answer
}
