// The literals of a record: the side being searched, and what it adds to an entry.
ghost use Rattle.std.specs.Prelude.{◌≡◌};
ghost use Rattle.branches.specs.Laying.{searched as searched_of, written as written_of};

use outlet::Kind;
use rules::opposite;
use stack::Record;

pub fn searched(r: Record) -> i32
    ensures { result ≡ searched_of r }
{
    if r.second {
        opposite(r.decision)
    } else {
        r.decision
    }
}

pub fn written(kind: Kind, r: Record) -> i32
    ensures { result ≡ written_of kind r }
{
    match kind {
        Kind::Cube => searched(r),
        Kind::Learnt => opposite(searched(r)),
    }
}
