// A decision, and back from a branch that is done.
ghost use Rattle.std.specs.Prelude.{◌≡◌, ℕ, ◌<◌, ◌≤◌, true, false, [], ◌∷◌, ◌++◌, length, take};
ghost use Rattle.rules.specs.Literals.{free, opposite as opposite_of};
ghost use Rattle.stack.specs.Items.{items, spares, sound, size as type_size};
ghost use Rattle.lookahead.specs.Answers.{news};
ghost use Rattle.account.specs.Piles.{Fit, back};
ghost use Rattle.branches.specs.Spelled.{newest_first, place_by, unsearched as unsearched_of};

use lookahead::write_news;
use rules::opposite;
use stack::{Record, Stack};

// Takes what a node has set beyond `before` onto the trail.
fn take_news(trail: &mut Stack<i32>, before: &[u8], after: &[u8])
    requires { (length after.now ≡ length before.now) × ((length before.now ≤ 2048) × (free before.now ≤ length (spares trail.old))) }
    ensures items { items trail.new ≡ items trail.old ++ news 0 before.now after.now }
    ensures whole { sound trail.old → sound trail.new }
    ensures places { type_size trail.new ≡ type_size trail.old }
{
    let from = trail.len();
    if from > trail.cells.len() {
        return; // no place is left there, so that no variable was free
    }
    let count = write_news(before, after, &mut trail.cells[from..]);
    trail.keep_spares(count);
}

// Takes what a node has set beyond `before` onto the trail, and then the decided literal with its record.
pub fn push_decision(
    trail: &mut Stack<i32>,
    records: &mut Stack<Record>,
    before: &[u8],
    after: &[u8],
    literal: i32,
)
    requires { (length after.now ≡ length before.now) × ((length before.now ≤ 2048) × (free before.now ≤ length (spares trail.old))) }
    ensures trail { length (news 0 before.now after.now) < length (spares trail.old) → items trail.new ≡ (items trail.old ++ news 0 before.now after.now) ++ (literal ∷ []) }
    ensures records { sound trail.old → 0 < length (spares records.old) → items records.new ≡ items records.old ++ (record { decision = literal; height = length (items trail.old ++ news 0 before.now after.now); second = false } ∷ []) }
    ensures whole { sound trail.old → sound records.old → sound trail.new × sound records.new }
    ensures places { (type_size trail.new ≡ type_size trail.old) × (type_size records.new ≡ type_size records.old) }
{
    take_news(trail, before, after);
    let height = trail.len();
    trail.put(literal);
    records.put(Record {
        decision: literal,
        height,
        second: false,
    });
}

// Goes on to the second side of a record that was taken off.
fn turn_over(trail: &mut Stack<i32>, records: &mut Stack<Record>, r: Record)
    ensures trail { r.height < length (items trail.old) → items trail.new ≡ take r.height (items trail.old) ++ (opposite_of r.decision ∷ []) }
    ensures records { records.old.len < type_size records.old → items records.new ≡ items records.old ++ (record { decision = r.decision; height = r.height; second = true } ∷ []) }
    ensures whole { sound trail.old → sound records.old → sound trail.new × sound records.new }
    ensures places { (type_size trail.new ≡ type_size trail.old) × (type_size records.new ≡ type_size records.old) }
{
    trail.truncate(r.height);
    trail.put(opposite(r.decision));
    records.put(Record { second: true, ..r });
}

// Back to the newest record whose first side is being searched, and on to its second side; false where there is none.
// Stays: a bool, since what is left stands in the stacks, and an Option would hold nothing.
pub fn retreat(trail: &mut Stack<i32>, records: &mut Stack<Record>) -> bool
    ensures place { (n : ℕ) → n ≤ 2048 → sound records.old → Fit n (items trail.old) (newest_first (items records.old)) → place_by result (items trail.new) (newest_first (items records.new)) ≡ back (items trail.old) (newest_first (items records.old)) }
    ensures whole { sound trail.old → sound records.old → sound trail.new × sound records.new }
    ensures places { (type_size trail.new ≡ type_size trail.old) × (type_size records.new ≡ type_size records.old) }
{
    while let Some(r) = records.pop() {
        if !r.second {
            turn_over(trail, records, r);
            return true;
        }
    }
    false
}

// The open branches: the literals that are set, oldest first, and a record for each decision of the current branch.
// That each lies within its memory is a fact of the type, so that the methods promise it without a premise.
// Stays: `Fit` is a premise and no fact of the type, since `push_decision` takes any bytes and any literal.
#[derive(Drop)]
pub struct Pile<'a> {
    pub trail: Stack<'a, i32>,
    pub records: Stack<'a, Record>,
    ghost whole: { sound trail × sound records },
}

impl Pile<'_> {
    // Takes what a node has set beyond `before` onto the trail, and then the decided literal with its record.
    pub fn push_decision(&mut self, before: &[u8], after: &[u8], literal: i32)
        requires { (length after.now ≡ length before.now) × ((length before.now ≤ 2048) × (free before.now ≤ length (spares self.old.trail))) }
        ensures trail { length (news 0 before.now after.now) < length (spares self.old.trail) → items self.new.trail ≡ (items self.old.trail ++ news 0 before.now after.now) ++ (literal ∷ []) }
        ensures records { 0 < length (spares self.old.records) → items self.new.records ≡ items self.old.records ++ (record { decision = literal; height = length (items self.old.trail ++ news 0 before.now after.now); second = false } ∷ []) }
        ensures places { (type_size self.new.trail ≡ type_size self.old.trail) × (type_size self.new.records ≡ type_size self.old.records) }
    {
        push_decision(&mut self.trail, &mut self.records, before, after, literal);
    }

    // Back to the newest record whose first side is being searched, and on to its second side; false where there is none.
    pub fn retreat(&mut self) -> bool
        ensures place { (n : ℕ) → n ≤ 2048 → Fit n (items self.old.trail) (newest_first (items self.old.records)) → place_by result (items self.new.trail) (newest_first (items self.new.records)) ≡ back (items self.old.trail) (newest_first (items self.old.records)) }
        ensures places { (type_size self.new.trail ≡ type_size self.old.trail) × (type_size self.new.records ≡ type_size self.old.records) }
    {
        retreat(&mut self.trail, &mut self.records)
    }
}

// How many second sides have still to be searched.
#[tactic(auto, using(crate::proofs::Counts::unsearched_counts))]
pub fn unsearched(records: &[Record]) -> usize
    ensures { result ≡ unsearched_of records.now }
{
    records.iter().filter(|r| !r.second).count()
}
