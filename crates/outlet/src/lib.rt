//! Where cubes and learnt clauses are written.
#![tactic(auto)]

ghost use Rattle.std.specs.Prelude.{◌≡◌, Bool, true, false, List, [], ◌∷◌, ◌++◌, ℤ, is_ok};
ghost use Rattle.outlet.specs.declared.kinds.Kind.{Kind};
ghost use Rattle.outlet.specs.Entries.{Entry, entry_of, put_reply, put_after, OutletLaws};

pub mod kinds;
pub mod numbers;

pub use kinds::{Kind, Refusal};
pub use numbers::NumberOutlet;

pub trait Outlet {
    // That the outlet holds these entries.
    ghost means: { Self → List Entry → Type 0 };

    // Whether an entry fits after these; no put changes that.
    ghost fitting: { Self → List Entry → Entry → Bool };

    // What is the same of an outlet's memory before and after a put.
    ghost keeps: { Self → Self → Type 0 };

    // An outlet means one list only, and any number of puts keep what each keeps.
    ghost laws: { OutletLaws means keeps };

    fn fits(&self, kind: Kind, lits: &[i32]) -> bool
        ensures { (es : List Entry) → means self.now es → result ≡ fitting self.now es (entry_of kind lits.now) };

    fn put(&mut self, kind: Kind, lits: &[i32]) -> Result<(), Refusal>
        ensures value { (es : List Entry) → means self.old es → result ≡ put_reply (fitting self.old es (entry_of kind lits.now)) }
        ensures entries { (es : List Entry) → means self.old es → means self.new (put_after (fitting self.old es (entry_of kind lits.now)) es (entry_of kind lits.now)) }
        ensures fitting { fitting self.new ≡ fitting self.old }
        ensures kept { keeps self.old self.new }
        ensures refused { is_ok result ≡ false → self.new ≡ self.old };
}

// The parts of an outlet's put: whether an entry has room, and how one that has is written. What they mean is an outlet's
// meaning. No outlet is asked for here, since the put of one is made of these.
pub trait Append {
    ghost means: { Self → List Entry → Type 0 };

    ghost fitting: { Self → List Entry → Entry → Bool };

    // The same by what is left of its memory.
    ghost has_room: { Self → Kind → List ℤ → Bool };

    ghost keeps: { Self → Self → Type 0 };

    ghost laws: { OutletLaws means keeps };

    fn has_room(&self, kind: Kind, lits: &[i32]) -> bool
        ensures room { result ≡ has_room self.now kind lits.now }
        ensures means { (es : List Entry) → means self.now es → result ≡ fitting self.now es (entry_of kind lits.now) };

    // Writes an entry that fits.
    fn append(&mut self, kind: Kind, lits: &[i32])
        requires { has_room self.old kind lits.now ≡ true }
        ensures entries { (es : List Entry) → means self.old es → means self.new (es ++ entry_of kind lits.now ∷ []) }
        ensures fitting { fitting self.new ≡ fitting self.old }
        ensures kept { keeps self.old self.new };
}

// Writes an entry if it fits; the put of an outlet that is made of these parts.
pub fn put_if_room<A: Append>(out: &mut A, kind: Kind, lits: &[i32]) -> Result<(), Refusal>
    ensures value { (es : List Entry) → A.means out.old es → result ≡ put_reply (A.fitting out.old es (entry_of kind lits.now)) }
    ensures entries { (es : List Entry) → A.means out.old es → A.means out.new (put_after (A.fitting out.old es (entry_of kind lits.now)) es (entry_of kind lits.now)) }
    ensures fitting { A.fitting out.new ≡ A.fitting out.old }
    ensures kept { A.keeps out.old out.new }
    ensures refused { is_ok result ≡ false → out.new ≡ out.old }
{
    if !out.has_room(kind, lits) {
        return Err(Refusal::NoRoom);
    }
    out.append(kind, lits);
    Ok(())
}
