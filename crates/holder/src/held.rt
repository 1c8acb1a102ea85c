// The loans that are held.
ghost use Rattle.std.specs.Prelude.{◌≡◌, false, All};

use book::Loan;

mod calls;

// A collection that still holds loans cannot be let go.
// Stays: a ghost field and no model, which would hide from callers that the loans are fresh, and would have to show the room too.
pub struct Loans {
    held: Vec<Loan>,
    ghost fresh: { All (λ loan. loan.settled ≡ false) held.items },
}
