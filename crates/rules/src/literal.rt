// Literals as numbers, and assignments as bytes.
ghost use Rattle.std.specs.Prelude.{◌≡◌, ◌≤◌, length, neg_ℤ, slice_index, unsigned_abs};
ghost use Rattle.rules.specs.Literals.{Literal, place, side, opposite, is_true, put, free};

// The index of the byte of a literal's variable; 0 is read as 1.
pub fn place_of(literal: i32) -> usize
    ensures { result ≡ place literal }
{
    (literal.unsigned_abs() as usize).saturating_sub(1)
}

// The byte that makes a literal true.
pub fn side_of(literal: i32) -> u8
    ensures { result ≡ side literal }
{
    if literal < 0 { 2 } else { 1 }
}

// The negation; the lowest number has none and stays.
#[tactic(auto, using(std::proofs::lemmas::Int::wraps))]
pub fn opposite(literal: i32) -> i32
    ensures value { result ≡ opposite literal }
    ensures negation { unsigned_abs literal ≤ 2147483647 → result ≡ neg_ℤ literal }
{
    literal.wrapping_neg()
}

// The byte of a literal's variable.
pub fn byte_of(assignment: &[u8], literal: i32) -> u8
    requires { Literal (length assignment.now) literal }
    ensures { result ≡ slice_index assignment.now (place literal) }
{
    assignment[place_of(literal)]
}

// Whether a literal is true.
pub fn is_true(assignment: &[u8], literal: i32) -> bool
    requires { Literal (length assignment.now) literal }
    ensures { result ≡ is_true assignment.now literal }
{
    byte_of(assignment, literal) == side_of(literal)
}

// Makes a literal true. A number that is no literal of these variables changes nothing, but for 0, which is read as 1.
pub fn assign(assignment: &mut [u8], literal: i32)
    ensures { assignment.new ≡ put assignment.old literal }
{
    let place = place_of(literal);
    if place < assignment.len() {
        assignment[place] = side_of(literal);
    }
}

// How many variables are free.
#[tactic(auto, using(crate::proofs::Counts::free_counts))]
pub fn free_count(assignment: &[u8]) -> usize
    ensures value { result ≡ free assignment.now }
    ensures few { result ≤ length assignment.now }
{
    assignment.iter().filter(|byte| **byte == 0).count()
}
