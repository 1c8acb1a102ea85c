// What is asked of a partial after the pass: the best score, how many variables are set, a model.
ghost use Rattle.std.specs.Prelude.{◌≡◌, map, length, Some};
ghost use Rattle.rules.specs.Literals.{Literal, Each};
ghost use Rattle.stack.specs.declared.kinds.Record.{Record as TheRecord};
ghost use Rattle.lookahead.specs.Nodes.{best, better, filled, set_in};
ghost use Rattle.lookahead.specs.Answers.{noted, best_note, literal_in, model_byte};

use rules::byte_of;
use stack::Record;

// The better of the best so far and another score. Variables come in rising order, so that at a tie the earlier one stays.
fn better(top: Option<Record>, new: Record) -> Record
    ensures { best_note (Some result) ≡ better (best_note top) (noted new) }
{
    match top {
        Some(old) if old.height >= new.height => old,
        _ => new,
    }
}

// The literal of the free variable with the greatest score, the lowest variable at a tie.
pub fn choose(partial: &[u8], notes: &[Record]) -> Option<i32>
    requires { Each (λ (x : TheRecord). Literal (length partial.now) x.decision) notes.now }
    ensures { result ≡ literal_in (best partial.now (map noted notes.now)) }
{
    let mut top = None;
    for note in notes {
        if byte_of(partial, note.decision) == 0 {
            top = Some(better(top, *note));
        }
    }
    top.map(|note| note.decision)
}

// How many variables are set.
#[tactic(auto, using(crate::proofs::Counts::set_counts))]
pub fn set_count(partial: &[u8]) -> usize
    ensures { result ≡ set_in partial.now }
{
    partial.iter().filter(|byte| **byte != 0).count()
}

// The byte of a variable in the model.
fn model_byte(byte: u8) -> u8
    ensures { result ≡ model_byte byte }
{
    if byte == 0 { 2 } else { byte }
}

// Makes the free variables false.
pub fn fill(partial: &mut [u8])
    ensures { partial.new ≡ filled partial.old }
{
    for b in partial.iter_mut() {
        *b = model_byte(*b);
    }
}
