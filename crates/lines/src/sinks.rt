// Where the pieces of a line go: behind the content of a stack, or into a count of the bytes that are left.
ghost use Rattle.std.specs.Prelude.{◌≡◌, ℕ, ◌+◌, List, length};
ghost use Rattle.stack.specs.Items.{spares};
ghost use Rattle.outlet.specs.Memory.{Appended};
ghost use Rattle.lines.specs.Sinks.{SinkLaws, Takes, stack_laws, room_laws};

use outlet::Refusal;
use stack::Stack;

pub trait Sink {
    // What it is once it took these bytes.
    ghost took: { Self → List ℕ → Self → Type 0 };

    // How many bytes it has room for.
    ghost room: { Self → ℕ };

    // Piece after piece is all of them at once, and a sink has as much less room as it took.
    ghost laws: { SinkLaws took room };

    fn take(&mut self, piece: &[u8]) -> Result<(), Refusal>
        ensures { Takes took room self.old piece.now self.new result };
}

impl Sink for Stack<'_, u8> {
    ghost took = { Appended };

    ghost room = { λ s. length (spares s) };

    ghost laws = { stack_laws };

    fn take(&mut self, piece: &[u8]) -> Result<(), Refusal> {
        if piece.len() > self.spare_len() {
            return Err(Refusal::NoRoom);
        }
        self.extend_from_slice(piece);
        Ok(())
    }
}

// A count of the bytes that are left; nothing is written.
#[derive(Clone, Copy)]
pub struct Room {
    pub left: usize,
}

impl Sink for Room {
    ghost took = { λ r ws q. q.left + length ws ≡ r.left };

    ghost room = { λ r. r.left };

    ghost laws = { room_laws };

    fn take(&mut self, piece: &[u8]) -> Result<(), Refusal> {
        self.left = self.left.checked_sub(piece.len()).ok_or(Refusal::NoRoom)?;
        Ok(())
    }
}
