// A table of rules of one kind over lent numbers, with what is known of it, and the looks at its rules.
ghost use Rattle.std.specs.Prelude.{◌≡◌, true, length};
ghost use Rattle.meaning.specs.Tables.{parts, opens};

use rules::Kind;

// Each rule's literals are followed by a 0.
#[derive(Clone, Copy)]
pub struct Table<'a> {
    pub(crate) kind: Kind,
    pub(crate) table: &'a [i32],
    pub(crate) vars: usize,
    pub(crate) rules: usize,
    ghost sound: { opens vars table.now ≡ true },
    ghost counted: { length (parts table.now) ≡ rules },
}

// The looks at the rules that a table holds, one after the other, under a partial.
#[derive(Drop)]
pub(crate) struct Looks<'a, 'b> {
    pub(crate) kind: Kind,
    pub(crate) table: &'a [i32],
    pub(crate) partial: &'b [u8],
    ghost sound: { opens (length partial.now) table.now ≡ true },
}
