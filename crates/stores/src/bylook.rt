// A store of which only the numbers and the looks are used: its walks are the trait's own.
ghost use Rattle.stores.specs.Stores.{through};

use crate::look::{Look, Refusal};
use crate::store::Rules;

#[derive(Drop)]
pub struct ByLook<'a, S: Rules> {
    pub store: &'a S,
}

impl<'a, S: Rules> Rules for ByLook<'a, S> {
    ghost means = { λ s. S.Rules.means s.store.now };

    ghost laws = { through S.Rules.laws (λ s. s.store.now) };

    fn variables(&self) -> usize {
        self.store.variables()
    }

    fn rules(&self) -> usize {
        self.store.rules()
    }

    fn look(&self, rule: usize, partial: &[u8]) -> Result<Look, Refusal> {
        self.store.look(rule, partial)
    }
}
