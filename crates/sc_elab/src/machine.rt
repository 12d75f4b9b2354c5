//! What is kept from one body to the next.
ghost use Rattle.std.specs.Prelude.{◌≡◌, ◌≢◌, ◌<◌, ◌≤◌, length, slice_index, OnOk, IfOk, IfErr, IfSome, IfNone};
ghost use Rattle.sc_deck.specs.Decks.{IsNewKey};
ghost use Rattle.sc_deck.specs.Modules.{heights_of};
ghost use Rattle.sc_meaning.specs.Instances.{with_key, number_in_deck};
ghost use Rattle.sc_meaning.specs.Kept.{In};
ghost use Rattle.sc_elab.specs.Machines.{IsEntered};

use indexmap::IndexSet;
use sc_base::MOST_INSTANCES;
use sc_deck::{Deck, Key};
use sc_meaning::ElabFault;
use std::alloc::Global;

/// The keys that were entered, and the bodies that have returned.
#[derive(Drop)]
pub(crate) struct Machine {
    pub(crate) entered: IndexSet<Key>,
    pub(crate) deck: Deck,
}

impl Machine {
    /// Enters a key. The 65,537th key is refused.
    pub(crate) fn enter(&mut self, alloc: Global, key: &Key) -> Result<(), ElabFault>
        requires { length self.old.entered.keys ≤ 65536 }
        ensures ok { OnOk result (self.new.entered.keys ≡ with_key self.old.entered.keys key.now) }
        ensures few { OnOk result (length self.new.entered.keys ≤ 65536) }
        ensures deck { OnOk result (self.new.deck ≡ self.old.deck) }
        ensures err { IfErr result (λ f. f ≢ ElabFault.Memory → IsEntered self.old.entered.keys key.now f) }
    {
        if self.entered.contains(key) {
            return Ok(());
        }
        if self.entered.len() >= MOST_INSTANCES {
            return Err(ElabFault::TooManyInstances);
        }
        let key = key.try_clone(alloc)?;
        match self.entered.insert(key) {
            Ok(_) => Ok(()),
            Err(_) => Err(ElabFault::Memory),
        }
    }

    /// The number of the body of a key that has returned, and none where it has not. Where its height is more than the depth
    /// that is left, another entering of it goes too deep.
    #[tactic(auto, using(crate::proofs::Adding::number_found, crate::proofs::Adding::found_below))]
    pub(crate) fn kept(&self, key: &Key, depth: usize) -> Result<Option<u32>, ElabFault>
        ensures number { IfOk result (λ o. IfSome o (λ n. n ≡ number_in_deck self.now.deck key.now)) }
        ensures there { IfOk result (λ o. IfSome o (λ n. In self.now.deck key.now)) }
        ensures low { IfOk result (λ o. IfSome o (λ n. slice_index (heights_of self.now.deck) n ≤ depth)) }
        ensures new { IfOk result (λ o. IfNone o (IsNewKey self.now.deck key.now)) }
        ensures err { IfErr result (λ f. f ≡ ElabFault.TooDeep) }
        ensures deep { IfErr result (λ f. In self.now.deck key.now) }
        ensures high { IfErr result (λ f. depth < slice_index (heights_of self.now.deck) (number_in_deck self.now.deck key.now)) }
    {
        let Some(number) = self.deck.find(key) else {
            return Ok(None);
        };
        let count = self.deck.len();
        prove!(number < count);
        let Some(height) = self.deck.height(number) else {
            unreachable!()
        };
        if height as usize > depth {
            return Err(ElabFault::TooDeep);
        }
        Ok(Some(number))
    }
}
