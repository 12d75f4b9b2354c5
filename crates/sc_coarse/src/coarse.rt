//! The coarse schedules of the instances of a deck.
ghost use Rattle.std.specs.Prelude.{◌≡◌, slice_get};
ghost use Rattle.std.specs.Option.{option_map, option_copied};
ghost use Rattle.sc_coarse.specs.Instances.{length_of, blocks_of};

use crate::Block;
use sc_base::List;
use std::marker::Model;

/// The coarse schedule of one instance, and how many steps it stands for.
#[derive(Debug, Drop)]
pub struct Instance {
    pub length: u128,
    pub blocks: List<Block>,
}

/// The coarse schedules of the instances of a deck, in the order of their numbers.
#[derive(Debug, Drop)]
pub struct Coarse {
    instances: List<Instance>,
}

impl Model for Coarse {
    ghost use Rattle.std.specs.Prelude.{List};
    ghost use Rattle.sc_coarse.specs.declared.coarse.Instance.{Instance};

    ghost Value = { List Instance };

    ghost view = { λ c. c.instances };
}

impl Coarse {
    /// The coarse schedules of these instances.
    pub(crate) fn new(instances: List<Instance>) -> Coarse
        ensures { result ≡ instances }
    {
        Coarse { instances }
    }

    /// The coarse schedule of instance `i`, from 0, with its length; None where there is no such instance.
    pub(crate) fn instance(&self, i: u32) -> Option<&Instance>
        ensures { option_copied result ≡ slice_get self.now i }
    {
        self.instances.get(i as usize)
    }

    /// The number of steps of instance `i`, from 0, with all its calls expanded; None where there is no such instance.
    /// Takes no memory.
    pub fn length(&self, i: u32) -> Option<u128>
        ensures { result ≡ option_map length_of (slice_get self.now i) }
    {
        match self.instances.get(i as usize) {
            Some(instance) => Some(instance.length),
            None => None,
        }
    }

    /// The blocks of instance `i`, from 0, in order; None where there is no such instance. Takes no memory.
    pub fn blocks(&self, i: u32) -> Option<&List<Block>>
        ensures { option_copied result ≡ option_map blocks_of (slice_get self.now i) }
    {
        match self.instances.get(i as usize) {
            Some(instance) => Some(&instance.blocks),
            None => None,
        }
    }
}
