//! The gates of a step, cut into regions.
ghost use Rattle.std.specs.Prelude.{◌≡◌, ℕ, true, ◌<◌, ◌≤◌, length, slice_index, OnOk, IfOk};
ghost use Rattle.sc_sched.specs.Board.{layout_of};
ghost use Rattle.sc_sched.specs.Cutters.{IsIdle};
ghost use Rattle.sc_sched.specs.Rounds.{shop_of, stands};
ghost use Rattle.sc_sched.specs.Schedule.{cut as cut_of};

use crate::Step;
use crate::board::Board;
use crate::groups::Groups;
use sc_base::Memory;
use std::alloc::Global;

/// Puts the gates of a step in order.
#[derive(Drop)]
pub struct Cutter {
    /// The gates of a step, ascending.
    pub order: Vec<u32>,
    pub groups: Groups,
}

impl Cutter {
    /// No step, for kinds below a number.
    pub fn new(alloc: Global, kinds: usize) -> Result<Cutter, Memory>
        ensures { IfOk result (IsIdle kinds) }
    {
        let groups = Groups::new(alloc, kinds)?;
        Ok(Cutter {
            order: Vec::new(alloc),
            groups,
        })
    }

    /// The regions of a step of gates of the board: the kinds in the order of their lowest gates, the gates of a kind ascending.
    pub fn cut(
        &mut self,
        alloc: Global,
        board: &Board,
        room: &[u32],
        step: &[u32],
    ) -> Result<Step, Memory>
        requires few { length board.now.kind.items ≤ 4194304 }
        requires idle { IsIdle (length room.now) self.old }
        requires gates { (x : ℕ) → stands step.now x ≡ true → x < length board.now.kind.items }
        requires kinds { (x : ℕ) → x < length board.now.kind.items → slice_index board.now.kind.items x < length room.now }
        requires roomy { (k : ℕ) → k < length room.now → 0 < slice_index room.now k }
        ensures idle { OnOk result (IsIdle (length room.now) self.new) }
        ensures cut { IfOk result (λ regions. (k : ℕ) → regions ≡ cut_of (shop_of (layout_of board.now) room.now k) (stands step.now)) }
    {
        self.order.clear();
        self.order.extend_from_slice(step)?;
        self.order.sort_unstable();
        self.groups
            .gather(alloc, self.order.as_slice(), board.kind.as_slice())?;
        let regions = self.groups.regions(alloc, room)?;
        self.groups.clear();
        Ok(regions)
    }
}
