//! Steps are taken until each gate is placed.
ghost use Rattle.std.specs.Prelude.{◌≡◌, ◌<◌, ◌≤◌, ℕ, Bool, false, length, IfOk};
ghost use Rattle.sc_sched.specs.Board.{layout_of, waits};
ghost use Rattle.sc_sched.specs.Laid.{IsLaid};
ghost use Rattle.sc_sched.specs.Placing.{IsLaidOut};
ghost use Rattle.sc_sched.specs.PrioritySchedules.{NoneIsWider, shop_of_gates};
ghost use Rattle.sc_sched.specs.Schedule.{IsPriority};

use crate::Step;
use crate::cutting::Cutter;
use crate::layout::Laid;
use crate::round::take_step;
use crate::tray::Tray;
use crate::waiting::Waiting;
use sc_base::{List, Memory};
use sc_gate::Gate;
use std::alloc::Global;

/// The steps of a gate list on k regions, by its layout.
pub(crate) fn place_all(
    alloc: Global,
    gates: &[Gate],
    laid: Laid,
    k: u32,
) -> Result<List<Step>, Memory>
    requires few { length gates.now ≤ 4194304 }
    requires regions { 1 ≤ k }
    requires laid { IsLaidOut gates.now (layout_of laid.board) laid.room.items }
    requires waits { (x : ℕ) → x < length gates.now → waits laid.board x ≡ false }
    ensures { IfOk result (λ steps. (d : ℕ) (before : ℕ → ℕ → Bool) → IsLaid gates.now d before (layout_of laid.board) laid.room.items → NoneIsWider d gates.now →
        IsPriority (shop_of_gates gates.now k d before) steps) }
{
    let Laid { mut board, room } = laid;
    let mut waiting = Waiting::new(alloc, gates)?;
    waiting.free_all(&mut board);
    let mut tray = Tray::new(alloc, room.len())?;
    let mut cutter = Cutter::new(alloc, room.len())?;
    let mut steps = List::new(alloc);
    loop {
        take_step(&mut board, &mut tray, room.as_slice(), k)?;
        if tray.step.is_empty() {
            return Ok(steps);
        }
        let step = tray.step.as_slice();
        steps.push(cutter.cut(alloc, &board, room.as_slice(), step)?)?;
        waiting.place(step);
        waiting.free(&mut board, step);
        tray.clear();
    }
}
