//! A gate list laid out for its steps.
ghost use Rattle.std.specs.Prelude.{◌≡◌, ◌<◌, ◌≤◌, ℕ, false, length, IfOk};
ghost use Rattle.sc_sched.specs.Board.{layout_of, waits};
ghost use Rattle.sc_sched.specs.Laid.{rank_at, before_by, IsLaid};

use crate::board::Board;
use crate::kinds::{Kinds, number_kinds};
use crate::places::{in_order, inverse};
use crate::sets::NumberSet;
use crate::slots::{Slots, fill_slots};
use crate::{Priority, Rank};
use sc_base::Memory;
use sc_gate::Gate;
use std::alloc::Global;

/// A board with no gate that is ready, and the number of gates of each kind that one region takes.
#[derive(Drop)]
pub(crate) struct Laid {
    pub board: Board,
    pub room: Vec<u32>,
}

/// Gates of these ranks by their places in the order and by their kinds, for regions of d qubits.
pub(crate) fn lay_out<P: Priority>(
    alloc: Global,
    gates: &[Gate],
    ranks: &[Rank],
    order: &P,
    d: u32,
) -> Result<Laid, Memory>
    requires few { length gates.now ≤ 4194304 }
    requires ranks { length ranks.now ≡ length gates.now }
    requires positions { (x : ℕ) → x < length gates.now → (rank_at ranks.now x).position ≡ x }
    ensures laid { IfOk result (λ laid. IsLaid gates.now d (before_by (P.comes order.now) ranks.now) (layout_of laid.board) laid.room.items) }
    ensures waits { IfOk result (λ laid. (x : ℕ) → x < length gates.now → waits laid.board x ≡ false) }
{
    let Kinds { kind, room } = number_kinds(alloc, gates, d)?;
    let gate_at = in_order(alloc, ranks, order)?;
    let place = inverse(alloc, &gate_at)?;
    let Slots {
        gate_in,
        slot,
        start,
    } = fill_slots(alloc, &gate_at, &kind, room.len())?;
    let board = Board {
        gate_at,
        place,
        gate_in,
        slot,
        kind,
        start,
        places: NumberSet::new(alloc, gates.len())?,
        slots: NumberSet::new(alloc, gates.len())?,
    };
    Ok(Laid { board, room })
}
