//! One step of a schedule.
ghost use Rattle.std.specs.Prelude.{◌≡◌, ◌≢◌, ◌==◌, ◌&&◌, not, ℕ, Bool, true, false, ◌<◌, ◌≤◌, ◌+◌, ◌%◌, ◌++◌, [], ◌∷◌, cond, length, slice_index, slice_set, IfOk, OnOk};
ghost use Rattle.sc_sched.specs.Board.{layout_of, waits};
ghost use Rattle.sc_sched.specs.Step.{IsShop, IsStep, count_below};
ghost use Rattle.sc_sched.specs.Rounds.{shop_of, stands, Free, Counted, Fill, FillsSome, Opened};

use crate::board::Board;
use crate::tray::Tray;
use sc_base::Memory;

/// Takes the first ready gate as long as a region is free. Answers how many are left free.
pub fn take_free(
    board: &mut Board,
    tray: &mut Tray,
    room: &[u32],
    regions: u32,
) -> Result<u32, Memory>
    requires shop { IsShop (shop_of (layout_of board.old) room.now regions) }
    requires few { length board.old.kind.items ≤ 4194304 }
    requires rooms { length room.now ≡ length tray.old.used.items }
    requires kinds { (x : ℕ) → x < length board.old.kind.items → slice_index board.old.kind.items x < length room.now }
    requires free { Free (shop_of (layout_of board.old) room.now regions) (waits board.old) (waits board.old) (stands tray.old.step.items) tray.old.used.items regions }
    requires opened { Opened tray.old.kinds.items tray.old.used.items }
    ensures layout { OnOk result (layout_of board.new ≡ layout_of board.old) }
    ensures used { OnOk result (length tray.new.used.items ≡ length tray.old.used.items) }
    ensures free { IfOk result (λ free. Free (shop_of (layout_of board.old) room.now regions) (waits board.old) (waits board.new) (stands tray.new.step.items) tray.new.used.items free) }
    ensures opened { OnOk result (Opened tray.new.kinds.items tray.new.used.items) }
    ensures inside { OnOk result (((z : ℕ) → stands tray.old.step.items z ≡ true → z < length board.old.kind.items) → (z : ℕ) → stands tray.new.step.items z ≡ true → z < length board.old.kind.items) }
    ensures ends { IfOk result (λ free. 0 < free → (z : ℕ) → z < length board.old.kind.items → waits board.new z ≡ false) }
{
    let mut free = regions;
    while free > 0 {
        let Some(x) = board.take_first() else {
            return Ok(free);
        };
        let kind = board.kind[x as usize];
        let opens = tray.put(x, kind, room[kind as usize])?;
        free -= opens;
    }
    Ok(0)
}

/// Fills the open region of a kind, if it has one.
pub fn fill_kind(board: &mut Board, tray: &mut Tray, room: &[u32], kind: u32) -> Result<(), Memory>
    requires kind { kind < length room.now }
    requires starts { kind + 1 < length board.old.start.items }
    requires few { length board.old.kind.items ≤ 4194304 }
    requires rooms { length room.now ≡ length tray.old.used.items }
    requires some { FillsSome (layout_of board.old) room.now (waits board.old) (stands tray.old.step.items) tray.old.used.items }
    ensures layout { OnOk result (layout_of board.new ≡ layout_of board.old) }
    ensures used { OnOk result (length tray.new.used.items ≡ length tray.old.used.items) }
    ensures others { OnOk result ((k : ℕ) → k ≢ kind → slice_index tray.new.used.items k ≡ slice_index tray.old.used.items k) }
    ensures more { OnOk result (slice_index tray.old.used.items kind ≤ slice_index tray.new.used.items kind) }
    ensures kinds { OnOk result (0 < slice_index tray.old.used.items kind → tray.new.kinds.items ≡ tray.old.kinds.items) }
    ensures inside { OnOk result (((z : ℕ) → stands tray.old.step.items z ≡ true → z < length board.old.kind.items) → (z : ℕ) → stands tray.new.step.items z ≡ true → z < length board.old.kind.items) }
    ensures fewer { OnOk result ((z : ℕ) → z < length board.old.kind.items → waits board.new z ≡ true → waits board.old z ≡ true) }
    ensures full { OnOk result ((z : ℕ) → z < length board.old.kind.items → slice_index board.old.kind.items z ≡ kind → waits board.new z ≡ true → slice_index tray.new.used.items kind % slice_index room.now kind ≡ 0) }
    ensures fill { OnOk result ((regions : ℕ) (ready taken : ℕ → Bool) → Fill (shop_of (layout_of board.old) room.now regions) ready (waits board.old) taken (stands tray.old.step.items) tray.old.used.items → Fill (shop_of (layout_of board.old) room.now regions) ready (waits board.new) taken (stands tray.new.step.items) tray.new.used.items) }
{
    while tray.used[kind as usize] % room[kind as usize] != 0 {
        let Some(x) = board.take_of_kind(kind) else {
            return Ok(());
        };
        tray.put(x, kind, room[kind as usize])?;
    }
    Ok(())
}

/// Takes one step: a ready gate is taken exactly where it fits beside those taken that are before it in the order.
pub fn take_step(
    board: &mut Board,
    tray: &mut Tray,
    room: &[u32],
    regions: u32,
) -> Result<(), Memory>
    requires shop { IsShop (shop_of (layout_of board.old) room.now regions) }
    requires few { length board.old.kind.items ≤ 4194304 }
    requires rooms { length room.now ≡ length tray.old.used.items }
    requires starts { length room.now < length board.old.start.items }
    requires kinds { (x : ℕ) → x < length board.old.kind.items → slice_index board.old.kind.items x < length room.now }
    requires free { Free (shop_of (layout_of board.old) room.now regions) (waits board.old) (waits board.old) (stands tray.old.step.items) tray.old.used.items regions }
    requires opened { Opened tray.old.kinds.items tray.old.used.items }
    ensures layout { OnOk result (layout_of board.new ≡ layout_of board.old) }
    ensures used { OnOk result (length tray.new.used.items ≡ length tray.old.used.items) }
    ensures step { OnOk result (IsStep (shop_of (layout_of board.old) room.now regions) (waits board.old) (stands tray.new.step.items)) }
    ensures inside { OnOk result (((z : ℕ) → stands tray.old.step.items z ≡ true → z < length board.old.kind.items) → (z : ℕ) → stands tray.new.step.items z ≡ true → z < length board.old.kind.items) }
    ensures opened { OnOk result (Opened tray.new.kinds.items tray.new.used.items) }
    ensures counted { OnOk result (Counted (shop_of (layout_of board.old) room.now regions) (waits board.old) (waits board.new) (stands tray.new.step.items) tray.new.used.items) }
{
    let free = take_free(board, tray, room, regions)?;
    if free > 0 {
        return Ok(());
    }
    let mut at = 0;
    while at < tray.kinds.len() {
        let kind = tray.kinds[at];
        fill_kind(board, tray, room, kind)?;
        at += 1;
    }
    Ok(())
}
