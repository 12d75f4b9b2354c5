//! Gates wait for the last gates before them on their wires.
ghost use Rattle.std.specs.Prelude.{◌≡◌, ℕ, Bool, true, false, ◌<◌, ◌≤◌, ◌&&◌, ◌||◌, length, IfOk, IfSome, replicate, slice_index_or};
ghost use Rattle.std.specs.List.{list_any};
ghost use Rattle.sc_sched.specs.Board.{layout_of, waits};
ghost use Rattle.sc_sched.specs.Neighbours.{none_or, is_number, holds, neighbours_at, AreLast, AreNext};
ghost use Rattle.sc_sched.specs.Rounds.{stands};
ghost use Rattle.sc_sched.specs.Waiting.{is_placed, is_ready};

use crate::board::Board;
use crate::neighbours::{Marks, last_gates, next_gates};
use sc_base::Memory;
use sc_gate::{Gate, OperandNumbers};
use std::alloc::Global;

#[derive(Drop)]
pub struct Waiting {
    /// for each gate the gates before and after it on its wires
    pub last: Vec<Marks>,
    pub next: Vec<Marks>,
    pub placed: Vec<bool>,
}

impl Waiting {
    /// No gate is placed.
    pub fn new(alloc: Global, gates: &[Gate]) -> Result<Waiting, Memory>
        requires { length gates.now ≤ 4194304 }
        ensures last { IfOk result (λ waiting. AreLast gates.now waiting.last.items) }
        ensures next { IfOk result (λ waiting. AreNext gates.now waiting.next.items) }
        ensures placed { IfOk result (λ waiting. waiting.placed.items ≡ replicate (length gates.now) false) }
    {
        let last = last_gates(alloc, gates)?;
        let next = next_gates(alloc, gates)?;
        let placed = vec![in alloc; false; gates.len()]?;
        Ok(Waiting { last, next, placed })
    }

    fn is_placed(&self, x: Option<u32>) -> bool
        ensures { result ≡ none_or (is_placed self.now) x }
    {
        match x {
            Some(x) => self.placed.get(x as usize) == Some(&true),
            None => true,
        }
    }

    fn is_ready(&self, x: u32) -> bool
        requires placed { x < length self.now.placed.items }
        requires last { x < length self.now.last.items }
        ensures { result ≡ is_ready self.now x }
    {
        let OperandNumbers { a, b, c } = self.last[x as usize].unpack();
        !self.placed[x as usize] && self.is_placed(a) && self.is_placed(b) && self.is_placed(c)
    }

    /// The gates of a step are placed.
    pub fn place(&mut self, step: &[u32])
        requires { (x : ℕ) → stands step.now x ≡ true → x < length self.old.placed.items }
        ensures last { self.new.last.items ≡ self.old.last.items }
        ensures next { self.new.next.items ≡ self.old.next.items }
        ensures many { length self.new.placed.items ≡ length self.old.placed.items }
        ensures placed { (x : ℕ) → is_placed self.new x ≡ (is_placed self.old x || stands step.now x) }
    {
        for x in step {
            self.placed[*x as usize] = true;
        }
    }

    fn add(&self, board: &mut Board, x: Option<u32>)
        requires placed { length self.now.placed.items ≡ length board.old.kind.items }
        requires last { length self.now.last.items ≡ length board.old.kind.items }
        requires inside { IfSome x (λ x. x < length board.old.kind.items) }
        ensures layout { layout_of board.new ≡ layout_of board.old }
        ensures waits { (z : ℕ) → z < length board.old.kind.items → waits board.new z ≡ (waits board.old z || (is_number x z && is_ready self.now z)) }
    {
        if let Some(x) = x {
            if self.is_ready(x) {
                board.add(x);
            }
        }
    }

    fn add_each(&self, board: &mut Board, next: OperandNumbers)
        requires placed { length self.now.placed.items ≡ length board.old.kind.items }
        requires last { length self.now.last.items ≡ length board.old.kind.items }
        requires inside { (x : ℕ) → holds next x ≡ true → x < length board.old.kind.items }
        ensures layout { layout_of board.new ≡ layout_of board.old }
        ensures waits { (z : ℕ) → z < length board.old.kind.items → waits board.new z ≡ (waits board.old z || (holds next z && is_ready self.now z)) }
    {
        self.add(board, next.a);
        self.add(board, next.b);
        self.add(board, next.c);
    }

    /// Of the gates after those of a step the ready ones wait from here on.
    pub fn free(&self, board: &mut Board, step: &[u32])
        requires placed { length self.now.placed.items ≡ length board.old.kind.items }
        requires last { length self.now.last.items ≡ length board.old.kind.items }
        requires next { length self.now.next.items ≡ length board.old.kind.items }
        requires inside { (p x : ℕ) → holds (neighbours_at self.now.next.items p) x ≡ true → x < length board.old.kind.items }
        requires step { (x : ℕ) → stands step.now x ≡ true → x < length board.old.kind.items }
        ensures layout { layout_of board.new ≡ layout_of board.old }
        ensures waits { (z : ℕ) → z < length board.old.kind.items → waits board.new z ≡ (waits board.old z || (list_any (λ x. holds (neighbours_at self.now.next.items x) z) step.now && is_ready self.now z)) }
    {
        for x in step {
            self.add_each(board, self.next[*x as usize].unpack());
        }
    }

    /// Every ready gate waits from here on.
    pub fn free_all(&self, board: &mut Board)
        requires placed { length self.now.placed.items ≡ length board.old.kind.items }
        requires last { length self.now.last.items ≡ length board.old.kind.items }
        requires few { length board.old.kind.items ≤ 4194304 }
        ensures layout { layout_of board.new ≡ layout_of board.old }
        ensures waits { (z : ℕ) → z < length board.old.kind.items → waits board.new z ≡ (waits board.old z || is_ready self.now z) }
    {
        for x in 0..self.placed.len() as u32 {
            self.add(board, Some(x));
        }
    }
}
