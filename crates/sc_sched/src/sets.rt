//! A set of numbers below a bound, with the least member from a number on.
ghost use Rattle.std.specs.Prelude.{◌≡◌, ◌≢◌, ◌==◌, ℕ, Bool, true, false, ◌<◌, ◌≤◌, length, slice_set, slice_index_or, IfSome, IfNone, IfOk, List, replicate};
ghost use Rattle.std.specs.Int.{bit_at};
ghost use Rattle.sc_sched.specs.WordSets.{members, IsWordSet};

use crate::numbers::NumberTree;
use sc_base::Memory;
use std::alloc::Global;
use std::marker::Model;

/// Each number is a bit of a word, 64 numbers to a word, and a tree has the words with a member.
#[derive(Drop)]
pub struct NumberSet {
    words: Vec<u64>,
    used: NumberTree,
    bound: usize,
    /// No member is below it.
    low: usize,
}

impl Model for NumberSet {
    ghost Value = { List Bool };

    ghost view = { λ s. members s.words.items s.bound };

    ghost invariant = { λ s. IsWordSet s.words.items s.used s.bound s.low };
}

impl NumberSet {
    /// None of the numbers below n.
    pub fn new(alloc: Global, n: usize) -> Result<NumberSet, Memory>
        ensures { IfOk result (λ s. s ≡ replicate n false) }
    {
        let many = n / 64 + 1;
        let words = vec![in alloc; 0u64; many]?;
        Ok(NumberSet {
            words,
            used: NumberTree::new(alloc, many)?,
            bound: n,
            low: n,
        })
    }

    /// Puts i in or takes it out.
    pub fn put(&mut self, i: usize, is_in: bool)
        requires { i < length self.old }
        ensures { self.new ≡ slice_set self.old i is_in }
    {
        self.low = lowered(self.low, i, is_in);
        let at = i / 64;
        let word = self.words[at];
        let changed = with_bit(word, (i % 64) as u32, is_in);
        self.words[at] = changed;
        if (word == 0) != (changed == 0) {
            self.used.put(at, changed != 0);
        }
    }

    /// The least member from a number on.
    pub fn first_from(&self, from: usize) -> Option<usize>
        ensures found { IfSome result (λ i. (from ≤ i) × (i < length self.now) × (slice_index_or self.now i false ≡ true) × ((k : ℕ) → from ≤ k → k < i → slice_index_or self.now k false ≡ false)) }
        ensures none { IfNone result ((k : ℕ) → from ≤ k → k < length self.now → slice_index_or self.now k false ≡ false) }
    {
        let start = from.max(self.low);
        self.first_behind(start)
    }

    /// The same without the use of `low`.
    fn first_behind(&self, from: usize) -> Option<usize>
        ensures found { IfSome result (λ i. (from ≤ i) × (i < length self.now) × (slice_index_or self.now i false ≡ true) × ((k : ℕ) → from ≤ k → k < i → slice_index_or self.now k false ≡ false)) }
        ensures none { IfNone result ((k : ℕ) → from ≤ k → k < length self.now → slice_index_or self.now k false ≡ false) }
    {
        if from >= self.bound {
            return None;
        }
        let here = from / 64;
        if let Some(bit) = first_bit(self.words[here], (from % 64) as u32) {
            return Some(64 * here + bit as usize);
        }
        let there = self.used.first_from(here + 1)?;
        Some(64 * there + lowest_bit(self.words[there]) as usize)
    }
}

/// What no member is below once a number is put in or taken out.
fn lowered(low: usize, i: usize, is_in: bool) -> usize
    requires { i < usize.MAX }
    ensures others { (k : ℕ) → k < result → k ≢ i → k < low }
    ensures here { is_in ≡ true → result ≤ i }
{
    if is_in {
        low.min(i)
    } else if low == i {
        i + 1
    } else {
        low
    }
}

/// The word with a bit set or cleared.
fn with_bit(word: u64, bit: u32, is_in: bool) -> u64
    requires { bit < 64 }
    ensures bit { (bit_at result bit == 1) ≡ is_in }
    ensures others { (k : ℕ) → k < 64 → k ≢ bit → bit_at result k ≡ bit_at word k }
{
    if is_in {
        word | 1 << bit
    } else {
        word & !(1 << bit)
    }
}

/// The place of the lowest bit that is set.
fn lowest_bit(word: u64) -> u32
    requires { 0 < word }
    ensures inside { result < 64 }
    ensures set { bit_at word result ≡ 1 }
    ensures lowest { (k : ℕ) → k < result → bit_at word k ≡ 0 }
{
    word.trailing_zeros()
}

/// The place of the lowest bit from one on that is set.
fn first_bit(word: u64, from: u32) -> Option<u32>
    requires { from < 64 }
    ensures found { IfSome result (λ bit. (from ≤ bit) × (bit < 64) × (bit_at word bit ≡ 1) × ((k : ℕ) → from ≤ k → k < bit → bit_at word k ≡ 0)) }
    ensures none { IfNone result ((k : ℕ) → from ≤ k → k < 64 → bit_at word k ≡ 0) }
{
    let rest = word & u64::MAX << from;
    if rest == 0 {
        None
    } else {
        Some(lowest_bit(rest))
    }
}
