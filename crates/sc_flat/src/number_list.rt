//! A list of numbers in which long runs of neighbours take the room of one.
ghost use Rattle.std.specs.Prelude.{◌≡◌, ◌+◌, ◌<◌, ◌≤◌, ◌^◌, [], ◌∷◌, ◌++◌, length, take, reverse, slice_index, vec_capacity, IfOk};
ghost use Rattle.sc_flat.specs.Frames.{numbers_from};
ghost use Rattle.sc_flat.specs.Runs.{BeginBefore, IsFound, RunsKept, spread};

use sc_base::Memory;
use std::alloc::Global;
use std::marker::Model;

/// From how many neighbours on a run is kept by the first of them.
const LONG: u32 = 16;

/// Neighbours in a list of numbers, kept by the first of them.
#[derive(Clone, Copy, Debug, PartialEq, Eq)]
pub(crate) struct Run {
    /// How many numbers of the list stand before them.
    pub start: usize,
    /// How many of those are kept one by one.
    pub singles: usize,
    /// The first of them.
    pub first: u32,
    /// How many they are.
    pub count: u32,
}

/// A list of numbers, and for how many there is room. Long runs of neighbours are kept by their first number, and all others
/// one by one.
#[derive(Debug, Drop)]
pub(crate) struct NumberList {
    singles: Vec<u32>,
    runs: Vec<Run>,
    room: usize,
}

impl Model for NumberList {
    ghost use Rattle.std.specs.Prelude.{◌≤◌, length, reverse, vec_capacity};
    ghost use Rattle.sc_flat.specs.Listed.{Listed};
    ghost use Rattle.sc_flat.specs.Runs.{spread, RunsKept};

    ghost Value = { Listed };

    ghost view = { λ l. record { numbers = spread (reverse l.runs.items) l.singles.items; room = l.room } };

    ghost invariant = { λ l. RunsKept (reverse l.runs.items) l.singles.items × (length (spread (reverse l.runs.items) l.singles.items) ≤ l.room) × (l.room ≤ vec_capacity l.singles) };
}

impl NumberList {
    /// Room for so many numbers, and none in the list.
    pub fn reserve(alloc: Global, room: usize) -> Result<NumberList, Memory>
        ensures { IfOk result (λ list. list ≡ record { numbers = []; room = room }) }
    {
        let Ok(singles) = Vec::with_capacity(alloc, room) else {
            return Err(Memory);
        };
        let Ok(runs) = Vec::with_capacity(alloc, room / LONG as usize) else {
            return Err(Memory);
        };
        Ok(NumberList {
            singles,
            runs,
            room,
        })
    }

    /// How many numbers there are.
    pub fn len(&self) -> usize
        ensures { result ≡ length self.now.numbers }
    {
        match self.runs.last() {
            Some(run) => run.start + run.count as usize + (self.singles.len() - run.singles),
            None => self.singles.len(),
        }
    }

    /// Puts a number behind the others.
    pub fn push(&mut self, number: u32)
        requires { length self.old.numbers < self.old.room }
        ensures { self.new ≡ record self.old { numbers = self.old.numbers ++ number ∷ [] } }
    {
        self.singles.push(number).unwrap();
    }

    /// Puts n numbers, from `first` on, behind the others.
    pub fn push_run(&mut self, first: u32, n: u32)
        requires room { length self.old.numbers + n ≤ self.old.room }
        requires few { first + n < 2 ^ 32 }
        ensures { self.new ≡ record self.old { numbers = self.old.numbers ++ numbers_from first n } }
    {
        if n < LONG || self.runs.len() >= self.runs.capacity() {
            self.push_each(first, n);
        } else {
            self.start_run(first, n);
        }
    }

    /// The same, one by one.
    fn push_each(&mut self, first: u32, n: u32)
        requires room { length self.old.numbers + n ≤ self.old.room }
        requires few { first + n < 2 ^ 32 }
        ensures { self.new ≡ record self.old { numbers = self.old.numbers ++ numbers_from first n } }
    {
        for k in 0..n {
            self.push(first + k);
        }
    }

    /// The same by the first of them, or one by one where the list has no room for a run more.
    fn start_run(&mut self, first: u32, n: u32)
        requires room { length self.old.numbers + n ≤ self.old.room }
        requires few { first + n < 2 ^ 32 }
        ensures { self.new ≡ record self.old { numbers = self.old.numbers ++ numbers_from first n } }
    {
        let run = Run {
            start: self.len(),
            singles: self.singles.len(),
            first,
            count: n,
        };
        if self.runs.push(run).is_err() {
            self.push_each(first, n);
        }
    }

    /// Keeps so many numbers, the first ones.
    pub fn truncate(&mut self, length: usize)
        ensures { self.new ≡ record self.old { numbers = take length self.old.numbers } }
    {
        drop_runs(&mut self.singles, &mut self.runs, length);
        cut_last(&mut self.singles, &mut self.runs, length);
    }

    /// The number at a place.
    pub fn number(&self, place: usize) -> u32
        requires { place < length self.now.numbers }
        ensures { result ≡ slice_index self.now.numbers place }
    {
        let k = runs_before(self.runs.as_slice(), place + 1);
        if k == 0 {
            return self.singles[place];
        }
        let run = self.runs[k - 1];
        let past = place - run.start;
        let count = run.count as usize;
        if past < count {
            run.first + past as u32
        } else {
            self.singles[run.singles + (past - count)]
        }
    }
}

/// How many runs begin before so many numbers end.
fn runs_before(runs: &[Run], length: usize) -> usize
    ensures { IsFound runs.now length result }
{
    let mut low = 0;
    let mut high = runs.len();
    if high > 0 && runs[high - 1].start < length {
        return high;
    }
    while low < high {
        let middle = low + (high - low) / 2;
        if runs[middle].start < length {
            low = middle + 1;
        } else {
            high = middle;
        }
    }
    low
}

/// Takes the runs away that begin behind so many numbers, and what is kept behind each.
fn drop_runs(singles: &mut Vec<u32>, runs: &mut Vec<Run>, length: usize)
    requires kept { RunsKept (reverse runs.old.items) singles.old.items }
    ensures kept { RunsKept (reverse runs.new.items) singles.new.items }
    ensures numbers { take length (spread (reverse runs.new.items) singles.new.items) ≡ take length (spread (reverse runs.old.items) singles.old.items) }
    ensures before { BeginBefore length (reverse runs.new.items) }
    ensures capacity { vec_capacity singles.new ≡ vec_capacity singles.old }
{
    let k = runs_before(runs.as_slice(), length);
    if k < runs.len() {
        singles.truncate(runs[k].singles);
        runs.truncate(k);
    }
}

/// Keeps so many numbers, where the last run begins before their end.
fn cut_last(singles: &mut Vec<u32>, runs: &mut Vec<Run>, length: usize)
    requires kept { RunsKept (reverse runs.old.items) singles.old.items }
    requires before { BeginBefore length (reverse runs.old.items) }
    ensures kept { RunsKept (reverse runs.new.items) singles.new.items }
    ensures numbers { spread (reverse runs.new.items) singles.new.items ≡ take length (spread (reverse runs.old.items) singles.old.items) }
    ensures capacity { vec_capacity singles.new ≡ vec_capacity singles.old }
{
    let Some(run) = runs.pop() else {
        singles.truncate(length);
        return;
    };
    let past = length - run.start;
    let count = past.min(run.count as usize);
    let behind = (past - count).min(singles.len() - run.singles);
    singles.truncate(run.singles + behind);
    let rest = Run {
        count: count as u32,
        ..run
    };
    runs.push(rest).unwrap();
}
