//! Room for frames, reserved once.
ghost use Rattle.std.specs.Prelude.{◌≡◌, ◌<◌, ◌≤◌, [], ◌∷◌, length, IfOk, MatchOption};
ghost use Rattle.sc_flat.specs.Stacks.{with_frame};

use sc_base::Memory;
use std::alloc::Global;
use std::marker::Model;

/// Where a walk stands in one body.
#[derive(Clone, Copy, Debug, PartialEq, Eq)]
pub(crate) struct Frame {
    /// The number of the body.
    pub body: u32,
    /// The next item.
    pub item: usize,
    /// How many turns of that item are done.
    pub done: u64,
    /// How many qubits the frames outside of it hold.
    pub qubits: usize,
    /// How many classical bits they hold.
    pub cbits: usize,
}

/// The frames outside of the innermost one, as many as were reserved at most. Contracts see the inner ones first.
#[derive(Debug, Drop)]
pub(crate) struct Frames {
    frames: Vec<Frame>,
    room: u32,
}

impl Model for Frames {
    ghost use Rattle.std.specs.Prelude.{◌≤◌, length, reverse, vec_capacity};
    ghost use Rattle.sc_flat.specs.Stacks.{Stack};

    ghost Value = { Stack };

    ghost view = { λ f. record { frames = reverse f.frames.items; room = f.room } };

    ghost invariant = { λ f. f.room ≤ vec_capacity f.frames };
}

impl Frames {
    /// Room for so many frames, and none held.
    pub fn reserve(alloc: Global, room: u32) -> Result<Frames, Memory>
        ensures { IfOk result (λ frames. frames ≡ record { frames = []; room = room }) }
    {
        match Vec::with_capacity(alloc, room as usize) {
            Ok(frames) => Ok(Frames { frames, room }),
            Err(_) => Err(Memory),
        }
    }

    /// Holds no frame.
    pub fn clear(&mut self)
        ensures { self.new ≡ record self.old { frames = [] } }
    {
        self.frames.clear();
    }

    /// Holds one frame more, inside of the others.
    #[tactic(auto, using(crate::proofs::StackLemmas::reverse_push))]
    pub fn push(&mut self, frame: Frame)
        requires { length self.old.frames < self.old.room }
        ensures { self.new ≡ with_frame frame self.old }
    {
        self.frames.push(frame).unwrap();
    }

    /// Takes the innermost frame away; None where none is held.
    pub fn pop(&mut self) -> Option<Frame>
        ensures { MatchOption result ((self.old.frames ≡ []) × (self.new ≡ self.old)) (λ frame. self.old ≡ with_frame frame self.new) }
    {
        self.frames.pop()
    }
}
