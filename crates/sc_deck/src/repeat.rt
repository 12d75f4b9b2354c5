//! The first wire of a list that stands earlier in it.
ghost use Rattle.std.specs.Prelude.{◌≡◌, ◌≢◌, ◌<◌, ◌≤◌, ◌↔◌, ◌/◌, ◌^◌, ℕ, List, IsTrue, IfSome, IfNone, Contains, length, take, slice_get, MatchBool, All};
ghost use Rattle.sc_gate.specs.Gates.{AreDistinct, IsNew};
ghost use Rattle.sc_deck.specs.Repeats.{StandsEarlier, wire_place, mark_at};

use sc_base::Class;
use sc_gate::Wire;

/// Lists up to this length are searched wire by wire.
const SHORT: usize = 64;

/// Wires with numbers below this have a place in the table.
const NUMBERS: u32 = 65536;

/// The first position whose wire stands earlier in the list; None where no wire stands twice.
/// Takes no memory, and one step a wire where the numbers are below 65,536.
pub fn first_repeat(wires: &[Wire]) -> Option<usize>
    ensures repeat { IfSome result (λ i. StandsEarlier wires.now i) }
    ensures first { IfSome result (λ i. AreDistinct (take i wires.now)) }
    ensures none { IfNone result (AreDistinct wires.now) }
{
    if wires.len() <= SHORT {
        first_repeat_by_search(wires)
    } else {
        first_repeat_of_many(wires)
    }
}

fn first_repeat_of_many(wires: &[Wire]) -> Option<usize>
    ensures repeat { IfSome result (λ i. StandsEarlier wires.now i) }
    ensures first { IfSome result (λ i. AreDistinct (take i wires.now)) }
    ensures none { IfNone result (AreDistinct wires.now) }
{
    let mut seen = [0u64; 2048];
    first_repeat_by_table(wires, &mut seen)
}

fn first_repeat_by_search(wires: &[Wire]) -> Option<usize>
    ensures repeat { IfSome result (λ i. StandsEarlier wires.now i) }
    ensures first { IfSome result (λ i. AreDistinct (take i wires.now)) }
    ensures none { IfNone result (AreDistinct wires.now) }
{
    for (i, wire) in wires.iter().enumerate() {
        if stands_in(wire, &wires[..i]) {
            return Some(i);
        }
    }
    None
}

/// `seen` has a bit for each class and each number below 65,536, none set.
fn first_repeat_by_table(wires: &[Wire], seen: &mut [u64]) -> Option<usize>
    requires size { length seen.old ≡ 2048 }
    requires fresh { All (λ word. word ≡ 0) seen.old }
    ensures repeat { IfSome result (λ i. StandsEarlier wires.now i) }
    ensures first { IfSome result (λ i. AreDistinct (take i wires.now)) }
    ensures none { IfNone result (AreDistinct wires.now) }
{
    for (i, wire) in wires.iter().enumerate() {
        if wire.number < NUMBERS {
            let place = place_in_table(wire);
            if is_marked(seen, place) {
                return Some(i);
            }
            mark(seen, place);
        } else if stands_in(wire, &wires[..i]) {
            return Some(i);
        }
    }
    None
}

fn place_in_table(wire: &Wire) -> usize
    requires { wire.now.number < 65536 }
    ensures { result ≡ wire_place wire.now }
{
    match wire.class {
        Class::Q => wire.number as usize,
        Class::C => wire.number as usize + 65536,
    }
}

#[tactic(auto, using(std::proofs::lemmas::Nat::Bits::shr_and_one))]
fn is_marked(seen: &[u64], place: usize) -> bool
    requires { place / 64 < length seen.now }
    ensures { IsTrue result ↔ (mark_at seen.now place ≡ 1) }
{
    seen[place / 64] >> (place % 64) & 1 == 1
}

/// Sets the bit at a place.
fn mark(seen: &mut [u64], place: usize)
    requires { place / 64 < length seen.old }
    ensures size { length seen.new ≡ length seen.old }
    ensures here { mark_at seen.new place ≡ 1 }
    ensures others { (k : ℕ) → k ≢ place → mark_at seen.new k ≡ mark_at seen.old k }
{
    let word = place / 64;
    seen[word] |= bit(place % 64);
}

fn bit(place: usize) -> u64
    requires { place < 64 }
    ensures { result ≡ 2 ^ place }
{
    1 << place
}

fn stands_in(wire: &Wire, wires: &[Wire]) -> bool
    ensures { MatchBool result (Contains wires.now wire.now) (IsNew wire.now wires.now) }
{
    for other in wires {
        if is_same(wire, other) {
            return true;
        }
    }
    false
}

pub(crate) fn is_same(a: &Wire, b: &Wire) -> bool
    ensures { IsTrue result ↔ (a.now ≡ b.now) }
{
    *a == *b
}
