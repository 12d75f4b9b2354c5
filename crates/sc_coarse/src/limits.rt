//! Which decks have no coarse schedule.
ghost use Rattle.std.specs.Prelude.{◌≡◌, ◌≤◌, ◌<◌, ℕ, false, length, slice_get, Some, IfSome, IfNone};
ghost use Rattle.std.specs.Option.{option_map};
ghost use Rattle.sc_coarse.specs.Refusals.{items_of, gates_with, body_too_large, deck_too_large, item_width, width_in, IsFirstWide, NoneIsWide};

use sc_base::MOST_GATES;
use sc_deck::{Deck, Item};
use sc_gate::arity;

/// How many items of a body have a position.
const MOST_POSITIONS: usize = 4_294_967_295;

/// The items of the instance of this number, which is there.
pub(crate) fn items_at(deck: &Deck, i: u32) -> &[Item]
    requires { i < length deck.now }
    ensures { option_map items_of (slice_get deck.now i) ≡ Some result.now }
{
    deck.body_at(i).unwrap().items()
}

/// The number of gates of the stretch that is begun with, with one more item: a call and a repeated gate begin anew.
fn gates_with(gates: usize, item: &Item) -> usize
    requires { gates ≤ 4194304 }
    ensures { result ≡ gates_with gates item.now }
{
    match item {
        Item::Fresh(..) => gates,
        Item::Gate(_) => gates + 1,
        Item::Call(..) | Item::Gates(..) | Item::Calls(..) => 0,
    }
}

/// Whether there are more items than positions, or a stretch of more gates than are scheduled.
fn body_is_too_large(items: &[Item]) -> bool
    ensures { result ≡ body_too_large items.now }
{
    if items.len() > MOST_POSITIONS {
        return true;
    }
    let mut gates = 0;
    for item in items {
        gates = gates_with(gates, item);
        if gates > MOST_GATES {
            return true;
        }
    }
    false
}

/// Whether some body of the deck is too large.
pub(crate) fn is_too_large(deck: &Deck) -> bool
    ensures { result ≡ deck_too_large deck.now }
{
    for i in 0..deck.len() {
        if body_is_too_large(items_at(deck, i)) {
            return true;
        }
    }
    false
}

/// The number of qubits of a gate item; 0 for other items.
fn width(item: &Item) -> u32
    ensures { result ≡ item_width item.now }
{
    match item {
        Item::Gate(gate) | Item::Gates(gate, _) => arity(&gate.kind),
        Item::Fresh(..) | Item::Call(..) | Item::Calls(..) => 0,
    }
}

/// The position of the first gate item of more than `d` qubits.
fn first_wide_item(items: &[Item], d: u32) -> Option<u32>
    requires { length items.now ≤ 4294967295 }
    ensures wide { IfSome result (λ x. d < width_in items.now x) }
    ensures first { IfSome result (λ x. (y : ℕ) → y < x → width_in items.now y ≤ d) }
    ensures none { IfNone result ((y : ℕ) → width_in items.now y ≤ d) }
{
    for (x, item) in items.iter().enumerate() {
        if width(item) > d {
            return Some(x as u32);
        }
    }
    None
}

/// The first instance with a gate item of more than `d` qubits, and the position of its first such item.
pub(crate) fn first_wide(deck: &Deck, d: u32) -> Option<(u32, u32)>
    requires { deck_too_large deck.now ≡ false }
    ensures first { IfSome result (λ p. IsFirstWide d deck.now p.0 p.1) }
    ensures none { IfNone result (NoneIsWide d deck.now) }
{
    for i in 0..deck.len() {
        if let Some(x) = first_wide_item(items_at(deck, i), d) {
            return Some((i, x));
        }
    }
    None
}
