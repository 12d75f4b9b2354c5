//! Numbers, orders and times lists in words.
ghost use Rattle.std.specs.Prelude.{◌≡◌, ◌≤◌, IfSome};
ghost use Rattle.sc_words.specs.Words.{number, is_lpfs, times_of, times_entry};

use sc_base::{GateName, read_u64};
use sc_gate::Times;

/// The most digits of a number.
const MOST_DIGITS: usize = 20;

/// The longest duration of a gate.
const LONGEST: u64 = 1_000_000;

/// The number of 1 to 20 decimal digits in the text, if it lies from `low` to `high`.
pub(crate) fn read_number(text: &[u8], low: u64, high: u64) -> Option<u64>
    ensures { result ≡ number low high text.now }
{
    if text.len() > MOST_DIGITS {
        return None;
    }
    let Some(number) = read_u64(text) else {
        return None;
    };
    if number < low || number > high {
        return None;
    }
    Some(number)
}

/// Whether the order in the text is `lpfs`, and None where it is neither that nor `rcp`.
pub(crate) fn read_order(text: &str) -> Option<bool>
    ensures { result ≡ is_lpfs text.now }
{
    if text == "lpfs" {
        Some(true)
    } else if text == "rcp" {
        Some(false)
    } else {
        None
    }
}

/// The gate and the duration of an entry.
fn read_entry(entry: &str) -> Option<(GateName, u32)>
    ensures entry { result ≡ times_entry entry.now }
    ensures low { IfSome result (λ r. 1 ≤ r.1) }
    ensures high { IfSome result (λ r. r.1 ≤ 1000000) }
{
    let Some((gate, duration)) = entry.split_once('=') else {
        return None;
    };
    let Some(gate) = GateName::from_text(gate.as_bytes()) else {
        return None;
    };
    let Some(duration) = read_number(duration.as_bytes(), 1, LONGEST) else {
        return None;
    };
    Some((gate, duration as u32))
}

/// The durations of the times list in the text, with 1 for each gate that has no entry there.
pub(crate) fn read_times(text: &str) -> Option<Times>
    ensures { result ≡ times_of text.now }
{
    let mut times = Times::ones();
    let mut least = 0;
    for entry in text.split(',') {
        let Some((gate, duration)) = read_entry(entry) else {
            return None;
        };
        if gate.place() < least {
            return None;
        }
        least = gate.place() + 1;
        times.set(gate, duration);
    }
    Some(times)
}
