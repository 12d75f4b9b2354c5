//! Region lines at the front of a text.
ghost use Rattle.std.specs.Prelude.{◌≡◌, ℕ, ◌<◌, ◌++◌, List as Values, ◌∷◌, IfSome, IfNone, IfOk, All};
ghost use Rattle.sc_sched.specs.Text.{after_spaces, region_line, IsWritable};

use sc_base::{List, Memory, take_number, take_text};
use sc_sched::Region;
use std::alloc::Global;

/// The same list, without room for more elements.
fn exact<T>(list: List<T>) -> List<T>
    ensures { result ≡ list }
{
    let mut items = list.into_vec();
    items.shrink_to_fit();
    List::from_vec(items)
}

/// The positions, each below `gates` and after a space, with which the bytes begin before a line feed, and what follows
/// it. None where they begin with no such positions.
fn take_positions(
    alloc: Global,
    bytes: &[u8],
    gates: u32,
) -> Result<Option<(Region, &[u8])>, Memory>
    ensures some { IfOk result (λ found. IfSome found (λ r. bytes.now ≡ after_spaces r.0 ++ 10 ∷ r.1.now)) }
    ensures below { IfOk result (λ found. IfSome found (λ r. All (λ x. x < gates) r.0)) }
    ensures none { IfOk result (λ found. IfNone found ((region more : Values ℕ) → All (λ x. x < gates) region → bytes.now ≡ after_spaces region ++ 10 ∷ more → ⊥)) }
{
    let mut region = List::new(alloc);
    let mut rest = bytes;
    while let Some(after_space) = take_text(rest, b" ") {
        let Some((position, more)) = take_number(after_space) else {
            return Ok(None);
        };
        if position >= gates as u64 {
            return Ok(None);
        }
        region.push(position as u32)?;
        rest = more;
    }
    match take_text(rest, b"\n") {
        Some(more) => Ok(Some((exact(region), more))),
        None => Ok(None),
    }
}

/// The region with whose line the bytes begin, and what follows the line. None where they begin with no such line.
pub(crate) fn take_region_line(
    alloc: Global,
    bytes: &[u8],
    gates: u32,
) -> Result<Option<(Region, &[u8])>, Memory>
    ensures some { IfOk result (λ found. IfSome found (λ r. bytes.now ≡ region_line r.0 ++ r.1.now)) }
    ensures writable { IfOk result (λ found. IfSome found (λ r. IsWritable gates r.0)) }
    ensures none { IfOk result (λ found. IfNone found ((region more : Values ℕ) → IsWritable gates region → bytes.now ≡ region_line region ++ more → ⊥)) }
{
    let Some(after_word) = take_text(bytes, b"region") else {
        return Ok(None);
    };
    let Some((region, more)) = take_positions(alloc, after_word, gates)? else {
        return Ok(None);
    };
    if region.len() == 0 {
        return Ok(None);
    }
    Ok(Some((region, more)))
}
