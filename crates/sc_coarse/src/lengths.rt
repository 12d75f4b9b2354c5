//! The lengths of coarse schedules.
ghost use Rattle.std.specs.Prelude.{◌≡◌, ◌<◌, ◌^◌, All, length};
ghost use Rattle.sc_coarse.specs.Lengths.{item_length, block_length, blocks_length, length_at, CallsBelow, IsInBody};

use crate::Block;
use crate::coarse::Instance;
use sc_deck::Item;

/// The number of steps of an item that stands alone, where the instances that it may call are these.
fn item_length(item: &Item, done: &[Instance]) -> u128
    requires calls { CallsBelow (length done.now) item.now }
    requires fits { item_length (length_at done.now) item.now < 2 ^ 128 }
    ensures { result ≡ item_length (length_at done.now) item.now }
{
    match item {
        Item::Fresh(..) => 0,
        Item::Gate(_) => 1,
        Item::Call(callee, _) => done[*callee as usize].length,
        Item::Gates(_, turns) => u128::from(*turns),
        Item::Calls(callee, _, turns) => u128::from(*turns) * done[*callee as usize].length,
    }
}

/// The number of steps of a block of these items.
fn block_length(block: &Block, items: &[Item], done: &[Instance]) -> u128
    requires calls { All (CallsBelow (length done.now)) items.now }
    requires inside { IsInBody (length items.now) block.now }
    requires fits { block_length (length_at done.now) items.now block.now < 2 ^ 128 }
    ensures { result ≡ block_length (length_at done.now) items.now block.now }
{
    match block {
        Block::Step(_) => 1,
        Block::Alone(x) => item_length(&items[*x as usize], done),
    }
}

/// The number of steps of blocks of these items.
pub(crate) fn length_of(blocks: &[Block], items: &[Item], done: &[Instance]) -> u128
    requires calls { All (CallsBelow (length done.now)) items.now }
    requires inside { All (IsInBody (length items.now)) blocks.now }
    requires fits { blocks_length (length_at done.now) items.now blocks.now < 2 ^ 128 }
    ensures { result ≡ blocks_length (length_at done.now) items.now blocks.now }
{
    let mut length = 0;
    for block in blocks {
        length += block_length(block, items, done);
    }
    length
}
