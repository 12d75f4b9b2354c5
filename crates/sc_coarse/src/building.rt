//! The blocks of one body.
ghost use Rattle.std.specs.Prelude.{◌≡◌, ◌≤◌, ◌<◌, ◌+◌, ◌∷◌, ◌++◌, [], ℕ, false, List as Values, All, length, map, slice_index, IfOk, OnOk};
ghost use Rattle.sc_deck.specs.declared.item.Item.{Item as ItemValue};
ghost use Rattle.sc_coarse.specs.CoarseRule.{Part, item_step, IsCoarseRule, AreBlocks};
ghost use Rattle.sc_coarse.specs.Building.{IsSingle, stretch_part, IsBuilt, CanEnd};
ghost use Rattle.sc_coarse.specs.Refusals.{gates_with, body_too_large, item_width, width_in};

use crate::Block;
use sc_base::{List, Memory};
use sc_deck::Item;
use sc_gate::{Gate, Times};
use sc_sched::{Priority, Region, SchedFault, Step, schedule};
use std::alloc::Global;

/// The blocks so far, and the stretch that is begun with: the positions of its items, and their gates.
#[derive(Drop)]
pub(crate) struct Building {
    pub blocks: List<Block>,
    pub items: Vec<u32>,
    pub gates: Vec<Gate>,
}

/// A region with positions of items in place of positions in their list.
fn item_region(alloc: Global, region: &[u32], items: &[u32]) -> Result<Region, Memory>
    requires { All (λ x. x < length items.now) region.now }
    ensures { IfOk result (λ there. there ≡ map (slice_index items.now) region.now) }
{
    let mut there = List::from_vec(Vec::with_capacity(alloc, region.len())?);
    for x in region {
        there.push(items[*x as usize])?;
    }
    Ok(there)
}

/// The block of a step of a stretch with these items.
fn step_block(alloc: Global, step: &[Region], items: &[u32]) -> Result<Block, Memory>
    requires { All (λ region. All (λ x. x < length items.now) region) step.now }
    ensures { IfOk result (λ block. block ≡ item_step items.now step.now) }
{
    let mut regions = List::from_vec(Vec::with_capacity(alloc, step.len())?);
    for region in step {
        regions.push(item_region(alloc, region.as_slice(), items)?)?;
    }
    Ok(Block::Step(regions))
}

impl Building {
    /// No block yet.
    fn new(alloc: Global) -> Building
        ensures blocks { result.blocks ≡ [] }
        ensures items { result.items.items ≡ [] }
        ensures gates { result.gates.items ≡ [] }
    {
        Building {
            blocks: List::new(alloc),
            items: Vec::new(alloc),
            gates: Vec::new(alloc),
        }
    }

    /// Appends the blocks of these steps of the stretch.
    fn push_steps(&mut self, alloc: Global, steps: &[Step]) -> Result<(), Memory>
        requires { All (λ step. All (λ region. All (λ x. x < length self.old.items.items) region) step) steps.now }
        ensures blocks { OnOk result (self.new.blocks ≡ self.old.blocks ++ map (item_step self.old.items.items) steps.now) }
        ensures items { OnOk result (self.new.items ≡ self.old.items) }
    {
        for step in steps {
            let block = step_block(alloc, step.as_slice(), self.items.as_slice())?;
            self.blocks.push(block)?;
        }
        Ok(())
    }

    /// Appends the blocks of the stretch, if one is begun with, and begins with none.
    fn end_stretch<P: Priority>(
        &mut self,
        alloc: Global,
        k: u32,
        d: u32,
        order: &P,
    ) -> Result<(), Memory>
        requires k { 1 ≤ k }
        requires d { 1 ≤ d }
        requires same { length self.old.items.items ≡ length self.old.gates.items }
        requires can { CanEnd d self.old.gates.items }
        ensures items { OnOk result (self.new.items.items ≡ []) }
        ensures gates { OnOk result (self.new.gates.items ≡ []) }
        ensures blocks { OnOk result ((done : Values Part) → AreBlocks (P.comes order.now) k d done self.old.blocks →
            AreBlocks (P.comes order.now) k d (done ++ stretch_part self.old.items.items self.old.gates.items) self.new.blocks) }
    {
        if self.gates.is_empty() {
            return Ok(());
        }
        let gates = self.gates.as_slice();
        let plan = match schedule(alloc, gates, k, d, order, &Times::ones()) {
            Ok(plan) => plan,
            Err(SchedFault::Memory) => return Err(Memory),
            Err(SchedFault::SchedTooLarge) => unreachable!(),
            Err(SchedFault::Narrow(_)) => unreachable!(),
        };
        self.push_steps(alloc, plan.steps.as_slice())?;
        self.items.clear();
        self.gates.clear();
        Ok(())
    }

    /// Adds a call or a repeated gate, which ends the stretch.
    fn add_single<P: Priority>(
        &mut self,
        alloc: Global,
        at: u32,
        k: u32,
        d: u32,
        order: &P,
    ) -> Result<(), Memory>
        requires k { 1 ≤ k }
        requires d { 1 ≤ d }
        requires same { length self.old.items.items ≡ length self.old.gates.items }
        requires can { CanEnd d self.old.gates.items }
        ensures gates { OnOk result (self.new.gates.items ≡ []) }
        ensures built { OnOk result ((parts : Values Part) (item : ItemValue) (rest : Values ItemValue) → IsSingle item → IsBuilt (P.comes order.now) k d parts at (item ∷ rest) self.old →
            IsBuilt (P.comes order.now) k d parts (at + 1) rest self.new) }
    {
        self.end_stretch(alloc, k, d, order)?;
        self.blocks.push(Block::Alone(at))?;
        Ok(())
    }

    /// Adds the item at a position. A gate that is applied once joins the stretch; a call and a repeated gate end it.
    fn add_item<P: Priority>(
        &mut self,
        alloc: Global,
        at: u32,
        item: &Item,
        k: u32,
        d: u32,
        order: &P,
    ) -> Result<(), Memory>
        requires k { 1 ≤ k }
        requires d { 1 ≤ d }
        requires same { length self.old.items.items ≡ length self.old.gates.items }
        requires can { CanEnd d self.old.gates.items }
        requires few { gates_with (length self.old.gates.items) item.now ≤ 4194304 }
        requires narrow { item_width item.now ≤ d }
        ensures can { OnOk result (CanEnd d self.new.gates.items) }
        ensures many { OnOk result (length self.new.gates.items ≡ gates_with (length self.old.gates.items) item.now) }
        ensures built { OnOk result ((parts : Values Part) (rest : Values ItemValue) → IsBuilt (P.comes order.now) k d parts at (item.now ∷ rest) self.old →
            IsBuilt (P.comes order.now) k d parts (at + 1) rest self.new) }
    {
        match item {
            Item::Fresh(..) => Ok(()),
            Item::Gate(gate) => {
                self.items.push(at)?;
                self.gates.push(*gate)?;
                Ok(())
            }
            Item::Call(..) | Item::Gates(..) | Item::Calls(..) => {
                self.add_single(alloc, at, k, d, order)
            }
        }
    }
}

/// The coarse schedule of items.
pub(crate) fn blocks_of<P: Priority>(
    alloc: Global,
    items: &[Item],
    k: u32,
    d: u32,
    order: &P,
) -> Result<List<Block>, Memory>
    requires k { 1 ≤ k }
    requires d { 1 ≤ d }
    requires fits { body_too_large items.now ≡ false }
    requires narrow { (y : ℕ) → width_in items.now y ≤ d }
    ensures { IfOk result (IsCoarseRule (P.comes order.now) k d items.now) }
{
    let mut building = Building::new(alloc);
    for (at, item) in items.iter().enumerate() {
        building.add_item(alloc, at as u32, item, k, d, order)?;
    }
    building.end_stretch(alloc, k, d, order)?;
    Ok(building.blocks)
}
