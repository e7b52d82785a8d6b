ghost use Rattle.std.specs.Prelude.{◌≡◌, ℕ, [], length, drop, is_ok, IfOk};
ghost use Rattle.std.specs.Option.{option_map};
ghost use Rattle.machine.specs.Machine.{awaited, altered};
ghost use Rattle.tables.specs.Views.{entry_of, waited, turn, first_in, join_of};

use layout::body::Body;
use layout::names::Block;
use list::WaitingList;
use std::alloc::{AllocError, Global};
use std::collections::VecDeque;
use std::mem;

pub mod list;

/// Sixteen blocks wait, and no other can join them.
#[derive(Clone, Copy, PartialEq, Eq, Debug)]
pub struct Full;

impl WaitingList {
    /// A list in which nobody waits.
    pub fn new(heap: Global) -> Result<WaitingList, AllocError>
        ensures { IfOk result (λ w. w ≡ []) }
    {
        let slots = VecDeque::with_capacity(heap, 16)?;
        Ok(WaitingList { slots })
    }

    /// How many blocks wait.
    pub fn len(&self) -> usize
        ensures { result ≡ length self.now }
    {
        self.slots.len()
    }

    fn find(&self, block: Block) -> Option<usize>
        ensures { result ≡ turn self.now block.0 }
    {
        // Slice by slice: the deque's own iterator asks at each slot which slice it is in.
        let (front, back) = self.slots.as_slices();
        if let Some(i) = turn_in(front, block) {
            return Some(i);
        }
        let i = turn_in(back, block)?;
        Some(front.len() + i)
    }

    /// The waiting value of a block.
    pub fn value_of(&self, block: Block) -> Option<[u8; 48]>
        ensures { result ≡ awaited self.now block.0 }
    {
        let i = self.find(block)?;
        let slot = &self.slots[i];
        Some(slot.value)
    }

    /// Gives a block that waits another value, in its turn, and answers the one that it had.
    /// `None` says that the block does not wait, and that the list is as it was.
    pub fn replace(&mut self, block: Block, value: [u8; 48]) -> Option<[u8; 48]>
        ensures former { result ≡ awaited self.old block.0 }
        ensures list { self.new ≡ altered self.old block.0 value }
    {
        let i = self.find(block)?;
        let slot = &mut self.slots[i];
        Some(mem::replace(&mut slot.value, value))
    }

    /// Puts a block at the end, where fewer than sixteen wait.
    pub fn join(&mut self, slot: Body) -> Result<(), Full>
        ensures { (is_ok result, self.new) ≡ join_of self.old (entry_of slot) }
    {
        if self.slots.len() >= 16 {
            return Err(Full);
        }
        self.slots.push_back_reserved(slot);
        Ok(())
    }

    /// The first in turn.
    pub fn first(&self) -> Option<Body>
        ensures { option_map entry_of result ≡ first_in self.now }
    {
        self.slots.front().copied()
    }

    /// Takes the first in turn off the list.
    pub fn take_first(&mut self) -> Option<Body>
        ensures first { option_map entry_of result ≡ first_in self.old }
        ensures rest { self.new ≡ drop 1 self.old }
    {
        self.slots.pop_front()
    }
}

/// The turn of a block among some slots.
fn turn_in(slots: &[Body], block: Block) -> Option<usize>
    ensures { result ≡ turn (waited slots.now) block.0 }
{
    slots.iter().position(|slot| slot.block == block)
}
