//! How a frame reads its operands and puts its results.

ghost use Rattle.std.specs.Prelude.{◌≡◌, ◌∷◌, [], IfOk, map};
ghost use Rattle.count_machine_model.specs.MachineSteps.Operands.{address_in, contents, first_leaf, int_among, is_there_in, put, put_address, put_there};

use crate::machine::Machine;
use count_machine_leaves::{lay_one, lay_over, leaf_at, move_over};
use count_machine_model::{Address, Frame, Home, Local, LocalAddress};
use holder_model_values::Leaf;
use sil_ast::{Exhausted, List, ValueId};

/// What stands where no address was put.
pub(crate) const NO_ADDRESS: Address = Address {
    home: Home::Slot {
        index: 0,
        serial: 0,
    },
    from: 0,
    is_part: false,
};

impl Machine {
    /// Whether a value of the frame is there.
    #[inline]
    pub fn is_there(&self, frame: &Frame, value: ValueId) -> bool
        ensures { result ≡ is_there_in self.now frame.now value }
    {
        match self
            .there
            .get(frame.values.saturating_add(value.0 as usize))
        {
            Some(there) => *there,
            None => false,
        }
    }

    /// A value of the frame is there.
    #[inline]
    pub fn put_there(&mut self, frame: &Frame, value: ValueId)
        ensures { self.new ≡ put_there self.old frame.now value }
    {
        let at = frame.values.saturating_add(value.0 as usize);
        if at < self.there.len() {
            self.there[at] = true;
        }
    }

    /// A value becomes one leaf.
    #[inline]
    pub fn put_leaf(&mut self, frame: &Frame, to: Local, leaf: Leaf)
        ensures { self.new ≡ put self.old frame.now to (leaf ∷ []) }
    {
        lay_one(
            &mut self.leaves,
            frame.leaves.saturating_add(to.at as usize),
            leaf,
        );
        self.put_there(frame, to.value);
    }

    /// A value becomes two leaves.
    #[inline]
    pub fn put_two(&mut self, frame: &Frame, to: Local, first: Leaf, second: Leaf)
        ensures { self.new ≡ put self.old frame.now to (first ∷ second ∷ []) }
    {
        lay_over(
            &mut self.leaves,
            frame.leaves.saturating_add(to.at as usize),
            &[first, second],
        );
        self.put_there(frame, to.value);
    }

    /// A value becomes what another one is.
    #[inline]
    pub fn copy(&mut self, frame: &Frame, from: Local, to: Local)
        ensures { self.new ≡ put self.old frame.now to (contents self.old frame.now from) }
    {
        let at = frame.leaves.saturating_add(from.at as usize);
        move_over(
            &mut self.leaves,
            at,
            from.size as usize,
            frame.leaves.saturating_add(to.at as usize),
        );
        self.put_there(frame, to.value);
    }

    /// The address that a value is.
    #[inline]
    pub fn address(&self, frame: &Frame, address: LocalAddress) -> Address
        ensures { result ≡ address_in self.now frame.now address }
    {
        match self
            .addresses
            .get(frame.addresses.saturating_add(address.at as usize))
        {
            Some(found) => *found,
            None => NO_ADDRESS,
        }
    }

    /// A value becomes an address.
    #[inline]
    pub fn put_address(&mut self, frame: &Frame, to: LocalAddress, address: Address)
        ensures { self.new ≡ put_address self.old frame.now to address }
    {
        let at = frame.addresses.saturating_add(to.at as usize);
        if at < self.addresses.len() {
            self.addresses[at] = address;
        }
        self.put_there(frame, to.value);
    }

    /// The first leaf of a value.
    #[inline]
    pub fn first(&self, frame: &Frame, local: Local) -> Leaf
        ensures { result ≡ first_leaf (contents self.now frame.now local) }
    {
        if local.size == 0 {
            return Leaf::Blank;
        }
        leaf_at(&self.leaves, frame.leaves.saturating_add(local.at as usize))
    }

    /// The integer that a value is.
    #[inline]
    pub fn int(&self, frame: &Frame, local: Local) -> i64
        ensures { result ≡ int_among (contents self.now frame.now local) }
    {
        match self.first(frame, local) {
            Leaf::Int(number) => number,
            Leaf::Object(_) => 0,
            Leaf::Tag(_) => 0,
            Leaf::Blank => 0,
        }
    }

    /// The integers that values are.
    pub fn ints(&self, frame: &Frame, operands: &[Local]) -> Result<List<i64>, Exhausted>
        ensures { IfOk result (λ ns. ns ≡ map (λ l. int_among (contents self.now frame.now l)) operands.now) }
    {
        let mut numbers = List::with_capacity(*self.moving.allocator(), operands.len())?;
        for local in operands {
            numbers.push(self.int(frame, *local))?;
        }
        Ok(numbers)
    }
}
