//! Where the values of a function stand in a frame, by their numbers.

ghost use Rattle.std.specs.Prelude.{◌≡◌, ◌<◌, ◌+◌, ◌^◌, IfOk, OnOk};
ghost use Rattle.count_machine_layouts.specs.FrameLayouts.inner.Layouts as spec;

use count_machine_model::{Local, LocalAddress};
use sil_ast::{Exhausted, FuncId, List, Storage, ValueId};
use std::alloc::Global;

/// What a frame keeps of a value.
#[derive(Clone, Copy, Debug, PartialEq, Eq)]
pub enum Kept {
    /// So many leaves.
    Leaves(u32),
    /// The address of a place with so many leaves, or of weak or unowned storage.
    Address { size: u32, storage: Option<Storage> },
    /// Nothing: it stands for a function, which is known.
    Function(FuncId),
    /// Nothing: typing tells nothing of it.
    Nothing,
}

/// How many leaves and addresses lie before those of a value, and what is kept of it.
#[derive(Clone, Copy, Debug, PartialEq, Eq)]
pub struct Spot {
    pub at: u32,
    pub address_at: u32,
    pub kept: Kept,
}

/// The spots of a function's values, by their numbers, and how many leaves and addresses these have together.
#[derive(Drop)]
pub struct Layout {
    pub spots: List<Spot>,
    pub leaves: u32,
    pub addresses: u32,
}

/// The leaves that are kept.
fn leaves_in(kept: Kept) -> u32
    ensures { result ≡ spec.leaves_kept kept }
{
    match kept {
        Kept::Leaves(size) => size,
        Kept::Address { .. } => 0,
        Kept::Function(_) => 0,
        Kept::Nothing => 0,
    }
}

fn addresses_in(kept: Kept) -> u32
    ensures { result ≡ spec.addresses_kept kept }
{
    match kept {
        Kept::Leaves(_) => 0,
        Kept::Address { .. } => 1,
        Kept::Function(_) => 0,
        Kept::Nothing => 0,
    }
}

impl Layout {
    /// That of no values, which takes no memory.
    pub(crate) fn new(alloc: Global) -> Layout
        ensures { result ≡ spec.no_layout }
    {
        Layout {
            spots: List::new(alloc),
            leaves: 0,
            addresses: 0,
        }
    }

    /// That of no values, with memory for `count`.
    pub(crate) fn with_capacity(alloc: Global, count: usize) -> Result<Layout, Exhausted>
        ensures { IfOk result (λ layout. layout ≡ spec.no_layout) }
    {
        Ok(Layout {
            spots: List::with_capacity(alloc, count)?,
            leaves: 0,
            addresses: 0,
        })
    }

    /// One more value.
    pub(crate) fn push(&mut self, kept: Kept) -> Result<(), Exhausted>
        requires leaves { self.old.leaves + spec.leaves_kept kept < 2 ^ 32 }
        requires addresses { self.old.addresses + spec.addresses_kept kept < 2 ^ 32 }
        ensures { OnOk result (self.new ≡ spec.with_value self.old kept) }
    {
        self.spots.push(Spot {
            at: self.leaves,
            address_at: self.addresses,
            kept,
        })?;
        self.leaves += leaves_in(kept);
        self.addresses += addresses_in(kept);
        Ok(())
    }

    /// The spot of a value; behind all others, where the function hasn't got it.
    fn spot(&self, value: ValueId) -> Spot
        ensures { result ≡ spec.spot_in self.now value.0 }
    {
        match self.spots.get(value.0 as usize) {
            Some(spot) => *spot,
            None => Spot {
                at: self.leaves,
                address_at: self.addresses,
                kept: Kept::Nothing,
            },
        }
    }

    /// What is kept of a value.
    pub fn kept(&self, value: ValueId) -> Kept
        ensures { result ≡ spec.kept_in self.now value }
    {
        self.spot(value).kept
    }

    /// Where the leaves of a value stand.
    pub fn local(&self, value: ValueId) -> Local
        ensures { result ≡ spec.local_in self.now value }
    {
        let spot = self.spot(value);
        Local {
            value,
            at: spot.at,
            size: leaves_in(spot.kept),
        }
    }

    /// Where an address stands.
    pub fn address(&self, value: ValueId) -> LocalAddress
        ensures { result ≡ spec.address_in self.now value }
    {
        LocalAddress {
            value,
            at: self.spot(value).address_at,
        }
    }
}
