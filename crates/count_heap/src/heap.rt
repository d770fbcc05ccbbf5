//! The heap.

ghost use Rattle.std.specs.Prelude.{◌≡◌, IfOk, length};
ghost use Rattle.count_heap.specs.HeapModel.FieldLimits.{AreFieldsInLimits};
ghost use Rattle.count_heap.specs.HeapModel.HeapCalls.{empty_heap};

use crate::layouts_by_class::ClassLayouts;
use crate::pooled_leaves::LeafPool;
use crate::slot_record::SlotRecord;
use crate::totals::Totals;
use number_tables::NumberTable;
use sil_ast::Exhausted;
use sil_types::TypeTable;
use std::alloc::Global;
use std::marker::Model;
use weak_unowned::SideCounts;

/// The objects of a run.
#[derive(Drop)]
pub struct Heap {
    pub(crate) layouts: ClassLayouts,
    /// The slots of the objects that aren't freed, by their numbers.
    pub(crate) numbers: NumberTable,
    /// By slot.
    pub(crate) records: Vec<SlotRecord>,
    /// By slot. A slot is marked where its object is dead.
    pub(crate) sides: SideCounts,
    /// Of each object that isn't dead one piece, with its fields.
    pub(crate) pool: LeafPool,
    pub(crate) retains: u64,
    pub(crate) releases: u64,
}

impl Model for Heap {
    ghost use Rattle.std.specs.Coded.{codes};
    ghost use Rattle.sil_ast.specs.contracts.type_name.TypeName as type_name;
    ghost use Rattle.count_heap.specs.HeapModel.HeapViews.{HeapView};

    ghost Value = { HeapView };

    ghost coded = { Prim.hlevel (codes, type_name.the_row.coded) };

    ghost use Rattle.count_heap.specs.inner.Kept.{IsHeap};
    ghost use Rattle.count_heap.specs.inner.Objects.{heap_of};

    ghost view = { λ h. heap_of h.layouts h.numbers h.records.items h.sides h.pool h.retains h.releases };

    ghost invariant = { λ h. IsHeap h.layouts h.numbers h.records.items h.sides h.pool };
}

impl Heap {
    /// A heap without objects, for the classes of a table. No class whose fields are in their limits is too large to be laid out.
    pub fn new(alloc: Global, table: &TypeTable) -> Result<Heap, Exhausted>
        requires { AreFieldsInLimits table.now }
        ensures { IfOk result (λ heap. heap ≡ empty_heap table.now) }
    {
        let layouts = ClassLayouts::of(alloc, table)?;
        let numbers = NumberTable::new(alloc)?;
        Ok(Heap {
            layouts,
            numbers,
            records: Vec::new(alloc),
            sides: SideCounts::new(alloc),
            pool: LeafPool::new(alloc),
            retains: 0,
            releases: 0,
        })
    }

    /// How many objects were allocated.
    #[inline]
    pub fn allocated(&self) -> u64
        ensures { result ≡ length self.now.objects }
    {
        self.numbers.given()
    }

    /// How many slots are kept.
    #[inline]
    pub fn slots(&self) -> usize
        ensures { result ≡ self.now.slots }
    {
        self.sides.len()
    }

    #[inline]
    pub fn totals(&self) -> Totals
        ensures retains { result.retains ≡ self.now.retains }
        ensures releases { result.releases ≡ self.now.releases }
    {
        Totals {
            retains: self.retains,
            releases: self.releases,
        }
    }
}
