//! Runs that `sil` never shows, by their faults or reports, on calls that do nothing.

ghost use Rattle.module_runner_examples.specs.inner.BorrowConsumed.{BorrowConsumed};
ghost use Rattle.module_runner_examples.specs.inner.BorrowUsedAfterDeath.{BorrowUsedAfterDeath};
ghost use Rattle.module_runner_examples.specs.inner.ConsumedAndLentInOneCall.{ConsumedAndLentInOneCall};
ghost use Rattle.module_runner_examples.specs.inner.ConsumedTwice.{ConsumedTwice};
ghost use Rattle.module_runner_examples.specs.inner.ConsumedTwiceInOneInstruction.{ConsumedTwiceInOneInstruction};
ghost use Rattle.module_runner_examples.specs.inner.CopyConsumedTwiceInADeinitialiser.{CopyConsumedTwiceInADeinitialiser};
ghost use Rattle.module_runner_examples.specs.inner.EmptySlotHandedInout.{EmptySlotHandedInout};
ghost use Rattle.module_runner_examples.specs.inner.FieldReadAfterDeath.{FieldReadAfterDeath};
ghost use Rattle.module_runner_examples.specs.inner.FullSlotDeallocated.{FullSlotDeallocated};
ghost use Rattle.module_runner_examples.specs.inner.FullSlotHandedOut.{FullSlotHandedOut};
ghost use Rattle.module_runner_examples.specs.inner.FullWeakSlotDeallocated.{FullWeakSlotDeallocated};
ghost use Rattle.module_runner_examples.specs.inner.InPlaceLeftFull.{InPlaceLeftFull};
ghost use Rattle.module_runner_examples.specs.inner.InoutPlaceLeftEmpty.{InoutPlaceLeftEmpty};
ghost use Rattle.module_runner_examples.specs.inner.LentSelfConsumed.{LentSelfConsumed};
ghost use Rattle.module_runner_examples.specs.inner.LoweredDeadBeforeEmpty.{LoweredDeadBeforeEmpty};
ghost use Rattle.module_runner_examples.specs.inner.LoweredDeadObjectReturned.{LoweredDeadObjectReturned};
ghost use Rattle.module_runner_examples.specs.inner.LoweredDeadObjectStoredUnowned.{LoweredDeadObjectStoredUnowned};
ghost use Rattle.module_runner_examples.specs.inner.LoweredEmptyWeakSlotWrittenAnew.{LoweredEmptyWeakSlotWrittenAnew};
ghost use Rattle.module_runner_examples.specs.inner.LoweredFaultBeforeTheBound.{LoweredFaultBeforeTheBound};
ghost use Rattle.module_runner_examples.specs.inner.LoweredMissingBeforeSlot.{LoweredMissingBeforeSlot};
ghost use Rattle.module_runner_examples.specs.inner.LoweredPartLentToACalleeWritten.{LoweredPartLentToACalleeWritten};
ghost use Rattle.module_runner_examples.specs.inner.LoweredReleasedAfterDeath.{LoweredReleasedAfterDeath};
ghost use Rattle.module_runner_examples.specs.inner.LoweredReleasedBelowZero.{LoweredReleasedBelowZero};
ghost use Rattle.module_runner_examples.specs.inner.LoweredRetainedWithoutARelease.{LoweredRetainedWithoutARelease};
ghost use Rattle.module_runner_examples.specs.inner.LoweredSecondReferenceDead.{LoweredSecondReferenceDead};
ghost use Rattle.module_runner_examples.specs.inner.LoweredSlotBeforeDead.{LoweredSlotBeforeDead};
ghost use Rattle.module_runner_examples.specs.inner.LoweredUnwrittenFieldIsSkipped.{LoweredUnwrittenFieldIsSkipped};
ghost use Rattle.module_runner_examples.specs.inner.ObjectHeldAtTheReturn.{ObjectHeldAtTheReturn};
ghost use Rattle.module_runner_examples.specs.inner.ObjectOverwrittenInALoop.{ObjectOverwrittenInALoop};
ghost use Rattle.module_runner_examples.specs.inner.OutPlaceLeftEmpty.{OutPlaceLeftEmpty};
ghost use Rattle.module_runner_examples.specs.inner.OutPlaceReadBeforeItIsFilled.{OutPlaceReadBeforeItIsFilled};
ghost use Rattle.module_runner_examples.specs.inner.PartOfASlotDeallocated.{PartOfASlotDeallocated};
ghost use Rattle.module_runner_examples.specs.inner.PartOfAnEmptySlotWritten.{PartOfAnEmptySlotWritten};
ghost use Rattle.module_runner_examples.specs.inner.ReferenceInAPlainEntry.{ReferenceInAPlainEntry};
ghost use Rattle.module_runner_examples.specs.inner.SlotAllocatedAtTheReturn.{SlotAllocatedAtTheReturn};
ghost use Rattle.module_runner_examples.specs.inner.SlotFilledTwice.{SlotFilledTwice};
ghost use Rattle.module_runner_examples.specs.inner.SlotOfTheCallerDeallocated.{SlotOfTheCallerDeallocated};
ghost use Rattle.module_runner_examples.specs.inner.SlotReadAfterItIsTaken.{SlotReadAfterItIsTaken};
ghost use Rattle.module_runner_examples.specs.inner.SlotReadBeforeItIsFilled.{SlotReadBeforeItIsFilled};
ghost use Rattle.module_runner_examples.specs.inner.SlotUsedAfterItIsGone.{SlotUsedAfterItIsGone};
ghost use Rattle.module_runner_examples.specs.inner.SlotsDeallocatedOutOfOrder.{SlotsDeallocatedOutOfOrder};
ghost use Rattle.module_runner_examples.specs.inner.UnownedSlotEmptiedTwice.{UnownedSlotEmptiedTwice};
ghost use Rattle.module_runner_examples.specs.inner.UnwrittenFieldRead.{UnwrittenFieldRead};
ghost use Rattle.module_runner_examples.specs.inner.UsedAfterItIsConsumed.{UsedAfterItIsConsumed};
ghost use Rattle.module_runner_examples.specs.inner.UsedBeforeItsDefinition.{UsedBeforeItsDefinition};
ghost use Rattle.module_runner_examples.specs.inner.WeakSlotFilledTwice.{WeakSlotFilledTwice};
ghost use Rattle.module_runner_examples.specs.inner.WeakSlotReadBeforeItIsFilled.{WeakSlotReadBeforeItIsFilled};

/// Modules that `check` refuses: the fault of the run by holders, and what the lowered run does with them.
pub fn holders_fault()
    ensures borrow_consumed { BorrowConsumed }
    ensures borrow_used_after_death { BorrowUsedAfterDeath }
    ensures consumed_and_lent_in_one_call { ConsumedAndLentInOneCall }
    ensures consumed_twice { ConsumedTwice }
    ensures consumed_twice_in_one_instruction { ConsumedTwiceInOneInstruction }
    ensures copy_consumed_twice_in_a_deinitialiser { CopyConsumedTwiceInADeinitialiser }
    ensures empty_slot_handed_inout { EmptySlotHandedInout }
    ensures field_read_after_death { FieldReadAfterDeath }
    ensures full_slot_deallocated { FullSlotDeallocated }
    ensures full_slot_handed_out { FullSlotHandedOut }
    ensures full_weak_slot_deallocated { FullWeakSlotDeallocated }
    ensures in_place_left_full { InPlaceLeftFull }
    ensures inout_place_left_empty { InoutPlaceLeftEmpty }
    ensures lent_self_consumed { LentSelfConsumed }
    ensures object_held_at_the_return { ObjectHeldAtTheReturn }
    ensures object_overwritten_in_a_loop { ObjectOverwrittenInALoop }
    ensures out_place_left_empty { OutPlaceLeftEmpty }
    ensures out_place_read_before_it_is_filled { OutPlaceReadBeforeItIsFilled }
    ensures part_of_a_slot_deallocated { PartOfASlotDeallocated }
    ensures part_of_an_empty_slot_written { PartOfAnEmptySlotWritten }
    ensures reference_in_a_plain_entry { ReferenceInAPlainEntry }
    ensures slot_allocated_at_the_return { SlotAllocatedAtTheReturn }
    ensures slot_filled_twice { SlotFilledTwice }
    ensures slot_of_the_caller_deallocated { SlotOfTheCallerDeallocated }
    ensures slot_read_after_it_is_taken { SlotReadAfterItIsTaken }
    ensures slot_read_before_it_is_filled { SlotReadBeforeItIsFilled }
    ensures slot_used_after_it_is_gone { SlotUsedAfterItIsGone }
    ensures slots_deallocated_out_of_order { SlotsDeallocatedOutOfOrder }
    ensures unowned_slot_emptied_twice { UnownedSlotEmptiedTwice }
    ensures unwritten_field_read { UnwrittenFieldRead }
    ensures used_after_it_is_consumed { UsedAfterItIsConsumed }
    ensures used_before_its_definition { UsedBeforeItsDefinition }
    ensures weak_slot_filled_twice { WeakSlotFilledTwice }
    ensures weak_slot_read_before_it_is_filled { WeakSlotReadBeforeItIsFilled }
{}

/// Faults of lowered text, and which comes first where several fit.
pub fn lowered_code_faults()
    ensures lowered_dead_before_empty { LoweredDeadBeforeEmpty }
    ensures lowered_dead_object_returned { LoweredDeadObjectReturned }
    ensures lowered_dead_object_stored_unowned { LoweredDeadObjectStoredUnowned }
    ensures lowered_empty_weak_slot_written_anew { LoweredEmptyWeakSlotWrittenAnew }
    ensures lowered_fault_before_the_bound { LoweredFaultBeforeTheBound }
    ensures lowered_missing_before_slot { LoweredMissingBeforeSlot }
    ensures lowered_part_lent_to_a_callee_written { LoweredPartLentToACalleeWritten }
    ensures lowered_released_after_death { LoweredReleasedAfterDeath }
    ensures lowered_released_below_zero { LoweredReleasedBelowZero }
    ensures lowered_second_reference_dead { LoweredSecondReferenceDead }
    ensures lowered_slot_before_dead { LoweredSlotBeforeDead }
{}

/// Lowered text that no ownership form gives, and that runs without a fault.
pub fn lowered_text_reports()
    ensures lowered_retained_without_a_release { LoweredRetainedWithoutARelease }
    ensures lowered_unwritten_field_is_skipped { LoweredUnwrittenFieldIsSkipped }
{}
