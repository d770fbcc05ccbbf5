//! Fields of objects as places.

ghost use Rattle.std.specs.Prelude.{◌≡◌, drop, false, is_some, take, MatchOption};
ghost use Rattle.count_heap.specs.HeapModel.HeapViews.{field_in, is_dead_in};
ghost use Rattle.count_machine_model.specs.MachineSteps.Held.{write_field};
ghost use Rattle.count_machine_model.specs.MachineSteps.Operands.{put, contents};

use crate::machine::Machine;
use count_machine_leaves::{field_of, lay_over, window, write_field};
use count_machine_model::{Frame, Local};
use sil_ast::ObjectId;

impl Machine {
    /// A value becomes what a field holds, if it is written.
    #[inline]
    pub fn put_from_field(
        &mut self,
        frame: &Frame,
        object: ObjectId,
        field: u32,
        from: u32,
        to: Local,
    ) -> bool
        requires { is_dead_in self.old.heap object ≡ false }
        ensures written { result ≡ is_some (field_in self.old.heap object field) }
        ensures put { MatchOption (field_in self.old.heap object field) (self.new ≡ self.old) (λ leaves. self.new ≡ put self.old frame.now to (take to.size
            (drop from leaves))) }
    {
        let place = frame.leaves.saturating_add(to.at as usize);
        match field_of(&self.heap, object, field) {
            Some(leaves) => {
                lay_over(
                    &mut self.leaves,
                    place,
                    window(leaves, from as usize, to.size as usize),
                );
            }
            None => {
                return false;
            }
        }
        self.put_there(frame, to.value);
        true
    }

    /// Whether a field is written.
    #[inline]
    pub fn has_field(&self, object: ObjectId, field: u32) -> bool
        requires { is_dead_in self.now.heap object ≡ false }
        ensures { result ≡ is_some (field_in self.now.heap object field) }
    {
        field_of(&self.heap, object, field).is_some()
    }

    /// A field becomes what a value is, or a part of it does.
    #[inline]
    pub fn put_in_field(
        &mut self,
        frame: &Frame,
        from: Local,
        at: u32,
        is_part: bool,
        object: ObjectId,
        field: u32,
    )
        requires { is_dead_in self.old.heap object ≡ false }
        ensures { self.new ≡ record self.old { heap = write_field is_part object field at (contents self.old frame.now from) self.old.heap } }
    {
        let begin = frame.leaves.saturating_add(from.at as usize);
        write_field(
            &mut self.heap,
            is_part,
            object,
            field,
            at,
            window(&self.leaves, begin, from.size as usize),
        );
    }
}
