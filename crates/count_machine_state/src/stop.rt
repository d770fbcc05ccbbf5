//! Why a call of the machine doesn't go on.

ghost use Rattle.std.specs.Prelude.{◌≡◌};
ghost use Rattle.count_machine_state.specs.declared.stop.Stop.TheVariants.{Ends, Memory};
ghost use Rattle.holder_model.specs.declared.lowered_run.low_fault.LowFault.TheVariants.{Missing};
ghost use Rattle.count_machine_model.specs.declared.machine_steps.run_end.RunEnd.TheVariants.{Fault};

use count_machine_model::RunEnd;
use holder_model::LowFault;
use sil_ast::{Exhausted, ValueId};
use std::alloc::AllocError;

/// The run has ended, or there is no memory for it.
#[derive(Clone, Copy, Debug, PartialEq, Eq)]
pub enum Stop {
    Ends(RunEnd),
    Memory,
}

impl From<Exhausted> for Stop {
    ghost from_gives = { λ _ stop. stop ≡ Memory };

    fn from(_fault: Exhausted) -> Stop {
        Stop::Memory
    }
}

impl From<AllocError> for Stop {
    ghost from_gives = { λ _ stop. stop ≡ Memory };

    fn from(_fault: AllocError) -> Stop {
        Stop::Memory
    }
}

/// The run ends with a fault.
#[inline]
pub fn fault(fault: LowFault) -> Stop
    ensures { result ≡ Ends (Fault fault) }
{
    Stop::Ends(RunEnd::Fault { fault })
}

/// The run ends, since an instruction uses a name that has no value.
#[inline]
pub fn missing(value: ValueId) -> Stop
    ensures { result ≡ Ends (Fault (Missing value)) }
{
    fault(LowFault::Missing { value })
}
