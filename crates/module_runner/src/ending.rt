//! How the run of a lowered module ended, as it is reported.

ghost use Rattle.std.specs.Prelude.{◌≡◌};
ghost use Rattle.module_runner.specs.inner.Endings.{IsNoFault, end_of};

use count_machine::LowEnd;
use module_runner_report::Ending;

/// The ending that is reported. The lowered run of an accepted module ends in no fault.
pub(crate) fn reported(end: LowEnd) -> Ending
    requires { IsNoFault end }
    ensures { end_of result ≡ end }
{
    match end {
        LowEnd::Returned(value) => Ending::Returned(value),
        LowEnd::Trap(trap) => Ending::Trap(trap),
        LowEnd::OutOfTurns => Ending::OutOfTurns,
        LowEnd::Fault(_) => unreachable!(),
    }
}
