//! The law of the counting machine, on a call that does nothing. The lemmas behind it are in `proofs/`.

ghost use Rattle.count_machine_laws.specs.inner.MachineRuns.{MachineRunsSo};

/// However the machine stops, the run of lowered code ends so, and the heap of the machine is that of the run.
pub fn machine_runs_so()
    ensures { MachineRunsSo }
{}
