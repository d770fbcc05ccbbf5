//! The laws of entry functions, of what is lowered, and of all runs of a module, on calls that do nothing.

ghost use Rattle.module_runner.specs.inner.Laws.{HaveOneEntry, IsOne};
ghost use Rattle.module_runner.specs.inner.WholeRuns.{OptimisedEndsAsItDid};

use copy_pairing::{optimised_outcomes_agree, rewriting_keeps_verified};
use copy_pairing_model::optimised_modules_are_unique;
use holder_model::{lowered_runs_end_once, runs_end_once};
use ownership_lowering_runs::runs_end_alike;

/// In a module in numbered form a run may begin with one function of a name at most.
pub fn names_have_one_entry()
    ensures { HaveOneEntry }
{}

/// One module is lowered and run: what is optimised is fixed.
pub fn one_module_is_lowered()
    ensures { IsOne }
{
    optimised_modules_are_unique();
}

/// Both runs of an accepted module and both of its optimised one end, each in one way. Those of one module tell the same, and the
/// optimised one tells as the module did, with no more retains and releases.
pub fn optimised_ends_as_it_did()
    ensures { OptimisedEndsAsItDid }
{
    runs_end_once();
    lowered_runs_end_once();
    runs_end_alike();
    optimised_outcomes_agree();
    rewriting_keeps_verified();
}
