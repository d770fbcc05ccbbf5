//! Turns, calls that begin, and events.

ghost use Rattle.std.specs.Prelude.{◌≡◌, OnOk, ◌∷◌, ◌++◌, []};
ghost use Rattle.count_machine_model.specs.MachineSteps.Calling.{enter};
ghost use Rattle.count_machine_model.specs.MachineSteps.Turning.{turn};
ghost use Rattle.count_machine_model.specs.MachineSteps.Views.{Goes};
ghost use Rattle.count_machine_state.specs.Went.{HasGone};

use crate::machine::Machine;
use crate::stop::Stop;
use count_machine_model::RunEnd;
use holder_model::{Event, FRAMES};
use sil_ast::Exhausted;

impl Machine {
    /// A turn, where one is left.
    #[inline]
    pub fn turn(&mut self, bound: u32) -> Result<(), Stop>
        ensures { HasGone (turn bound self.old Goes) result self.new }
    {
        if self.turns >= bound {
            return Err(Stop::Ends(RunEnd::OutOfTurns));
        }
        self.turns += 1;
        Ok(())
    }

    /// A call begins: there is room for one frame more, and a turn is taken.
    #[inline]
    pub fn enter(&mut self, bound: u32) -> Result<(), Stop>
        ensures { HasGone (enter bound self.old Goes) result self.new }
    {
        if self.frames >= FRAMES {
            return Err(Stop::Ends(RunEnd::Depth));
        }
        self.turn(bound)
    }

    /// The event is shown.
    #[inline]
    pub fn show(&mut self, event: Event) -> Result<(), Exhausted>
        ensures { OnOk result (self.new ≡ record self.old { events = self.old.events ++ event ∷ [] }) }
    {
        self.events.push(event)
    }
}
