//! What a search found.

ghost use Rattle.std.specs.Prelude.{◌≡◌, ◌+◌, ◌*◌, ◌<◌, ◌↔◌, IsTrue, length};

use sil_ast::{BlockId, EdgeId, List, PointId};
use std::marker::Model;

/// In which states a walk enters which blocks.
#[derive(Drop)]
pub struct StateMap {
    blocks: usize,
    states: usize,
    seen: Vec<bool>,
}

impl Model for StateMap {
    ghost use Rattle.std.specs.Prelude.{◌≡◌, ◌*◌, length};
    ghost use Rattle.reach_engine.specs.inner.Table.{Table};

    ghost Value = { Table };

    ghost view = { λ m. record { blocks = m.blocks; states = m.states; seen = m.seen.items } };

    ghost invariant = { λ m. length m.seen.items ≡ m.blocks * m.states };
}

impl StateMap {
    ghost use Rattle.reach_engine.specs.inner.Table.{holds, table};

    /// The map of these marks, a row of states for each block.
    pub fn from_marks(blocks: usize, states: usize, seen: Vec<bool>) -> StateMap
        requires { length seen.items ≡ blocks * states }
        ensures { result ≡ table blocks states seen.items }
    {
        StateMap {
            blocks,
            states,
            seen,
        }
    }

    /// Whether some walk enters the block in this state.
    pub fn may_hold(&self, b: BlockId, state: u8) -> bool
        requires block { b.0 < self.now.blocks }
        requires state { state < self.now.states }
        ensures { IsTrue result ↔ IsTrue (holds self.now b.0 state) }
    {
        self.seen[b.0 as usize * self.states + state as usize]
    }
}

/// What a search of all walks found.
#[derive(Drop)]
pub enum Found {
    /// No walk breaks the automaton.
    Clean(StateMap),
    /// The walk's last item breaks it. The point is that item's.
    Fault {
        walk: List<EdgeId>,
        point: PointId,
        code: u8,
    },
}

/// What a search of all walks found, by the number of the item that breaks the automaton.
#[derive(Drop)]
pub enum Searched {
    /// No walk breaks the automaton.
    Clean(StateMap),
    /// The walk's last item breaks it.
    Breaks {
        walk: List<EdgeId>,
        item: usize,
        code: u8,
    },
}
