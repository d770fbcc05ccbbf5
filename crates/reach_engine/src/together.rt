//! All subjects searched together: rows decide who has a fault, and the search by pairs shows the first.

ghost use Rattle.std.specs.Prelude.{◌≡◌, ℕ, ◌+◌, ◌*◌, ◌<◌, ◌≤◌, ◌^◌, IfOk, IfNone, IfSome, IsSome, length};
ghost use Rattle.sil_cfg.specs.Layout.{item_at, item_count};
ghost use Rattle.sil_cfg.specs.Flow.{block_count, numbered};
ghost use Rattle.reach_engine.specs.inner.Reach.{ReachesFirst, ReachesPoint};
ghost use Rattle.reach_engine.specs.inner.Search.{IsClean, IsLeastCode, IsShortest};
ghost use Rattle.reach_engine.specs.inner.Reached.{AreExact};
ghost use Rattle.reach_engine.specs.inner.Bits.{bit_in};
ghost use Rattle.reach_engine.specs.inner.Columns.{cell};
ghost use Rattle.reach_engine.specs.inner.Together.{IfClean, IfFault};
ghost use Rattle.reach_engine.specs.inner.Searched.{IfAllClean, IfSomeBreaks};

use crate::bits::has_bit;
use crate::family::MoveAll;
use crate::found::Searched;
use crate::member::Member;
use crate::rows::reach_rows;
use crate::worklist::search_walks;
use sil_ast::{BlockId, EdgeId, Exhausted, List, PointId};
use sil_cfg::Graph;
use std::alloc::Global;
use std::marker::Model;

/// For each block and state the subjects that a walk brings there.
#[derive(Drop)]
pub struct FamilyMap {
    blocks: usize,
    states: usize,
    width: usize,
    words: Vec<u64>,
}

impl Model for FamilyMap {
    ghost use Rattle.std.specs.Prelude.{◌≡◌, ◌*◌, ◌^◌, ◌<◌, ◌≤◌, length};
    ghost use Rattle.reach_engine.specs.inner.Grid.{Grid, grid};

    ghost Value = { Grid };

    ghost view = { λ m. grid m.blocks m.states m.width m.words.items };

    ghost invariant = { λ m. (length m.words.items ≡ m.blocks * (m.states * m.width)) × (m.blocks < 2 ^ 32) × (m.states < 256) × (m.width ≤ 16) };
}

impl FamilyMap {
    ghost use Rattle.reach_engine.specs.inner.Grid.{grid};

    fn from_words(blocks: usize, states: usize, width: usize, words: Vec<u64>) -> FamilyMap
        requires size { length words.items ≡ blocks * (states * width) }
        requires blocks { blocks < 2 ^ 32 }
        requires states { states < 256 }
        requires width { width ≤ 16 }
        ensures { result ≡ grid blocks states width words.items }
    {
        FamilyMap {
            blocks,
            states,
            width,
            words,
        }
    }

    /// The subjects that a walk brings to the block in this state: subject `64 * j + i` is bit i of word j.
    pub fn row(&self, b: BlockId, state: u8) -> &[u64]
        requires block { b.0 < self.now.blocks }
        requires state { state < self.now.states }
        ensures length { length result.now ≡ self.now.width }
        ensures bits { (u : ℕ) → u < 64 * self.now.width → bit_in result.now u ≡ bit_in self.now.words (cell self.now.width (b.0 * self.now.states + state) u) }
    {
        let first = (b.0 as usize * self.states + state as usize) * self.width;
        &self.words[first..first + self.width]
    }
}

/// What a search of all walks found, for all subjects.
#[derive(Drop)]
pub enum FoundAll {
    /// No walk breaks the automaton of any subject.
    Clean(FamilyMap),
    /// The walk's last item breaks the automaton of the subject, which is the first that some walk breaks. The point is that item's.
    Fault {
        subject: usize,
        walk: List<EdgeId>,
        point: PointId,
        code: u8,
    },
}

/// A subject that some walk breaks: the walk's last item, by its number, breaks the subject's automaton with the code.
#[derive(Drop)]
pub struct Broken {
    pub subject: usize,
    pub walk: List<EdgeId>,
    pub item: usize,
    pub code: u8,
}

/// The same as `FoundAll`, by the number of the item that breaks the automaton.
#[derive(Drop)]
enum SearchedAll {
    Clean(FamilyMap),
    Breaks(Broken),
}

/// Searches all walks for all subjects: `Clean` where none breaks an automaton. Else the least subject that some walk breaks,
/// then the least code that some walk reaches first for it, and a walk of fewest edges among those that reach it first.
pub fn search_all<F: MoveAll>(alloc: Global, g: &Graph, family: &F) -> Result<FoundAll, Exhausted>
    requires items { F.item_count family.now ≡ item_count g.now }
    requires states { 0 < F.state_count family.now }
    requires subjects { F.subject_count family.now ≤ 1024 }
    ensures clean { IfOk result (λ r. IfClean r (λ _. (u : ℕ) → u < F.subject_count family.now → IsClean (numbered g.now) (F.step_of family.now u))) }
    ensures map { IfOk result
        (λ r. IfClean r (λ m. AreExact (numbered g.now) (F.step_of family.now) (F.state_count family.now) (F.subject_count family.now) m.width m.words)) }
    ensures shape { IfOk result (λ r. IfClean r (λ m. (m.blocks ≡ block_count (numbered g.now)) × (m.states ≡ F.state_count family.now)
        × (F.subject_count family.now ≤ 64 * m.width))) }
    ensures within { IfOk result (λ r. IfFault r (λ subject walk point code. subject < F.subject_count family.now)) }
    ensures first { IfOk result (λ r. IfFault r (λ subject walk point code. (u : ℕ) → u < subject → IsClean (numbered g.now) (F.step_of family.now u))) }
    ensures fault { IfOk result (λ r. IfFault r (λ subject walk point code. ReachesPoint g.now (F.step_of family.now subject) walk code point)) }
    ensures least { IfOk result (λ r. IfFault r (λ subject walk point code. IsLeastCode (numbered g.now) (F.step_of family.now subject) code)) }
    ensures shortest { IfOk result (λ r. IfFault r (λ subject walk point code. IsShortest (numbered g.now) (F.step_of family.now subject) code walk)) }
{
    match search_subjects(alloc, g, family)? {
        SearchedAll::Clean(map) => Ok(FoundAll::Clean(map)),
        SearchedAll::Breaks(broken) => {
            let Broken {
                subject,
                walk,
                item,
                code,
            } = broken;
            Ok(FoundAll::Fault {
                subject,
                walk,
                point: g.point(item),
                code,
            })
        }
    }
}

/// The least subject that some walk breaks, the least code that some walk reaches first for it, a walk of fewest edges among those that reach it first,
/// and the walk's last item; none where no walk breaks an automaton.
pub fn first_broken<F: MoveAll>(
    alloc: Global,
    g: &Graph,
    family: &F,
) -> Result<Option<Broken>, Exhausted>
    requires items { F.item_count family.now ≡ item_count g.now }
    requires states { 0 < F.state_count family.now }
    requires subjects { F.subject_count family.now ≤ 1024 }
    ensures none { IfOk result (λ r. IfNone r ((u : ℕ) → u < F.subject_count family.now → IsClean (numbered g.now) (F.step_of family.now u))) }
    ensures within { IfOk result (λ r. IfSome r (λ b. b.subject < F.subject_count family.now)) }
    ensures first { IfOk result (λ r. IfSome r (λ b. (u : ℕ) → u < b.subject → IsClean (numbered g.now) (F.step_of family.now u))) }
    ensures breaks { IfOk result (λ r. IfSome r (λ b. ReachesFirst (numbered g.now) (F.step_of family.now b.subject) b.walk b.code b.item)) }
    ensures item { IfOk result (λ r. IfSome r (λ b. IsSome (item_at g.now b.item))) }
    ensures least { IfOk result (λ r. IfSome r (λ b. IsLeastCode (numbered g.now) (F.step_of family.now b.subject) b.code)) }
    ensures shortest { IfOk result (λ r. IfSome r (λ b. IsShortest (numbered g.now) (F.step_of family.now b.subject) b.code b.walk)) }
{
    match search_subjects(alloc, g, family)? {
        SearchedAll::Clean(_) => Ok(None),
        SearchedAll::Breaks(broken) => Ok(Some(broken)),
    }
}

/// The same search as `search_all`, which names the item that breaks in place of its point.
fn search_subjects<F: MoveAll>(
    alloc: Global,
    g: &Graph,
    family: &F,
) -> Result<SearchedAll, Exhausted>
    requires items { F.item_count family.now ≡ item_count g.now }
    requires states { 0 < F.state_count family.now }
    requires subjects { F.subject_count family.now ≤ 1024 }
    ensures clean { IfOk result (λ r. IfAllClean r (λ _. (u : ℕ) → u < F.subject_count family.now → IsClean (numbered g.now) (F.step_of family.now u))) }
    ensures map { IfOk result
        (λ r. IfAllClean r (λ m. AreExact (numbered g.now) (F.step_of family.now) (F.state_count family.now) (F.subject_count family.now) m.width m.words)) }
    ensures shape { IfOk result (λ r. IfAllClean r (λ m. (m.blocks ≡ block_count (numbered g.now)) × (m.states ≡ F.state_count family.now)
        × (F.subject_count family.now ≤ 64 * m.width))) }
    ensures within { IfOk result (λ r. IfSomeBreaks r (λ b. b.subject < F.subject_count family.now)) }
    ensures first { IfOk result (λ r. IfSomeBreaks r (λ b. (u : ℕ) → u < b.subject → IsClean (numbered g.now) (F.step_of family.now u))) }
    ensures breaks { IfOk result (λ r. IfSomeBreaks r (λ b. ReachesFirst (numbered g.now) (F.step_of family.now b.subject) b.walk b.code b.item)) }
    ensures item { IfOk result (λ r. IfSomeBreaks r (λ b. b.item < item_count g.now)) }
    ensures least { IfOk result (λ r. IfSomeBreaks r (λ b. IsLeastCode (numbered g.now) (F.step_of family.now b.subject) b.code)) }
    ensures shortest { IfOk result (λ r. IfSomeBreaks r (λ b. IsShortest (numbered g.now) (F.step_of family.now b.subject) b.code b.walk)) }
{
    let subjects = family.subjects();
    let width = subjects.div_ceil(64);
    let reached = reach_rows(alloc, family, g, width)?;
    for subject in 0..subjects {
        if has_bit(&reached.bad, subject) {
            return match search_walks(alloc, g, &Member { family, subject })? {
                Searched::Clean(_) => unreachable!(),
                Searched::Breaks { walk, item, code } => Ok(SearchedAll::Breaks(Broken {
                    subject,
                    walk,
                    item,
                    code,
                })),
            };
        }
    }
    let states = family.states() as usize;
    Ok(SearchedAll::Clean(FamilyMap::from_words(g.blocks() as usize, states, width, reached.rows)))
}
