//! Edges, made ready to run.

ghost use Rattle.std.specs.Prelude.{◌≡◌, ◌<◌, ℕ, IfOk, length, position, slice_get, true};
ghost use Rattle.std.specs.Option.{IsSomeAnd, option_or};
ghost use Rattle.holder_model.specs.Edges.{is_default};
ghost use Rattle.holder_model.specs.ModuleShapes as shapes;
ghost use Rattle.holder_model_values.specs.RunValues.Shapes.{shape_of};
ghost use Rattle.sil_ast.specs.declared.inst.Edge.{Edge};
ghost use Rattle.sil_types.specs.Typing.Shapes as typing;
ghost use Rattle.count_machine_model.specs.ReadyCode.ReadyEnds as spec;
ghost use Rattle.count_machine_model.specs.ReadyCode.ReadyEnds.{AreReadyCases};
ghost use Rattle.count_machine_ready.specs.inner.Bodies.{IsBody, declared};
ghost use Rattle.count_machine_ready.specs.inner.Cases.{AreByCase, HaveEdges, noted};

use crate::body::Body;
use count_machine_layouts::values_carried;
use count_machine_model::{ReadyCase, ReadyEdge};
use numbered_form::push_times;
use sil_ast::{Edge, Exhausted, Inst, List, TypeName};
use sil_types::shapes::case_count;
use std::alloc::Global;

/// An edge that hands values over.
pub(crate) fn ready_edge(
    alloc: Global,
    body: &Body<'_>,
    edge: &Edge,
) -> Result<ReadyEdge, Exhausted>
    requires { IsBody body.now }
    ensures { IfOk result (λ ready. ready ≡ spec.ready_edge (declared body.now) body.now.function.now edge.now) }
{
    Ok(ReadyEdge {
        block: edge.block.0,
        values: values_carried(
            alloc,
            body.layout,
            body.layout,
            edge.args.as_slice(),
            body.function.args_of(edge.block.0 as usize),
        )?,
    })
}

/// The edge of a case.
fn ready_case(body: &Body<'_>, edge: &Edge) -> ReadyCase
    requires { IsBody body.now }
    ensures { result ≡ spec.ready_case (declared body.now) body.now.function.now edge.now }
{
    ReadyCase {
        block: edge.block.0,
        payload: match body.function.args_of(edge.block.0 as usize).first() {
            Some(arg) => Some(body.local(arg.value)),
            None => None,
        },
    }
}

/// The place of the case that an edge names.
fn case_named(body: &Body<'_>, ty: &TypeName, edge: &Edge) -> Option<usize>
    requires body { IsBody body.now }
    requires kind { typing.is_enum (declared body.now) ty.now ≡ true }
    ensures { result ≡ shapes.case_place (shape_of (declared body.now) ty.now) edge.now.case_of }
{
    match &edge.case_of {
        Some(member) => match body.table.payload(ty, &member.get().name) {
            Some(found) => Some(found.index as usize),
            None => None,
        },
        None => None,
    }
}

/// Notes an edge for a case, unless one is noted already.
fn note(chosen: &mut [Option<usize>], place: usize, edge: usize)
    ensures { chosen.new ≡ noted chosen.old place edge }
{
    if place < chosen.len() && chosen[place].is_none() {
        chosen[place] = Some(edge);
    }
}

/// For each case of an enum the first edge that names it.
fn edges_by_case(
    alloc: Global,
    body: &Body<'_>,
    ty: &TypeName,
    edges: &[Edge],
    count: usize,
) -> Result<Vec<Option<usize>>, Exhausted>
    requires body { IsBody body.now }
    requires kind { typing.is_enum (declared body.now) ty.now ≡ true }
    ensures { IfOk result (λ chosen. AreByCase (shape_of (declared body.now) ty.now) edges.now count chosen.items) }
{
    let mut chosen = Vec::with_capacity(alloc, count)?;
    push_times(&mut chosen, count, None)?;
    for (number, edge) in edges.iter().enumerate() {
        if let Some(place) = case_named(body, ty, edge) {
            note(chosen.as_mut_slice(), place, number);
        }
    }
    Ok(chosen)
}

/// The first edge that names no case.
fn default_edge(edges: &[Edge]) -> Option<usize>
    ensures { result ≡ position is_default edges.now }
{
    edges.iter().position(|edge| edge.case_of.is_none())
}

/// The case that takes the edge which names it, or else the default.
fn case_by(
    body: &Body<'_>,
    edges: &[Edge],
    named: Option<usize>,
    default: Option<usize>,
) -> ReadyCase
    requires body { IsBody body.now }
    requires taken { IsSomeAnd (option_or named default) (λ k. k < length edges.now) }
    ensures { (k : ℕ) (e : Edge) → option_or named default ≡ Some k → slice_get edges.now k ≡ Some e
        → result ≡ spec.ready_case (declared body.now) body.now.function.now e }
{
    match named.or(default) {
        Some(number) => ready_case(body, &edges[number]),
        None => unreachable!(),
    }
}

/// For each case of an enum the edge that it takes: the one that names it, or else the default.
pub(crate) fn ready_cases(
    alloc: Global,
    body: &Body<'_>,
    ty: &TypeName,
    inst: &Inst,
) -> Result<List<ReadyCase>, Exhausted>
    requires body { IsBody body.now }
    requires kind { typing.is_enum (declared body.now) ty.now ≡ true }
    requires taken { HaveEdges (shape_of (declared body.now) ty.now) inst.now.edges }
    ensures { IfOk result (AreReadyCases (declared body.now) body.now.function.now inst.now (shape_of (declared body.now) ty.now)) }
{
    let edges = inst.edges.as_slice();
    let count = case_count(body.table, ty).unwrap_or(0);
    let chosen = edges_by_case(alloc, body, ty, edges, count)?;
    let default = default_edge(edges);
    let mut cases = List::with_capacity(alloc, count)?;
    for named in chosen.as_slice() {
        cases.push(case_by(body, edges, *named, default))?;
    }
    Ok(cases)
}
