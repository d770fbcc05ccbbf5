//! 305 at an argument: its annotation isn't the one that is due.

ghost use Rattle.std.specs.Prelude.{◌≡◌};
ghost use Rattle.numbered_form.specs.PointChecks.inner.Faults.{least};
ghost use Rattle.ownership_kinds.specs.inner.Faults.{annotation_faults};
ghost use Rattle.ownership_kinds.specs.inner.Known.{kind_told};
ghost use Rattle.ownership_kinds.specs.Statics as statics;

use numbered_form::{PointFault, lesser};
use ownership_kinds_chains::{Facts, kind_of};
use ownership_kinds_origins::Switched;
use sil_ast::{ArgKind, BlockArg, BlockId, PointId};
use sil_rules::Rule;
use sil_types::TypeTable;
use sil_types_declarations::Kind;

fn is_plain(annotation: ArgKind) -> bool
    ensures { result ≡ statics.is_plain_annotation annotation }
{
    matches!(annotation, ArgKind::Plain)
}

fn is_owned(annotation: ArgKind) -> bool
    ensures { result ≡ statics.is_owned_annotation annotation }
{
    matches!(annotation, ArgKind::Owned)
}

fn is_guaranteed(annotation: ArgKind) -> bool
    ensures { result ≡ statics.is_guaranteed_annotation annotation }
{
    matches!(annotation, ArgKind::Guaranteed)
}

/// A payload carries `@owned` from an Owned or None operand, and `@guaranteed` from a Guaranteed one.
fn fits_case(kind: Option<Kind>, annotation: ArgKind) -> bool
    ensures { result ≡ statics.fits_case kind annotation }
{
    match kind {
        None => true,
        Some(Kind::Owned | Kind::Plain) => is_owned(annotation),
        Some(Kind::Guaranteed) => is_guaranteed(annotation),
    }
}

/// A default takes an Owned or Guaranteed enum with the same annotation, and no None one.
fn fits_default(kind: Option<Kind>, annotation: ArgKind) -> bool
    ensures { result ≡ statics.fits_default kind annotation }
{
    match kind {
        None => true,
        Some(Kind::Owned) => is_owned(annotation),
        Some(Kind::Guaranteed) => is_guaranteed(annotation),
        Some(Kind::Plain) => false,
    }
}

fn is_none_kind(kind: Option<Kind>) -> bool
    ensures { result ≡ statics.is_none_kind kind }
{
    matches!(kind, Some(Kind::Plain))
}

/// Behind a switch an argument of a trivial type carries nothing, and a default has none from a None operand.
fn fits_switch(is_default: bool, trivial: bool, kind: Option<Kind>, annotation: ArgKind) -> bool
    ensures { result ≡ statics.fits_switch is_default trivial kind annotation }
{
    match (is_default, trivial) {
        (true, true) => !is_none_kind(kind) && is_plain(annotation),
        (true, false) => fits_default(kind, annotation),
        (false, true) => is_plain(annotation),
        (false, false) => fits_case(kind, annotation),
    }
}

fn fits_block(trivial: bool, annotation: ArgKind) -> bool
    ensures { result ≡ statics.fits_block trivial annotation }
{
    if trivial {
        is_plain(annotation)
    } else {
        is_owned(annotation)
    }
}

/// Whether an argument of a block other than the entry is annotated as is due.
fn is_annotated_well(
    facts: &[Option<Facts>],
    switched: Option<Switched>,
    trivial: bool,
    annotation: ArgKind,
) -> bool
    ensures { result ≡ statics.is_annotated_well (kind_told facts.now) switched trivial annotation }
{
    match switched {
        None => fits_block(trivial, annotation),
        Some(by) => fits_switch(
            by.is_default,
            trivial,
            kind_of(facts, by.operand),
            annotation,
        ),
    }
}

/// The first of what was found and of this fault of a block's argument.
pub(crate) fn add_annotation(
    facts: &[Option<Facts>],
    types: &TypeTable,
    switched: Option<Switched>,
    block: BlockId,
    arg: &BlockArg,
    found: Option<PointFault>,
) -> Option<PointFault>
    ensures { result ≡ least found (annotation_faults (kind_told facts.now) types.now switched block.0 arg.now) }
{
    if 0 < block.0 && !is_annotated_well(facts, switched, types.is_trivial(&arg.ty), arg.kind) {
        return lesser(
            found,
            PointFault {
                rule: Rule::ArgumentKind,
                subject: arg.value,
                point: PointId { block, index: 0 },
            },
        );
    }
    found
}
