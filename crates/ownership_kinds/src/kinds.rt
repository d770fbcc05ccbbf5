//! Questions about a kind that may be unknown.

ghost use Rattle.std.specs.Prelude.{◌≡◌};
ghost use Rattle.ownership_kinds.specs.Statics as statics;

use sil_types_declarations::Kind;

pub(crate) fn is_owned(kind: Option<Kind>) -> bool
    ensures { result ≡ statics.is_owned kind }
{
    matches!(kind, Some(Kind::Owned))
}

pub(crate) fn is_guaranteed(kind: Option<Kind>) -> bool
    ensures { result ≡ statics.is_guaranteed kind }
{
    matches!(kind, Some(Kind::Guaranteed))
}
