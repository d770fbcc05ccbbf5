//! The types in declarations and signatures.

ghost use Rattle.std.specs.Prelude.{◌≡◌, map};
ghost use Rattle.std.specs.List.{flat_map, list_any};
ghost use Rattle.sil_types_declarations.specs.TypeDefinitions.Mentions.{
  if_there,
  in_case,
  in_decl,
  in_field,
  in_param,
  in_result,
  in_signature,
  field_standing,
};

use crate::type_mentions::tests::MentionTest;
use sil_ast::{Case, Decl, Field, Given, Param, Signature, Storage, TypeName};
use sil_types_declarations::Standing;

/// Whether the test holds of a type that the declaration mentions.
pub fn any_in_decl<T: MentionTest>(test: &T, decl: &Decl) -> bool
    ensures { result ≡ list_any (T.holds test.now) (in_decl decl.now) }
{
    match decl {
        Decl::Struct { name, fields } => {
            test.of_declared(name) || any_in_fields(test, fields.as_slice())
        }
        Decl::Enum { name, cases } => {
            test.of_declared(name) || any_in_cases(test, cases.as_slice())
        }
        Decl::Class { name, fields, .. } => {
            test.of_declared(name) || any_in_fields(test, fields.as_slice())
        }
    }
}

fn any_in_fields<T: MentionTest>(test: &T, fields: &[Field]) -> bool
    ensures { result ≡ list_any (T.holds test.now) (map in_field fields.now) }
{
    for field in fields {
        if test.of_written(standing_of(field.storage), &field.ty) {
            return true;
        }
    }
    false
}

fn standing_of(storage: Storage) -> Standing
    ensures { result ≡ field_standing storage }
{
    match storage {
        Storage::Strong => Standing::Object,
        Storage::Weak => Standing::WeakField,
        Storage::Unowned => Standing::UnownedField,
    }
}

fn any_in_cases<T: MentionTest>(test: &T, cases: &[Case]) -> bool
    ensures { result ≡ list_any (T.holds test.now) (flat_map in_case cases.now) }
{
    for case in cases {
        if any_if_there(test, Standing::Object, &case.payload) {
            return true;
        }
    }
    false
}

pub(crate) fn any_if_there<T: MentionTest>(
    test: &T,
    standing: Standing,
    ty: &Option<TypeName>,
) -> bool
    ensures { result ≡ list_any (T.holds test.now) (if_there standing ty.now) }
{
    match ty {
        Some(ty) => test.of_written(standing, ty),
        None => false,
    }
}

pub(crate) fn any_in_signature<T: MentionTest>(test: &T, signature: &Signature) -> bool
    ensures { result ≡ list_any (T.holds test.now) (in_signature signature.now) }
{
    any_in_params(test, signature.params.as_slice())
        || any_in_results(test, signature.results.as_slice())
        || test.of_results(signature.results.as_slice())
}

fn any_in_params<T: MentionTest>(test: &T, params: &[Param]) -> bool
    ensures { result ≡ list_any (T.holds test.now) (map in_param params.now) }
{
    for param in params {
        if test.of_written(Standing::Object, &param.ty) {
            return true;
        }
    }
    false
}

fn any_in_results<T: MentionTest>(test: &T, results: &[Given]) -> bool
    ensures { result ≡ list_any (T.holds test.now) (map in_result results.now) }
{
    for given in results {
        if test.of_written(Standing::Object, &given.ty) {
            return true;
        }
    }
    false
}
