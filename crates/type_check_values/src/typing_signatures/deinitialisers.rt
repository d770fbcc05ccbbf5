//! Whether the functions that vtables name are deinitialisers: `@convention(method) (@guaranteed C) -> ()`, with a body.

ghost use Rattle.std.specs.Prelude.{◌≡◌, [], ◌∷◌};
ghost use Rattle.sil_ast.specs.declared.type_name.TypeName.TheVariants as type_of;
ghost use Rattle.sil_types.specs.Typing.Same as same;
ghost use Rattle.sil_types.specs.Typing.SignatureRules as rules;

use sil_ast::{
    Convention, DeinitEntry, Function, Module, Param, Passing, Signature, Text, TypeName, Vtable,
};
use sil_types::is_external;

/// Whether the vtable names a deinitialiser that has no body, or another signature than one has.
#[tactic(auto, unfolding(sil_types::specs::Typing::SignatureRules::has_wrong_deinitialiser))]
pub fn has_wrong_deinitialiser(m: &Module, vtable: &Vtable) -> bool
    ensures { result ≡ rules.has_wrong_deinitialiser m.now vtable.now }
{
    match &vtable.entry {
        None => false,
        Some(entry) => !names_deinitialiser(m, &vtable.class_name, entry),
    }
}

fn names_deinitialiser(m: &Module, class_name: &Text, entry: &DeinitEntry) -> bool
    ensures { result ≡ rules.names_deinitialiser m.now class_name.now entry.now }
{
    match m.functions.get(entry.function.0 as usize) {
        None => false,
        Some(function) => is_deinitialiser(class_name, function),
    }
}

fn is_deinitialiser(class_name: &Text, f: &Function) -> bool
    ensures { result ≡ rules.is_deinitialiser class_name.now f.now }
{
    !is_external(f.form) && is_deinit_signature(class_name, &f.signature)
}

fn is_deinit_signature(class_name: &Text, signature: &Signature) -> bool
    ensures { result ≡ same.is_same_signature signature.now (rules.deinit_signature class_name.now) }
{
    match signature.convention {
        Convention::Thin => false,
        Convention::Method => {
            takes_guaranteed_only(class_name, signature.params.as_slice())
                && signature.results.as_slice().is_empty()
        }
    }
}

fn takes_guaranteed_only(class_name: &Text, params: &[Param]) -> bool
    ensures { result ≡ same.all_pairs same.is_same_param params.now (rules.deinit_signature class_name.now).params }
{
    match params {
        [only] => is_guaranteed(class_name, only),
        _ => false,
    }
}

fn is_guaranteed(class_name: &Text, param: &Param) -> bool
    ensures { result ≡ same.is_same_param param.now (record { passing = Passing.Guaranteed; ty = type_of.Named class_name.now }) }
{
    match param.passing {
        Passing::Plain => false,
        Passing::Owned => false,
        Passing::Guaranteed => is_named(class_name, &param.ty),
        Passing::Inout => false,
        Passing::In => false,
        Passing::InGuaranteed => false,
    }
}

fn is_named(class_name: &Text, ty: &TypeName) -> bool
    ensures { result ≡ same.is_same_type ty.now (type_of.Named class_name.now) }
{
    match ty {
        TypeName::Named(name) => *name == *class_name,
        _ => false,
    }
}
