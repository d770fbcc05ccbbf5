//! Takes out of a value of a module, a declaration, a type or a signature what stands in it.

ghost use Rattle.std.specs.Prelude.{◌≡◌, IfOk};
ghost use Rattle.sil_grammar_values.specs.declared.value.Value.TheVariants as v;
ghost use Rattle.sil_grammar_tree.specs.declared.written_tree.written_module.WrittenModule.{WrittenModule};
ghost use Rattle.sil_grammar_values.specs.Values.{token_of, superclass_of, stage_of, imports_of, items_of, item_of, fields_of, field_of};
ghost use Rattle.sil_grammar_values.specs.Values.{cases_of, type_of, payload_of};
ghost use Rattle.sil_grammar_values.specs.Values.{types_of, questions_of, linkage_of, tokens_of, convention_of, params_of, givens_of, signature_of};

use crate::nothing::{discard, no_givens, no_params, no_token, no_type, no_types};
use crate::prepended::Prepended;
use crate::value::Value;
use crate::written_types::{GivenList, ParamList, TypeList, WrittenType};
use sil_ast::{
    Convention, Exhausted, Imports, Linkage, List, Place, Signature, Stage, Storage, Text, TypeName,
};
use sil_grammar_tree::{
    WrittenCase, WrittenDecl, WrittenField, WrittenItem, WrittenModule, WrittenToken,
};
use std::alloc::Global;

impl Value {
    #[tactic(auto, unfolding(crate::specs::Values::token_of))]
    pub fn into_token(self) -> WrittenToken
        ensures { result ≡ token_of self }
    {
        match self {
            Value::Token(kept) => kept,
            other => {
                discard(other);
                no_token()
            }
        }
    }

    /// A copy of a token's bytes, for what the module keeps.
    pub fn into_text(self, alloc: Global) -> Result<Text, Exhausted>
        ensures { IfOk result (λ text. text ≡ (token_of self).text) }
    {
        self.into_token().text.to_text(alloc)
    }

    /// The name of a superclass, where there is one.
    #[tactic(auto, unfolding(crate::specs::Values::superclass_of))]
    pub fn into_superclass(self) -> Option<WrittenToken>
        ensures { result ≡ superclass_of self }
    {
        match self {
            Value::Token(kept) => Some(kept),
            other => {
                discard(other);
                None
            }
        }
    }

    #[tactic(auto, unfolding(crate::specs::Values::stage_of))]
    pub fn into_stage(self) -> Stage
        ensures { result ≡ stage_of self }
    {
        match self {
            Value::Stage(kept) => kept,
            other => {
                discard(other);
                Stage::Canonical
            }
        }
    }

    #[tactic(auto, unfolding(crate::specs::Values::imports_of))]
    pub fn into_imports(self) -> Imports
        ensures { result ≡ imports_of self }
    {
        match self {
            Value::Imports(kept) => kept,
            other => {
                discard(other);
                Imports {
                    builtin: false,
                    swift: false,
                }
            }
        }
    }

    #[tactic(auto, unfolding(crate::specs::Values::items_of))]
    pub fn into_items(self, alloc: Global) -> Prepended<WrittenItem>
        ensures { result ≡ items_of self }
    {
        match self {
            Value::Items(kept) => kept,
            other => {
                discard(other);
                Prepended::new(alloc)
            }
        }
    }

    #[tactic(auto, unfolding(crate::specs::Values::item_of))]
    pub fn into_item(self, alloc: Global) -> WrittenItem
        ensures { result ≡ item_of self }
    {
        match self {
            Value::Item(kept) => kept.into_inner(),
            other => {
                discard(other);
                WrittenItem::Decl(WrittenDecl::Class {
                    name: no_token(),
                    superclass: None,
                    fields: List::new(alloc),
                })
            }
        }
    }

    #[tactic(auto, unfolding(crate::specs::Values::fields_of))]
    pub fn into_fields(self, alloc: Global) -> Prepended<WrittenField>
        ensures { result ≡ fields_of self }
    {
        match self {
            Value::Fields(kept) => kept,
            other => {
                discard(other);
                Prepended::new(alloc)
            }
        }
    }

    #[tactic(auto, unfolding(crate::specs::Values::field_of))]
    pub fn into_field(self) -> WrittenField
        ensures { result ≡ field_of self }
    {
        match self {
            Value::Field(kept) => kept.into_inner(),
            other => {
                discard(other);
                WrittenField {
                    name: no_token(),
                    storage: Storage::Strong,
                    ty: TypeName::Int(0),
                }
            }
        }
    }

    #[tactic(auto, unfolding(crate::specs::Values::cases_of))]
    pub fn into_cases(self, alloc: Global) -> Prepended<WrittenCase>
        ensures { result ≡ cases_of self }
    {
        match self {
            Value::Cases(kept) => kept,
            other => {
                discard(other);
                Prepended::new(alloc)
            }
        }
    }

    #[tactic(auto, unfolding(crate::specs::Values::type_of))]
    pub fn into_type(self) -> WrittenType
        ensures { result ≡ type_of self }
    {
        match self {
            Value::Type(kept) => kept,
            other => {
                discard(other);
                no_type()
            }
        }
    }

    #[tactic(auto, unfolding(crate::specs::Values::payload_of))]
    pub fn into_payload(self) -> Option<TypeName>
        ensures { result ≡ payload_of self }
    {
        match self {
            Value::Type(kept) => Some(kept.ty),
            other => {
                discard(other);
                None
            }
        }
    }

    #[tactic(auto, unfolding(crate::specs::Values::types_of))]
    pub fn into_types(self, alloc: Global) -> TypeList
        ensures { result ≡ types_of self }
    {
        match self {
            Value::Types(kept) => kept,
            other => {
                discard(other);
                no_types(alloc)
            }
        }
    }

    #[tactic(auto, unfolding(crate::specs::Values::questions_of))]
    pub fn into_questions(self, alloc: Global) -> Prepended<Place>
        ensures { result ≡ questions_of self }
    {
        match self {
            Value::Questions(kept) => kept,
            other => {
                discard(other);
                Prepended::new(alloc)
            }
        }
    }

    #[tactic(auto, unfolding(crate::specs::Values::linkage_of))]
    pub fn into_linkage(self) -> Linkage
        ensures { result ≡ linkage_of self }
    {
        match self {
            Value::Linkage(kept) => kept,
            other => {
                discard(other);
                Linkage::Plain
            }
        }
    }

    #[tactic(auto, unfolding(crate::specs::Values::tokens_of))]
    pub fn into_tokens(self, alloc: Global) -> Prepended<WrittenToken>
        ensures { result ≡ tokens_of self }
    {
        match self {
            Value::Tokens(kept) => kept,
            other => {
                discard(other);
                Prepended::new(alloc)
            }
        }
    }

    #[tactic(auto, unfolding(crate::specs::Values::convention_of))]
    pub fn into_convention(self) -> Convention
        ensures { result ≡ convention_of self }
    {
        match self {
            Value::Convention(kept) => kept,
            other => {
                discard(other);
                Convention::Thin
            }
        }
    }

    #[tactic(auto, unfolding(crate::specs::Values::params_of))]
    pub fn into_params(self, alloc: Global) -> ParamList
        ensures { result ≡ params_of self }
    {
        match self {
            Value::Params(kept) => kept,
            other => {
                discard(other);
                no_params(alloc)
            }
        }
    }

    #[tactic(auto, unfolding(crate::specs::Values::givens_of))]
    pub fn into_givens(self, alloc: Global) -> GivenList
        ensures { result ≡ givens_of self }
    {
        match self {
            Value::Givens(kept) => kept,
            other => {
                discard(other);
                no_givens(alloc)
            }
        }
    }

    #[tactic(auto, unfolding(crate::specs::Values::signature_of))]
    pub fn into_signature(self, alloc: Global) -> Signature
        ensures { result ≡ signature_of self }
    {
        match self {
            Value::Signature(kept) => kept,
            other => {
                discard(other);
                Signature {
                    convention: Convention::Thin,
                    params: List::new(alloc),
                    results: List::new(alloc),
                }
            }
        }
    }

    /// The module, where the value is one.
    pub fn into_module(self, alloc: Global) -> WrittenModule
        ensures { (written : WrittenModule) → self ≡ v.Module written → result ≡ written }
    {
        match self {
            Value::Module(kept) => kept,
            other => {
                discard(other);
                WrittenModule {
                    stage: Stage::Canonical,
                    imports: Imports {
                        builtin: false,
                        swift: false,
                    },
                    items: List::new(alloc),
                }
            }
        }
    }
}
