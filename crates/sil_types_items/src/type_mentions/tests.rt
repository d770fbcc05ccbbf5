//! What a caller asks of each type and of each member.

ghost use Rattle.std.specs.Prelude.{◌≡◌, Bool};
ghost use Rattle.std.specs.List.{flat_map};
ghost use Rattle.sil_ast.specs.declared.member.Member.{Member};
ghost use Rattle.sil_ast.specs.declared.type_name.TypeName.TheVariants as type_of;
ghost use Rattle.sil_types_declarations.specs.TypeDefinitions.Mentions.{Mention, direct_type, mention, together, operand_types};
ghost use Rattle.sil_types_declarations.specs.declared.type_definitions.standing.Standing.TheVariants as place;

use sil_ast::{Given, Member, Operand, Text, TypeName};
use sil_types_declarations::Standing;

/// A test of each type that a module mentions. Types that stand in no text come by their parts.
pub trait MentionTest {
    ghost holds: { Self → Mention → Bool };

    /// Of a type that the text writes.
    fn of_written(&self, standing: Standing, ty: &TypeName) -> bool
        ensures { result ≡ holds self.now (mention standing ty.now) };

    /// Of the type that a declaration with this name declares.
    fn of_declared(&self, name: &Text) -> bool
        ensures { result ≡ holds self.now (mention place.Unwritten (type_of.Named name.now)) };

    /// Of the type that a signature with these results gives.
    fn of_results(&self, results: &[Given]) -> bool
        ensures { result ≡ holds self.now (mention place.Unwritten (direct_type results.now)) };

    /// Of the tuple of these operands' types.
    fn of_operands(&self, operands: &[Operand]) -> bool
        ensures { result ≡ holds self.now (mention place.Unwritten (together (flat_map operand_types operands.now))) };
}

/// A test of each member that instructions name.
pub trait MemberTest {
    ghost fails: { Self → Member → Bool };

    fn of_member(&self, member: &Member) -> bool
        ensures { result ≡ fails self.now member.now };
}
