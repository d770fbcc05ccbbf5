//! What an instruction does, as a bare word. Its form is in `forms`.

/// An instruction's mnemonic, in the order of the table of forms. The last five are the terminators.
#[derive(Clone, Copy, Debug, PartialEq, Eq)]
pub enum Op {
    /// `%0 = integer_literal $Builtin.Int64, 42`
    IntegerLiteral,
    /// `%0 = function_ref @f : $@convention(thin) () -> ()`
    FunctionRef,
    /// `%2 = builtin "cmp_eq_Int64"(%0 : $Builtin.Int64, %1 : $Builtin.Int64) : $Builtin.Int1`
    Builtin,
    /// `cond_fail %0 : $Builtin.Int1, "arithmetic overflow"`
    CondFail,
    /// `%0 = alloc_ref $Node`
    AllocRef,
    /// `%0 = alloc_stack [lexical] $Node, var, name "node"`
    AllocStack,
    /// `dealloc_stack %0 : $*Node`
    DeallocStack,
    /// `%1 = copy_value %0 : $Node`
    CopyValue,
    /// `destroy_value %0 : $Node`
    DestroyValue,
    /// `%1 = move_value [lexical] %0 : $Node`
    MoveValue,
    /// `%1 = begin_borrow %0 : $Node`
    BeginBorrow,
    /// `end_borrow %1 : $Node`
    EndBorrow,
    /// `%1 = load [copy] %0 : $*Node`
    Load,
    /// `store %0 to [init] %1 : $*Node`
    Store,
    /// `%1 = load_borrow %0 : $*Node`
    LoadBorrow,
    /// `destroy_addr %0 : $*Node`
    DestroyAddr,
    /// `%1 = load_weak [take] %0 : $*@sil_weak Optional<Node>`
    LoadWeak,
    /// `store_weak %0 to [init] %1 : $*@sil_weak Optional<Node>`
    StoreWeak,
    /// `%1 = load_unowned %0 : $*@sil_unowned Node`
    LoadUnowned,
    /// `store_unowned %0 to [init] %1 : $*@sil_unowned Node`
    StoreUnowned,
    /// `%2 = struct $Pair (%0 : $Node, %1 : $Int)`
    Struct,
    /// `%2 = tuple (%0 : $Node, %1 : $Int)`
    Tuple,
    /// `%1 = enum $Optional<Node>, #Optional.some!enumelt, %0 : $Node`
    Enum,
    /// `%1 = struct_extract %0 : $Pair, #Pair.first`
    StructExtract,
    /// `%1 = tuple_extract %0 : $(Node, Int), 1`
    TupleExtract,
    /// `(%1, %2) = destructure_struct %0 : $Pair`
    DestructureStruct,
    /// `(%1, %2) = destructure_tuple %0 : $(Node, Int)`
    DestructureTuple,
    /// `%1 = struct_element_addr %0 : $*Pair, #Pair.first`
    StructElementAddr,
    /// `%1 = tuple_element_addr %0 : $*(Node, Int), 0`
    TupleElementAddr,
    /// `%1 = ref_element_addr %0 : $Node, #Node.next`
    RefElementAddr,
    /// `%2 = apply %0(%1) : $@convention(thin) (@owned Node) -> Int`
    Apply,
    /// `debug_value %0 : $Node, let, name "node"`
    DebugValue,
    /// `strong_retain %0 : $Node`
    StrongRetain,
    /// `strong_release %0 : $Node`
    StrongRelease,
    /// `retain_value %0 : $Pair`
    RetainValue,
    /// `release_value %0 : $Pair`
    ReleaseValue,
    /// `br bb1(%0 : $Node)`
    Br,
    /// `cond_br %0, bb1, bb2`
    CondBr,
    /// `switch_enum %0 : $Optional<Node>, case #Optional.some!enumelt: bb1, default bb2`
    SwitchEnum,
    /// `return %0 : $Node`
    Return,
    /// `unreachable`
    Unreachable,
    /// `%1 = upcast %0 : $Derived to $Base`
    Upcast,
}

/// How many instructions there are.
pub const INSTRUCTION_COUNT: usize = 42;

/// Every instruction, at its number.
pub static OPS: [Op; INSTRUCTION_COUNT] = [
    Op::IntegerLiteral,
    Op::FunctionRef,
    Op::Builtin,
    Op::CondFail,
    Op::AllocRef,
    Op::AllocStack,
    Op::DeallocStack,
    Op::CopyValue,
    Op::DestroyValue,
    Op::MoveValue,
    Op::BeginBorrow,
    Op::EndBorrow,
    Op::Load,
    Op::Store,
    Op::LoadBorrow,
    Op::DestroyAddr,
    Op::LoadWeak,
    Op::StoreWeak,
    Op::LoadUnowned,
    Op::StoreUnowned,
    Op::Struct,
    Op::Tuple,
    Op::Enum,
    Op::StructExtract,
    Op::TupleExtract,
    Op::DestructureStruct,
    Op::DestructureTuple,
    Op::StructElementAddr,
    Op::TupleElementAddr,
    Op::RefElementAddr,
    Op::Apply,
    Op::DebugValue,
    Op::StrongRetain,
    Op::StrongRelease,
    Op::RetainValue,
    Op::ReleaseValue,
    Op::Br,
    Op::CondBr,
    Op::SwitchEnum,
    Op::Return,
    Op::Unreachable,
    Op::Upcast,
];
