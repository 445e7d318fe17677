//! Instructions with their operands.

/// What CONST pushes.
#[derive(Clone, Copy, Debug, Drop, PartialEq, Eq)]
pub enum Constant {
    None,
    Truth(bool),
    Int(i64),
    /// The builtin of that number (`py_base::builtin`).
    Builtin(u8),
    /// The root of that number: a string or a class.
    Root(u32),
}

/// An instruction. Places are those of its code, from 0. In the effects, `a b -> c` shows the top of the stack at the
/// right. Roots, slots, codes and keyword lists are told by their numbers, from 0.
#[derive(Clone, Copy, Debug, Drop, PartialEq, Eq)]
pub enum Instr {
    /// The module's first step: makes the program's roots.
    Setup,
    /// `-> c`.
    Const(Constant),
    /// `a ->`.
    Pop,
    /// `a -> a a`.
    Dup,
    /// `a b -> b a`.
    Rot2,
    /// `a b -> a b a b`.
    Dup2,
    /// `a b c -> c a b`.
    Rot3,
    /// The value of a slot of the frame.
    LoadLocal(u32),
    StoreLocal(u32),
    DelLocal(u32),
    /// The value of a global's cell, a root; where it has none, the builtin of that name.
    LoadGlobal(u32),
    StoreGlobal(u32),
    DelGlobal(u32),
    /// The value of a name, a root, in a class body's dictionary; where it has none, as the global of that name.
    LoadName(u32),
    StoreName(u32),
    DelName(u32),
    /// `o -> x`: the attribute whose name is that root.
    LoadAttr(u32),
    /// `x o ->`.
    StoreAttr(u32),
    /// `o ->`.
    DelAttr(u32),
    /// `o -> f o` where the attribute is a function of the object's class or a builtin method of it; else `o -> x`, and
    /// nothing on top.
    LoadMethod(u32),
    /// `o i -> x`.
    LoadItem,
    /// `x o i ->`.
    StoreItem,
    /// `o i ->`.
    DelItem,
    /// `o i j -> x`, where None stands for a missing bound.
    Slice,
    /// `a -> x`, by an operator of `py_base::operator`.
    Unary(u8),
    /// `a -> truth`.
    Not,
    /// `a b -> x`.
    Binary(u8),
    /// `a b -> x`, in `a` where it is a list.
    InPlace(u8),
    /// `a b -> x`.
    Compare(u8),
    /// Goes on at that place.
    Jump(u32),
    /// `a ->`; goes on at that place where the value is false.
    JumpFalse(u32),
    /// Goes on at that place where the top is false, and keeps it; else pops it.
    KeepFalse(u32),
    /// Goes on at that place where the top is true, and keeps it; else pops it.
    KeepTrue(u32),
    /// So many items `-> tuple`.
    BuildTuple(u32),
    /// So many items `-> list`.
    BuildList(u32),
    /// So many pairs `-> dict`.
    BuildDict(u32),
    /// `x -> xn .. x1`, so many.
    Unpack(u32),
    /// `x -> iterator`.
    Iter,
    /// `it -> it y`; at the end `it ->`, and on at that place.
    Next(u32),
    /// `f`, so many arguments, and the values for that keyword list `-> x`.
    Call(u32, u32),
    /// The same over `f o`, where `o` is the first argument if there is one.
    CallMethod(u32, u32),
    /// `x ->`, out of the frame.
    Return,
    /// So many defaults `-> function` of that code.
    MakeFunction(u32, u32),
    /// `base -> class`, whose body is that code.
    ClassBody(u32),
    /// A block begins, whose handler stands at that place.
    Try(u32),
    /// The innermost block ends.
    PopTry,
    /// `e c -> truth`: whether that class or tuple catches the exception.
    ExcMatch,
    /// `e -> x` for 0, `e v -> x` for 1: the exception to raise.
    MakeRaised(u8),
    /// `x ->`, raised.
    Raise,
    /// `x ->`, printed.
    PrintItem,
    PrintNewline,
}
