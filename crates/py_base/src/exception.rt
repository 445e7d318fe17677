//! The numbers of the classes that every program has: `object` and the exception classes, in the order in which SETUP
//! makes them.

/// `object`.
pub const OBJECT: u8 = 0;

/// `BaseException`.
pub const BASE_EXCEPTION: u8 = 1;

/// `Exception`.
pub const EXCEPTION: u8 = 2;

/// `StandardError`.
pub const STANDARD_ERROR: u8 = 3;

/// `ArithmeticError`.
pub const ARITHMETIC_ERROR: u8 = 4;

/// `LookupError`.
pub const LOOKUP_ERROR: u8 = 5;

/// `NameError`.
pub const NAME_ERROR: u8 = 6;

/// `AttributeError`.
pub const ATTRIBUTE_ERROR: u8 = 7;

/// `TypeError`.
pub const TYPE_ERROR: u8 = 8;

/// `ValueError`.
pub const VALUE_ERROR: u8 = 9;

/// `RuntimeError`.
pub const RUNTIME_ERROR: u8 = 10;

/// `EOFError`.
pub const EOF_ERROR: u8 = 11;

/// `AssertionError`.
pub const ASSERTION_ERROR: u8 = 12;

/// `MemoryError`.
pub const MEMORY_ERROR: u8 = 13;

/// `ZeroDivisionError`.
pub const ZERO_DIVISION_ERROR: u8 = 14;

/// `OverflowError`.
pub const OVERFLOW_ERROR: u8 = 15;

/// `IndexError`.
pub const INDEX_ERROR: u8 = 16;

/// `KeyError`.
pub const KEY_ERROR: u8 = 17;

/// `UnboundLocalError`.
pub const UNBOUND_LOCAL_ERROR: u8 = 18;

/// `thread.error`.
pub const THREAD_ERROR: u8 = 19;

/// How many classes there are.
pub const COUNT: u8 = 20;
