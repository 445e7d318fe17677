//! The operators of BINARY and INPLACE.

/// `|`.
pub const OR: u8 = 0;

/// `^`.
pub const XOR: u8 = 1;

/// `&`.
pub const AND: u8 = 2;

/// `<<`.
pub const SHIFT_LEFT: u8 = 3;

/// `>>`.
pub const SHIFT_RIGHT: u8 = 4;

/// `+`.
pub const ADD: u8 = 5;

/// `-`.
pub const SUBTRACT: u8 = 6;

/// `*`.
pub const MULTIPLY: u8 = 7;

/// `/`.
pub const DIVIDE: u8 = 8;

/// `//`.
pub const FLOOR_DIVIDE: u8 = 9;

/// `%`.
pub const REMAINDER: u8 = 10;

/// `**`.
pub const POWER: u8 = 11;

/// How many of these operators there are.
pub const COUNT: u8 = 12;
