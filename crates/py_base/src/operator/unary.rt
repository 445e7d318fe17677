//! The operators of UNARY.

/// `+`.
pub const PLUS: u8 = 0;

/// `-`.
pub const MINUS: u8 = 1;

/// `~`.
pub const INVERT: u8 = 2;

/// How many of these operators there are.
pub const COUNT: u8 = 3;
