//! The operators of COMPARE.

/// `<`.
pub const LESS: u8 = 0;

/// `>`.
pub const GREATER: u8 = 1;

/// `==`.
pub const EQUAL: u8 = 2;

/// `>=`.
pub const GREATER_EQUAL: u8 = 3;

/// `<=`.
pub const LESS_EQUAL: u8 = 4;

/// `!=`.
pub const NOT_EQUAL: u8 = 5;

/// `in`.
pub const IN: u8 = 6;

/// `not in`.
pub const NOT_IN: u8 = 7;

/// `is`.
pub const IS: u8 = 8;

/// `is not`.
pub const IS_NOT: u8 = 9;

/// How many of these operators there are.
pub const COUNT: u8 = 10;
