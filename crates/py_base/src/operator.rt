//! The numbers of the operators, one module for each instruction that names them.

pub mod binary;
pub mod compare;
pub mod unary;
