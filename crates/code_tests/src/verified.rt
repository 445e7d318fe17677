//! Programs by hand: right ones, and others that each break one rule.

mod codes;
mod made;
mod names;
mod numbers;
mod places;
mod roots;
