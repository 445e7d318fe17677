//! The names of a module and their scopes: which names each body binds, and the places where a name or a statement may
//! not stand.
#![tactic(auto)]

mod check;
mod error;
mod event;
mod expression;
mod gather;
mod laws;
mod nest;
mod outline;
mod resolver;
mod scope;
mod statement;
mod table;

pub use error::NameFault;
pub use laws::scope_law;
pub use resolver::resolve;
pub use scope::{Scope, Scopes, Texts};
