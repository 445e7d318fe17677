//! A store of records in words.
#![tactic(auto)]

mod books;
mod changes;
mod claim;
mod draft;
mod enter;
mod extent;
mod fill;
mod find;
mod grow;
mod hash;
mod image;
mod index;
mod leave;
mod make;
mod new_record;
mod put;
mod ready;
mod segments;
mod sight;
mod spans;
mod store;
mod take;
mod value;
mod write;

pub use draft::Draft;
pub use extent::{Extent, Note, Span};
pub use store::PagedStore;
