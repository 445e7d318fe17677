//! What one transaction of a core keeps, sees and is refused: the books of a core, and a segment's view of its store.
#![tactic(auto)]

mod books;
mod cause;
mod devices;
mod halt;
mod in_hand;
mod recent;
mod segment;
mod sights;
mod threads;
mod view;

pub use books::{Books, Cut, Hand, Progress, Work};
pub use cause::Cause;
pub use devices::Devices;
pub use halt::{Halt, LastStop};
pub use recent::{RECENT_LIMIT, Recent};
pub use segment::{SegView, wins};
pub use sights::{byte_count, copy_of, is_held, is_there, is_tracked_kind, value_count};
pub use threads::{Started, Threads};
