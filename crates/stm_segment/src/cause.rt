//! Why a core goes on no more.

/// The first fault that a core met. Where one is kept, no transaction begins.
#[derive(Clone, Copy, Debug, Drop, PartialEq, Eq)]
pub enum Cause {
    /// The heap has no room: `reserved + need > limit`, in words of 8 bytes. What is needed is an extent of a record
    /// that a step came to make or to change.
    Full {
        reserved: u64,
        need: u64,
        limit: u64,
    },
    /// The input failed, and counted it.
    ReadFault,
    /// The output failed, and counted it.
    WriteFault,
    /// The error output failed, and counted it.
    ErrFault,
    /// There was no memory.
    OutOfMemory,
}
