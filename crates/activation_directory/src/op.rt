//! The operations of a directory.

use stream_ident::GrainId;

/// One operation on a directory. Its reply is a `DirectoryReply`, refusals included.
#[derive(Clone, Copy, Debug, PartialEq, Eq)]
pub enum DirectoryOp {
    /// A silo asks for the permit to run a grain, which is placed on it if it is placed nowhere.
    Enter {
        /// The grain.
        grain: GrainId,
        /// The silo that asks.
        silo: u8,
    },
    /// The holder of a permit gives it back. The grain stays placed.
    Leave {
        /// The grain.
        grain: GrainId,
        /// Its permit.
        permit: u64,
    },
    /// A grain whose permit isn't out is taken out of the directory.
    Unplace {
        /// The grain.
        grain: GrainId,
    },
    /// A silo is gone: the least grain that is placed on it is taken out, with its permit.
    Down {
        /// The silo.
        silo: u8,
    },
}
