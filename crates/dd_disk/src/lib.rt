//! A disk of bytes, and what a crash may leave of it (docs/MODEL.md, 'The disk').
#![tactic(auto)]

mod blind;
mod bytes;
mod call;
mod calls;
mod crash;
mod disk;
mod file;
mod lent;
mod mem;

pub use blind::BlindDisk;
pub use call::{Asked, Call, Fill};
pub use calls::{read_at, sync_all, write_gated, write_synced, write_unsynced};
pub use disk::{Disk, DiskFault};
pub use file::FileDisk;
pub use mem::MemDisk;
