//! Why a store was not opened.

use refusals::Refusal;

/// Why a store was not opened, and what that leaves of its disk.
#[derive(Clone, Copy)]
pub struct Unopened {
    pub refusal: Refusal,
    /// Whether containers may have been given back. Where it is false, the disk was only read.
    pub wrote: bool,
}
