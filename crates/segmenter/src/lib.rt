//! Content-defined segmentation: a stream of bytes is cut into segments of 2,048 to 16,384 bytes, at places that
//! depend on the bytes alone (docs/FORMAT.md, "Segmenting").
#![tactic(auto)]

mod cutting;
mod rolling;
mod whole;

pub use cutting::{Cutter, Taken};
pub use whole::{cut_pieces, segmentation_laws, segments_plainly};
