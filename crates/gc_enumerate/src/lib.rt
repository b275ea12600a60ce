//! The marking of a collection: the children of live nodes become live, container by container (docs/MODEL.md, 'Marking').
#![tactic(auto)]

mod copies;
mod fault;
mod layer;
mod live;
mod nodes;
mod scanning;

pub use copies::Copies;
pub use fault::ScanFault;
pub use live::Live;
pub use scanning::scan_container;
