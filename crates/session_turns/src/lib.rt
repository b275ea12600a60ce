//! Turns of sessions: the steps that these ask for, made by a core or by a caller of a store, and what actors hold by them beside the
//! steps of others.
#![tactic(auto)]

mod laws;
mod maker;
mod turns;

pub use laws::{
    a_ready_root_is_right, an_actor_holds_what_is_kept, an_actor_is_at_what_it_did,
    turns_are_given_right,
};
pub use maker::{ByCaller, MakesSteps};
pub use turns::{MOST_PIECE, feed, make_room, make_turn, make_turns};
