//! What an archive is that follows another one, as definitions.
//!
//! It takes the other's entries one by one, each in a packet (`journal_packets`). An entry may be taken
//! after a history where it is legal, where a plan's own places are for its sublists and share no page with
//! a live one, and where the journal has room (`specs/Taking.antt`). The step over a packet adds the next
//! entry, or finds that an earlier one is had; any other packet is told by what it is: behind a gap, in
//! conflict, or not to be taken (`specs/Following.antt`). To the layer above the crate promises that each
//! packet is just one of these, that what runs of the abstract archive make can be followed, and that a
//! follower's history is at each moment one with which its leader's begins (`specs/Laws.antt`). It knows
//! nothing of devices and code.
#![tactic(auto)]

mod laws;

pub use laws::{
    each_packet_is_one_case, exports_lead_to_the_leader, followers_keep_to_their_leader,
    what_runs_make_can_be_followed,
};
