//! What holds of archives that follow others. The functions do nothing when they run.
ghost use Rattle.model_follow.specs.Laws.{EndsAreApart, ExportsCanBeRead, ExportsLeadToTheLeader, FollowedAreLegal, FollowersCanBeFollowed, FollowersOfALeader, FollowersStayPrefixes, PacketsHaveCases, RunsCanBeFollowed, SamplesCanBeFollowed, SpellingsHaveRoom, StepsAreNoEnds, StepsAreOne, StepsCanBeFollowed, StintsCanBeFollowed};

use journal_entries::plan_laws;
use journal_packets::exports_are_streams;

/// What runs of the abstract archive make of nothing can be followed, with batches, the mark and plans of
/// every kind, stored at once or step by step, since each step and each stint of the work on a plan leads
/// from a state that can be followed to such a one; and what an archive has that follows another one can be
/// followed too. A packet has room for each entry, and what is exported is a stream. Does nothing.
pub fn what_runs_make_can_be_followed()
    ensures room { SpellingsHaveRoom }
    ensures legal { FollowedAreLegal }
    ensures exports { ExportsCanBeRead }
    ensures steps { StepsCanBeFollowed }
    ensures stints { StintsCanBeFollowed }
    ensures runs { RunsCanBeFollowed }
    ensures samples { SamplesCanBeFollowed }
    ensures followers { FollowersCanBeFollowed }
{
    plan_laws();
    exports_are_streams();
}

/// A packet is that of an entry that is had, that of one that is taken next, one behind a gap, one that
/// differs from the entry that is there, first at one place, or one that can't be taken; and it is only one
/// of these. Does nothing.
pub fn each_packet_is_one_case()
    ensures one { StepsAreOne }
    ensures steps { StepsAreNoEnds }
    ensures ends { EndsAreApart }
    ensures each { PacketsHaveCases }
{}

/// A follower's history is at each moment one with which its leader's begins. No packet of the leader is in
/// conflict or can't be taken, and bytes are bad only where the end of the input was told inside a packet.
/// Does nothing.
pub fn followers_keep_to_their_leader()
    ensures prefixes { FollowersStayPrefixes }
    ensures cases { FollowersOfALeader }
{}

/// What a leader exports, from the entry on that a follower has last or from the next one, leads the
/// follower to the leader's history. Does nothing.
pub fn exports_lead_to_the_leader()
    ensures { ExportsLeadToTheLeader }
{
    what_runs_make_can_be_followed();
}
