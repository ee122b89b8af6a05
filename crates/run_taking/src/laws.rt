//! What holds of runs that follow a leader. The functions do nothing when they run.
ghost use Rattle.run_taking.specs.Laws.{RunsKeepToTheLeader};

use model_follow::followers_keep_to_their_leader;

/// Where the bytes pulled are those of a leader's stream, each history of the run is one with which the leader's
/// begins. No packet is in conflict, and one is bad only where the end of the input was told inside it. Does
/// nothing.
pub fn runs_keep_to_the_leader()
    ensures { RunsKeepToTheLeader }
{
    followers_keep_to_their_leader();
}
