//! What holds of streams, whatever is read. The functions do nothing when they run.
ghost use Rattle.journal_packets.specs.Streams.{ExportsAreStreams, FrontsOfStreamsAreNotBad, StreamsAreReadInOneWay};

/// Bytes begin with packets in one way.
#[tactic(auto, using(crate::proofs::StreamLemmas::one_way))]
pub fn streams_are_read_in_one_way()
    ensures { StreamsAreReadInOneWay }
{}

/// Bytes that begin a stream are never bad while more may come.
#[tactic(auto, using(crate::proofs::StreamLemmas::never_bad))]
pub fn fronts_of_streams_are_not_bad()
    ensures { FrontsOfStreamsAreNotBad }
{}

/// What is exported of entries is a stream of them.
#[tactic(auto, using(crate::proofs::ExportLemmas::export_streams))]
pub fn exports_are_streams()
    ensures { ExportsAreStreams }
{}
