// What holds of packing and reading, for all records and tracks. Each function stands for the
// theorem that is its contract, and does nothing else.
ghost use Rattle.track.specs.Tracks.{RecordReadBack, RecordOnePacking, TrackReadBack, LegalTrackHasOneList};

// A record after any last stamp is read back from its packing, whatever follows.
#[tactic(auto, using(crate::proofs::TrackLaws::record_read_back))]
pub fn record_is_read_back()
    ensures { RecordReadBack }
{}

// What is read is the one packing of its record, and may be packed.
pub fn record_has_one_packing()
    ensures { RecordOnePacking }
{}

// A list of records that may be packed is read back from its packing: the reader refuses nothing
// that packing can produce.
#[tactic(auto, using(crate::proofs::TrackLaws::track_read_back))]
pub fn track_is_read_back()
    ensures { TrackReadBack }
{}

// What is read of a legal track may be packed, packs to the same bytes, and is the only list of
// records that does.
pub fn legal_track_has_one_list()
    ensures { LegalTrackHasOneList }
{}
