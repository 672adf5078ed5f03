//! What holds of all that is played. The function does nothing: its contract is the law.
ghost use Rattle.merge_world.specs.Playing.{PlayedRuns};

/// Events that were played from nothing are a run of merge_model's world with some steps that fail: it
/// gives the same answers and the same world. No more of its steps fail by the store than commits did.
pub fn played_events_are_runs()
    ensures { PlayedRuns }
{}
