// What places that are freed are to the state that was kept: laws, each the contract of a function with an empty body.
ghost use Rattle.blk_object.specs.Freeing.{FreedWordsAreGone, FreedWordsAreGonePartlyOut, FreedWordsLeaveCounters, FreedWordsLeaveSession, GoingWordsFindDoomed, GoingWordsFindTheSame, UnlinkedWordsAreFreeable};

/// Unlinked addresses of a state that is kept may be freed. Freed ones are unlinked no longer, and counters and session of the index are unchanged; while they
/// are freed recovery gives the same durable contents, or, where the main item of an object is out, those with the object doomed.
pub fn freed_words_are_gone()
    ensures may { UnlinkedWordsAreFreeable }
    ensures gone { FreedWordsAreGone }
    ensures out { FreedWordsAreGonePartlyOut }
    ensures counters { FreedWordsLeaveCounters }
    ensures session { FreedWordsLeaveSession }
    ensures find { GoingWordsFindTheSame }
    ensures doomed { GoingWordsFindDoomed }
{}
