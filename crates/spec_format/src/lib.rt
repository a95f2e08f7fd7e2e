//! What the bytes of a cache's files mean: the fields of its records by place, and the checks of its headers.
//!
//! The crate has definitions that the contracts of the other crates cite, and their laws.
#![tactic(auto)]

ghost use Rattle.spec_format.specs.Headers.{UnfinishedAgrees};
ghost use Rattle.spec_format.specs.BlockFiles.{KeptHeadersStayFormed, SoundHasWholeIndex, WellFormedIsFinished, WellFormedIsSound, WellFormedHasWholeIndex};
ghost use Rattle.spec_format.specs.Names.{ReadsNames};
ghost use Rattle.spec_format.specs.Session.{CommandsKeepSessionWords, QuietStepsKeepSessionWords};
ghost use Rattle.spec_format.specs.Sealed.{WholeUpdatesAreMade};

/// The test `unfinished` is true of an image exactly where its index is uninitialized.
pub fn unfinished_agrees()
    ensures { UnfinishedAgrees }
{}

/// `read_name` gives a part's name for some bytes exactly where they are that name.
pub fn reads_names()
    ensures { ReadsNames }
{}

/// A well-formed folder is initialized, and its index has its whole length.
pub fn well_formed_is_finished()
    ensures finished { WellFormedIsFinished }
    ensures whole { WellFormedHasWholeIndex }
{}

/// A folder is well formed exactly where its headers are valid and its index has the magic word. A change that leaves the headers leaves it well formed; an
/// index with valid headers has its whole length.
pub fn well_formed_is_sound()
    ensures sound { WellFormedIsSound }
    ensures kept { KeptHeadersStayFormed }
    ensures whole { SoundHasWholeIndex }
{}

/// A call of a command leaves the magic word, the version, the number of the session and the crash word.
pub fn commands_keep_session_words()
    ensures along { QuietStepsKeepSessionWords }
    ensures after { CommandsKeepSessionWords }
{}

/// Once a record is the updated one, and all else is as before, the image is one of its update under a checksum 0, with all changes made.
pub fn whole_updates_are_made()
    ensures { WholeUpdatesAreMade }
{}
