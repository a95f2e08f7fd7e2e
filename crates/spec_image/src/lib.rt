//! What the files of a cache folder hold, and how they change: images, steps, write traces and footprints.
//!
//! The crate has definitions that the contracts of the other crates cite, and their laws.
#![tactic(auto)]

ghost use Rattle.spec_image.specs.Laws.{WordsWriteTheBytes, WordsAreAligned, WordsStayInside, StepsStayInside, StepsOfOneCallAreOne, QuietStepsKeepTheSession, CommandsKeepTheSession, QuietStepsHaveNoNote, NotesGoOn};

/// After the word steps of a write its bytes are in the file, and nothing else has changed.
pub fn words_write_the_bytes()
    ensures { WordsWriteTheBytes }
{}

/// Each word step of a write lies inside one aligned word.
pub fn words_are_aligned()
    ensures { WordsAreAligned }
{}

/// At each word step of a write only bytes of its range have changed.
pub fn words_stay_inside()
    ensures { WordsStayInside }
{}

/// Before and after each of some steps, all outside what the steps touch is as it was before the first.
pub fn steps_stay_inside()
    ensures { StepsStayInside }
{}

/// Where the write trace is observable before a call, two lists of steps that it applied are equal, so two clauses of one contract speak of the same steps.
pub fn steps_of_one_call_are_one()
    ensures { StepsOfOneCallAreOne }
{}

/// A call of a command touches no word that says what session it is, and makes no note.
pub fn commands_keep_the_session()
    ensures along { QuietStepsKeepTheSession }
    ensures after { CommandsKeepTheSession }
    ensures unnoted { QuietStepsHaveNoNote }
{}

/// Steps with true notes (completion markers), and then steps whose notes go on from theirs, have true notes together.
pub fn notes_go_on()
    ensures { NotesGoOn }
{}
