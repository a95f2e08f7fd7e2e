//! The run of a script over the map model, and what a crash after any of its steps leaves of the folder.
//!
//! The crate has the definitions that the contracts of a session and of the other subcommands cite, and the laws by
//! which a run composes, each the contract of a function with an empty body.
#![tactic(auto)]

ghost use Rattle.spec_run.specs.Laws.{AnsweredCommandsAreDone, AnsweredCommandsAreNoted, AnsweredEntriesAreFound, AskedCommandsAreNext, BoundNamesAreFew, ClockIsReadForCommands, ClosesFreeTheirName, ClosesLeaveEntriesClean, CommandsAreFew, CommandsArePlayed, EntriesAreFoundWhole, ErrorsArePlayed, EvictedLinesComeEarly, FixedScriptsPrintEvictionsEarly, FixedScriptsTurnNoneAway, FoundRowsAreFromBefore, FoundRowsGoByOneList, LeastNamesAreClosedFirst, LinesArePlayedInTurn, LinesGoOn, LinesPrintEvictionsEarly, LinesTurnNoneAway, NewEntriesAreLost, NoneIsClosedWhereNoneIsBound, NoteNumbersAreExact, NotedCommandsFollow, NothingIsPlayed, PlayedCommandsComeFirst, PlayedRunsAreCut, PlayedRunsAreWhole, PlayingGoesOn, RefusalsOutsideArePlayed, RestsAreFound, RunsBegin, RunsEnd, RunsGoOn, RunsGoOnInTurn, RunsMayStopBetween, RunsMayStopInACommand, RunsMayStopInTheOpening, SettledEntriesAreFound, StatesOfRunsAreValid, TextsArePlayed, UnsavedItemsAreLost, UnusedItemsKeepTheirOrder, WholeLinesComeFirst};

/// A run begins with an opening that succeeds. An opening that failed leaves the folder as a crash of a run may, whatever commands would follow.
pub fn runs_begin()
    ensures begins { RunsBegin }
    ensures failed { RunsMayStopInTheOpening }
{}

/// A run goes on with each command that is done and noted. It may crash in a command that is made in part, and between two commands.
pub fn runs_go_on()
    ensures command { RunsGoOn }
    ensures in_turn { RunsGoOnInTurn }
    ensures follow { NotedCommandsFollow }
    ensures part { RunsMayStopInACommand }
    ensures between { RunsMayStopBetween }
    ensures numbers { NoteNumbersAreExact }
{}

/// A run is whole where all its commands are done, and the step that ends the session, made or not, leaves the recovered contents as they are.
pub fn runs_end()
    ensures { RunsEnd }
{}

/// A script is played one iteration after another, and a session's lines after earlier lines. A run that is cut after some iterations, or whole, has exactly
/// these iterations, and its commands are theirs and then the Closes of the names that are bound.
pub fn scripts_are_played()
    ensures nothing { NothingIsPlayed }
    ensures command { CommandsArePlayed }
    ensures error { ErrorsArePlayed }
    ensures away { RefusalsOutsideArePlayed }
    ensures text { TextsArePlayed }
    ensures go_on { PlayingGoesOn }
    ensures lines { LinesArePlayedInTurn }
    ensures reads { ClockIsReadForCommands }
    ensures lines_read { LinesTurnNoneAway }
    ensures fixed_read { FixedScriptsTurnNoneAway }
    ensures cut { PlayedRunsAreCut }
    ensures whole { PlayedRunsAreWhole }
    ensures first { PlayedCommandsComeFirst }
    ensures next { AskedCommandsAreNext }
{}

/// An input is cut into lines piece by piece: whole lines stay, and later bytes go on with the line that has no end yet. A session has at most half as many
/// commands as its input has bytes, rounded up.
pub fn lines_go_on()
    ensures cut { LinesGoOn }
    ensures whole { WholeLinesComeFirst }
    ensures few { CommandsAreFew }
{}

/// At the end of a session the least bound handle name is closed first, and its Close leaves the other names bound.
pub fn least_names_are_closed_first()
    ensures first { LeastNamesAreClosedFirst }
    ensures none { NoneIsClosedWhereNoneIsBound }
    ensures frees { ClosesFreeTheirName }
    ensures few { BoundNamesAreFew }
{}

/// Wherever a run crashes once its folder is opened, the recovered contents have each clean entry that the command in progress leaves as it is, with its exact
/// bytes. With no command in progress they are exactly the durable contents.
pub fn settled_entries_are_found()
    ensures settled { SettledEntriesAreFound }
    ensures rests { RestsAreFound }
{}

/// Wherever a run crashes in a command, an entry is found as it was before that command, or not at all. It is found whole, but for parts that the command
/// evicts alone, and what the command doesn't access is found in its old order. An entry that stays dirty, or that the command makes, isn't found.
pub fn entries_are_found_whole_and_in_order()
    ensures before { FoundRowsAreFromBefore }
    ensures lost { UnsavedItemsAreLost }
    ensures new { NewEntriesAreLost }
    ensures list { FoundRowsGoByOneList }
    ensures whole { EntriesAreFoundWhole }
    ensures order { UnusedItemsKeepTheirOrder }
    ensures valid { StatesOfRunsAreValid }
{}

/// Each command that was answered where a run breaks off is done: its reply is printed after its note, and what is recovered is what a crash in a later command
/// leaves, or the durable contents after all commands. Before the note of a command only lines of what it evicts may be out.
pub fn replies_follow_notes()
    ensures noted { AnsweredCommandsAreNoted }
    ensures done { AnsweredCommandsAreDone }
    ensures early { EvictedLinesComeEarly }
    ensures lines { LinesPrintEvictionsEarly }
    ensures fixed { FixedScriptsPrintEvictionsEarly }
{}

/// What was closed and answered is kept. The last Close of an object leaves its entries clean; and wherever the process crashes,
/// after any step, an entry that is clean since an answered command is found with its exact bytes: no later command writes
/// to its object, dooms it or evicts it.
pub fn answered_closes_are_kept()
    ensures closes { ClosesLeaveEntriesClean }
    ensures found { AnsweredEntriesAreFound }
{}
