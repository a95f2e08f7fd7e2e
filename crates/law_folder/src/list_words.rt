// The laws of the LRU list in bytes.
//
// Each write into the list is an update of a node under a checksum 0, or one word of the index; the process may crash at each word of an operation.
ghost use Rattle.law_folder.specs.ListWords.{WritesAreMadeInTurn, WritesAreMade, WritesCanGoOn, WritesSealTheirNodes, WritesKeepSeals, NodeUpdatesKeepSeals, InsertsCanBeMade, InsertsCommitAtTheSecondWord, InsertsEndAtRest, RemovalsCanBeMade, RemovalsCommitAtTheSecondWord, RemovalsEndAtRest};
ghost use Rattle.law_folder.specs.ListWords.{TouchesCanBeMade, TouchesAreMadeInTurn, TouchesCanGoOn, TouchesCommitAtTheSecondWord, TouchesEndAtRest, TouchesSetTheTimes, TouchesSealTheirNodes, TouchesKeepSeals, CompletionsCanBeMade, CompletionsKeepTheOutcome, CompletionsAreDone, CompletionsMayBeStopped};

/// At each word of some writes into the LRU list a prefix of the writes is made, and nothing else is shown to change. In the end all are made, each node that
/// they write has its checksum, each that had its checksum has it still, and more can be written.
pub fn writes_are_made_in_turn()
    ensures at_each_word { WritesAreMadeInTurn }
    ensures ends { WritesAreMade }
    ensures writable { WritesCanGoOn }
    ensures sealed { WritesSealTheirNodes }
    ensures seals_stand { WritesKeepSeals }
    ensures updated { NodeUpdatesKeepSeals }
{}

/// An insert into the LRU list commits at its second word: the redo after a crash gives the old nodes before that word, and the new ones from it on. It can be
/// made on the image, and ends with the list idle and the node in front.
pub fn inserts_at_each_word()
    ensures can { InsertsCanBeMade }
    ensures commits { InsertsCommitAtTheSecondWord }
    ensures ends { InsertsEndAtRest }
{}

/// A removal from the LRU list commits at its second word: the redo after a crash gives the old nodes before that word, and those without the node from it on.
/// It can be made on the image, and ends with the list idle.
pub fn removals_at_each_word()
    ensures can { RemovalsCanBeMade }
    ensures commits { RemovalsCommitAtTheSecondWord }
    ensures ends { RemovalsEndAtRest }
{}

/// An access of a node of the LRU list commits at its second word: the redo after a crash gives the old order before that word, and the node in front from it
/// on. In the end the list is idle, the node has the moment as both its times, and it has its checksum, as each node has that had it.
pub fn touches_at_each_word()
    ensures can { TouchesCanBeMade }
    ensures at_each_word { TouchesAreMadeInTurn }
    ensures writable { TouchesCanGoOn }
    ensures commits { TouchesCommitAtTheSecondWord }
    ensures ends { TouchesEndAtRest }
    ensures times { TouchesSetTheTimes }
    ensures sealed { TouchesSealTheirNodes }
    ensures seals_stand { TouchesKeepSeals }
{}

/// The redo of any LRU list may crash at any of its words and begin again, as often as one likes, and gives the same. After all its words its operation is
/// done, and none is in flight.
pub fn completions_at_each_word()
    ensures can { CompletionsCanBeMade }
    ensures at_each_word { CompletionsKeepTheOutcome }
    ensures ends { CompletionsAreDone }
    ensures stops { CompletionsMayBeStopped }
{}
