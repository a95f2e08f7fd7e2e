// The first of the positional arguments.
ghost use Rattle.std.specs.Prelude.{◌≡◌};
ghost use Rattle.blk_args.specs.Tasks.{verb_of_word, first_words};

/// What the first positional argument names.
#[derive(Clone, Copy)]
pub enum Verb {
    /// `session`
    Session,
    /// `count`
    Count,
    /// `list`
    List,
    /// `get`
    Get,
    /// `put`
    Put,
    /// `doom`
    Doom,
    /// `trim`
    Trim,
    /// `inspect`
    Inspect,
    /// `verify`
    Verify,
    /// `gen`
    Gen,
}

/// What a first argument names, if it is one.
#[tactic(auto, unfolding(crate::specs::Tasks::first_words))]
pub fn verb_of(word: &[u8]) -> Option<Verb>
    ensures { result ≡ verb_of_word word.now first_words }
{
    if word == b"session".as_slice() {
        Some(Verb::Session)
    } else if word == b"count".as_slice() {
        Some(Verb::Count)
    } else if word == b"list".as_slice() {
        Some(Verb::List)
    } else if word == b"get".as_slice() {
        Some(Verb::Get)
    } else if word == b"put".as_slice() {
        Some(Verb::Put)
    } else if word == b"doom".as_slice() {
        Some(Verb::Doom)
    } else if word == b"trim".as_slice() {
        Some(Verb::Trim)
    } else if word == b"inspect".as_slice() {
        Some(Verb::Inspect)
    } else if word == b"verify".as_slice() {
        Some(Verb::Verify)
    } else if word == b"gen".as_slice() {
        Some(Verb::Gen)
    } else {
        None
    }
}
