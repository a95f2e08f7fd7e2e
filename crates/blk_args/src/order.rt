// What the positional arguments ask for.
ghost use Rattle.std.specs.Prelude.{◌≡◌, ℕ, List, [], ◌∷◌, IfSome, Ok};
ghost use Rattle.std.specs.Option.{option_map};
ghost use Rattle.percent_encoding.specs.Percent.{percent_decode};
ghost use Rattle.blk_script.specs.Fields.{key_field};
ghost use Rattle.blk_args.specs.Apart.{ordinary_words};
ghost use Rattle.blk_args.specs.Tasks.{HasSpelledKey, Task, key_word, of_key_and_stream, task_given, task_in, task_of, task_on};

use crate::apart::Ordinary;
use crate::inspected::{part_named, part_numbered};
use crate::numbers::read_few;
use crate::verbs::{Verb, verb_of};
use blk_inspect::Part;
use blk_script::{is_key, read_count, read_stream};

// A generator makes no more iterations.
const MOST_TURNS: u64 = 100_000;

/// What the program is asked for. A key is kept as it is spelled; `blk_script::decode_key` gives its bytes.
#[derive(Clone, Copy, Debug, PartialEq, Eq)]
pub enum Order<'w> {
    /// `session`: the script on the input is run.
    Session,
    /// `count`: the items and bytes are printed.
    Count,
    /// `list`: the items are printed.
    List,
    /// `get KEY STREAM`: a stream is printed.
    Get { key: &'w [u8], stream: u8 },
    /// `put KEY STREAM`: the input is written to a stream.
    Put { key: &'w [u8], stream: u8 },
    /// `doom KEY`: the entry with the key is doomed.
    Doom { key: &'w [u8] },
    /// `trim BYTES`: items are evicted until no more than these bytes are left.
    Trim { bytes: u64 },
    /// `inspect index`, `inspect file N`, `inspect address WORD`, `inspect list`, `inspect chain BUCKET` and `inspect entry WORD`: a
    /// part of the folder is printed.
    Inspect { part: Part },
    /// `verify`: what the folder holds is checked and printed.
    Verify,
    /// `gen SEED TURNS`: this many iterations of a generator are played.
    Generate { seed: u64, turns: u32 },
}

/// What the positional arguments ask for, if they are a command.
pub fn read_order(words: Ordinary<'_>) -> Option<Order<'_>>
    ensures task { option_map task_given result ≡ task_in (ordinary_words words.entry) }
    ensures spelled { IfSome result HasSpelledKey }
{
    match words {
        Ordinary::None => None,
        Ordinary::One(word) => read_alone(verb_of(word)?),
        Ordinary::Two(word, value) => read_with_one(verb_of(word)?, value),
        Ordinary::Three(word, key, stream) => read_with_two(verb_of(word)?, key, stream),
    }
}

// What a first argument alone asks for.
#[tactic(auto, unfolding(crate::specs::Tasks::task_of))]
fn read_alone<'w>(verb: Verb) -> Option<Order<'w>>
    ensures task { option_map task_given result ≡ task_of verb [] }
    ensures spelled { IfSome result HasSpelledKey }
{
    match verb {
        Verb::Session => Some(Order::Session),
        Verb::Count => Some(Order::Count),
        Verb::List => Some(Order::List),
        Verb::Verify => Some(Order::Verify),
        Verb::Get | Verb::Put | Verb::Doom | Verb::Trim | Verb::Inspect | Verb::Gen => None,
    }
}

// What it asks for with one argument after it.
#[tactic(auto, unfolding(crate::specs::Tasks::task_of))]
fn read_with_one(verb: Verb, word: &[u8]) -> Option<Order<'_>>
    ensures task { option_map task_given result ≡ task_of verb (word.now ∷ []) }
    ensures spelled { IfSome result HasSpelledKey }
{
    match verb {
        Verb::Doom => {
            let key = spelled_key(word)?;
            Some(Order::Doom { key })
        }
        Verb::Trim => {
            let bytes = read_count(word).ok()?;
            Some(Order::Trim { bytes })
        }
        Verb::Inspect => {
            let part = part_named(word)?;
            Some(Order::Inspect { part })
        }
        Verb::Session
        | Verb::Count
        | Verb::List
        | Verb::Get
        | Verb::Put
        | Verb::Verify
        | Verb::Gen => None,
    }
}

// What it asks for with two arguments after it.
#[tactic(auto, unfolding(crate::specs::Tasks::task_of))]
fn read_with_two<'w>(verb: Verb, first: &'w [u8], second: &[u8]) -> Option<Order<'w>>
    ensures task { option_map task_given result ≡ task_of verb (first.now ∷ second.now ∷ []) }
    ensures spelled { IfSome result HasSpelledKey }
{
    match verb {
        Verb::Get => {
            let (key, stream) = key_and_stream(first, second)?;
            Some(Order::Get { key, stream })
        }
        Verb::Put => {
            let (key, stream) = key_and_stream(first, second)?;
            Some(Order::Put { key, stream })
        }
        Verb::Inspect => {
            let part = part_numbered(first, second)?;
            Some(Order::Inspect { part })
        }
        Verb::Gen => {
            let seed = read_count(first).ok()?;
            let turns = read_few(second, MOST_TURNS)? as u32;
            Some(Order::Generate { seed, turns })
        }
        Verb::Session | Verb::Count | Verb::List | Verb::Doom | Verb::Trim | Verb::Verify => None,
    }
}

// A key and a stream.
fn key_and_stream<'w>(key: &'w [u8], stream: &[u8]) -> Option<(&'w [u8], u8)>
    ensures task { (make : List ℕ → ℕ → Task) → task_on make result ≡ of_key_and_stream make key.now stream.now }
    ensures spelled { IfSome result (λ pair. key_field pair.0.now ≡ Ok (percent_decode pair.0.now)) }
{
    let key = spelled_key(key)?;
    let stream = read_stream(stream).ok()?;
    Some((key, stream))
}

// The argument, where it is a key as a script line spells it.
#[tactic(auto, unfolding(blk_script::specs::Fields::key_field))]
fn spelled_key(word: &[u8]) -> Option<&[u8]>
    ensures key { option_map (λ key. percent_decode key.now) result ≡ key_word word.now }
    ensures spelled { IfSome result (λ key. key_field key.now ≡ Ok (percent_decode key.now)) }
{
    if is_key(word) { Some(word) } else { None }
}
