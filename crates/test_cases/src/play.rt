// A case that is played, line by line.
use crate::numbers::numbers;
use crate::wrong::Wrong;
use blk_cache::Cache;
use blk_index::make;
use blk_io::{FileId, Folder, ListClock, MemSink, MemSource, read_word};
use blk_model::{Limits, limits};
use blk_run::run;
use blk_script::read_line;
use std::alloc::Global;
use std::mem::replace;
use test_folders::folders::{Entry, add, audited, give_blocks, place_of, put_index, put_words};
use test_folders::found::found;
use test_folders::stopping::{Mem, again, empty};

// The moment of each command.
const MOMENT: u64 = 100;

// The limits that the program has where it is given none.
const LIMITS: Limits = Limits {
    max_bytes: 83_886_080,
    max_items: 65_536,
};

/// A case that is played: its folder, the limits, the session once there is one, the input and the output of what is played next, the words
/// and the input of the run that looks at what is found, the folder calls of the last command, and what was answered to the last line.
#[derive(Drop)]
pub(crate) struct Play {
    alloc: Global,
    f: Mem,
    limits: Limits,
    cache: Option<Cache>,
    input: String,
    taking: u64,
    out: MemSink,
    look: (String, String),
    calls: u64,
    pub(crate) said: String,
}

impl Play {
    /// A case of which nothing is played yet, over an empty folder.
    pub(crate) fn new(alloc: Global) -> Play {
        Play {
            alloc,
            f: empty(alloc),
            limits: LIMITS,
            cache: None,
            input: String::new(alloc),
            taking: 0,
            out: MemSink::new(alloc),
            look: (String::new(alloc), String::new(alloc)),
            calls: 0,
            said: String::new(alloc),
        }
    }

    /// Plays a line.
    pub(crate) fn line(&mut self, line: &str) -> Result<(), Wrong> {
        self.said = String::new(self.alloc);
        let (word, rest) = line.split_once(" ").unwrap_or((line, ""));
        match word {
            "case" | "#" => Ok(()),
            "$" => self.command(rest),
            "run" => self.run(rest),
            "<" => {
                self.input.push_str(with_data(self.alloc, rest)?.as_str())?;
                self.input.push('\n')?;
                Ok(())
            }
            // A last line without an end.
            "<-" => {
                self.input.push_str(rest)?;
                Ok(())
            }
            "look" => {
                let input = replace(&mut self.input, String::new(self.alloc));
                self.look = (String::from_str(self.alloc, rest)?, input);
                Ok(())
            }
            "entry" => self.entry(rest),
            _ => {
                let all = numbers(self.alloc, rest)?;
                self.make(word, all.as_slice())
            }
        }
    }

    // Makes what a line with these numbers says, or answers what it asks.
    fn make(&mut self, word: &str, all: &[u32]) -> Result<(), Wrong> {
        match (word, all) {
            ("make", [moment]) => make(&mut self.f, u64::from(*moment))?,
            ("blocks", [most, nodes, small, middle, large]) => {
                let blocks = [nodes, small, middle, large].map(|count: &u32| u64::from(*count));
                give_blocks(&mut self.f, *most, blocks)?;
            }
            ("map", [addr, key]) => put_index(&mut self.f, *addr, *key)?,
            ("put", [addr, behind, value]) => {
                let (file, place) = place_of(*addr);
                put_words(
                    &mut self.f,
                    file,
                    place.wrapping_add(u64::from(*behind)),
                    &[*value],
                )?;
            }
            ("put", [place, value]) => {
                put_words(&mut self.f, FileId::Index, u64::from(*place), &[*value])?;
            }
            ("limits", [bytes, items]) => match limits(u64::from(*bytes), *items) {
                Some(given) => self.limits = given,
                None => return Err(Wrong {}),
            },
            ("stop", [steps]) => self.stop(u64::from(*steps)),
            ("taking", [take]) => self.taking = u64::from(*take),
            ("failing", [put]) => self.out.fail_at(u64::from(*put))?,
            _ => self.ask(word, all)?,
        }
        Ok(())
    }

    // Answers what a line with these numbers asks.
    fn ask(&mut self, word: &str, all: &[u32]) -> Result<(), Wrong> {
        match (word, all) {
            ("word", [addr, behind]) => {
                let (file, place) = place_of(*addr);
                let word = read_word(&mut self.f, file, place.wrapping_add(u64::from(*behind)))?;
                writeln!(self.said, "{word:#010x}")?;
            }
            ("word", [place]) => {
                let word = read_word(&mut self.f, FileId::Index, u64::from(*place))?;
                writeln!(self.said, "{word:#010x}")?;
            }
            ("length", [addr]) => {
                let (file, _) = place_of(*addr);
                match self.f.length(file)? {
                    Some(length) => writeln!(self.said, "{length} bytes")?,
                    None => writeln!(self.said, "no file")?,
                }
            }
            ("calls", []) => writeln!(self.said, "{} calls", self.calls)?,
            ("most", [most]) => {
                if self.calls > u64::from(*most) {
                    writeln!(self.said, "{} calls", self.calls)?;
                } else {
                    writeln!(self.said, "no more")?;
                }
            }
            ("held", []) => {
                let (items, bytes, _) = self.held()?;
                writeln!(self.said, "{items} items {bytes} bytes")?;
            }
            _ => return Err(Wrong {}),
        }
        Ok(())
    }

    // Adds an entry: its key, the number of its node, its record and flags, and the sizes and addresses of its streams.
    fn entry(&mut self, rest: &str) -> Result<(), Wrong> {
        let (key, rest) = rest.split_once(" ").unwrap_or((rest, ""));
        let all = numbers(self.alloc, rest)?;
        let [number, record, flags, a, b, c, d, e, g] = all.as_slice() else {
            return Err(Wrong {});
        };
        let entry = Entry {
            record: *record,
            key: key.as_bytes(),
            long_key: 0,
            flags: *flags,
            sizes: [*a, *b, *c, 0],
            addrs: [*d, *e, *g, 0],
        };
        add(&mut self.f, *number, &entry)?;
        Ok(())
    }

    // Opens the session, where there is none yet.
    fn open(&mut self) -> Result<(), Wrong> {
        if self.cache.is_none() {
            self.cache = Some(Cache::start(self.alloc, &mut self.f, self.limits, MOMENT)?);
        }
        Ok(())
    }

    /// Lets so many more steps pass.
    pub(crate) fn stop(&mut self, steps: u64) {
        let f = replace(&mut self.f, empty(self.alloc));
        self.f = again(f, steps);
    }

    /// What a line needs before a crash in it is tried: for a command the session.
    pub(crate) fn prepare(&mut self, line: &str) -> Result<(), Wrong> {
        if line.starts_with("$") {
            self.open()?;
        }
        Ok(())
    }

    // Does a command, and answers what it prints, and why it isn't done.
    fn command(&mut self, line: &str) -> Result<(), Wrong> {
        self.open()?;
        let text = with_data(self.alloc, line)?;
        let mut room = Vec::new(self.alloc);
        room.resize(text.len(), 0u8)?;
        let command = read_line(text.as_bytes(), &mut room)?;
        let Some(cache) = &mut self.cache else {
            return Err(Wrong {});
        };
        let start = self.f.calls();
        let answer = cache.step(&mut self.f, &mut self.out, MOMENT, &command);
        self.calls = self.f.calls().wrapping_sub(start);
        self.answer_output()?;
        if let Err(fault) = answer {
            writeln!(self.said, "{fault:?}")?;
        }
        Ok(())
    }

    // Runs with some words over the input, and answers what it prints, and how it ends.
    fn run(&mut self, rest: &str) -> Result<(), Wrong> {
        let mut words = Vec::new(self.alloc);
        for word in rest.split_whitespace() {
            words.push(String::from_str(self.alloc, word)?)?;
        }
        let mut input = MemSource::new(self.alloc, self.input.as_bytes())?;
        input.fail_at(self.taking)?;
        let mut clock = ListClock::new(self.alloc, &[50, 100])?;
        let start = self.f.calls();
        let status = run(
            self.alloc,
            &words,
            &mut input,
            &mut self.out,
            &mut self.f,
            &mut clock,
        );
        self.calls = self.f.calls().wrapping_sub(start);
        self.input = String::new(self.alloc);
        self.taking = 0;
        self.answer_output()?;
        writeln!(self.said, "{status:?}")?;
        Ok(())
    }

    // Answers what was printed.
    fn answer_output(&mut self) -> Result<(), Wrong> {
        let out = replace(&mut self.out, MemSink::new(self.alloc));
        self.said.push_str(std::str::from_utf8(out.written())?)?;
        Ok(())
    }

    // What is held: how many entries, with how many bytes, and the hash of their keys and data in the order of the list.
    fn held(&mut self) -> Result<(u64, u64, u64), Wrong> {
        let scan = audited(self.alloc, &mut self.f)?;
        Ok((scan.items(), scan.bytes(), found(&mut self.f, &scan)?))
    }

    /// Answers what is found, once all steps pass: what the look prints, or what is held where there is none. Gives the hash of the latter.
    pub(crate) fn find(&mut self) -> Result<u64, Wrong> {
        self.said = String::new(self.alloc);
        self.stop(u64::MAX);
        if self.look.0.is_empty() {
            let (items, bytes, hash) = self.held()?;
            writeln!(self.said, "{items} items {bytes} bytes")?;
            return Ok(hash);
        }
        self.input = String::from_str(self.alloc, self.look.1.as_str())?;
        let words = String::from_str(self.alloc, self.look.0.as_str())?;
        self.run(words.as_str())?;
        Ok(0)
    }
}

// A command with so many data bytes 7a in place of a star and a number at its end.
fn with_data(alloc: Global, line: &str) -> Result<String, Wrong> {
    let (front, count) = line.split_once("*").unwrap_or((line, "0"));
    let mut text = String::from_str(alloc, front)?;
    text.push_str(
        "7a".repeat(alloc, usize::from_str_radix(count, 10)?)?
            .as_str(),
    )?;
    Ok(text)
}
