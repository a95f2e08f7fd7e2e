// What records own: the addresses of their blocks and external files.
ghost use Rattle.std.specs.Prelude.{◌≡◌, ◌<◌, ◌≤◌, ◌+◌, ◌++◌, [], ◌∷◌, length};

use crate::loading::Loaded;
use blk_addr::Addr;

// The most addresses of a record: of its node, of itself, of its long key and of four streams.
const MOST_OWNED: usize = 7;

// The addresses that a record owns.
#[derive(Clone, Copy)]
pub(crate) struct Owned {
    addrs: [Addr; MOST_OWNED],
    count: usize,
    ghost places: { length addrs ≡ 7 },
    ghost few: { count ≤ 7 },
}

impl Owned {
    ghost use Rattle.blk_verdict.specs.Kept.{addresses_of};
    ghost use Rattle.blk_verdict.specs.Owning.{addresses_owned, most_owned};

    // None; the places of the array are filled by this address.
    fn none(blank: Addr) -> Owned
        ensures none { addresses_owned result ≡ [] }
        ensures count { result.count ≡ 0 }
    {
        Owned {
            addrs: [blank; MOST_OWNED],
            count: 0,
        }
    }

    // The addresses that a record owns: of its node, of itself, of its long key and of its streams.
    pub(crate) fn of(loaded: &Loaded) -> Owned
        ensures { addresses_owned result ≡ addresses_of loaded.now }
    {
        let words = owned_words(loaded);
        let mut owned = Owned::none(loaded.node);
        for i in 0..words.len() {
            if let Some(addr) = Addr::from_word(words[i]) {
                owned.add(addr);
            }
        }
        owned
    }

    // The addresses, in a row.
    pub(crate) fn as_slice(&self) -> &[Addr]
        ensures { result.now ≡ addresses_owned self.now }
    {
        &self.addrs[..self.count]
    }

    // Adds an address.
    fn add(&mut self, addr: Addr)
        requires { self.old.count < most_owned }
        ensures added { addresses_owned self.new ≡ addresses_owned self.old ++ addr ∷ [] }
        ensures count { self.new.count ≡ self.old.count + 1 }
    {
        let place = self.count;
        self.addrs[place] = addr;
        self.count = place + 1;
    }
}

// The words that name what a record owns; those that are no address name nothing.
fn owned_words(loaded: &Loaded) -> [u32; MOST_OWNED]
    ensures { result ≡ loaded.now.node ∷ loaded.now.entry ∷ loaded.now.long_key ∷ loaded.now.addrs }
{
    [
        loaded.node.word(),
        loaded.entry.word(),
        loaded.long_key,
        loaded.addrs[0],
        loaded.addrs[1],
        loaded.addrs[2],
        loaded.addrs[3],
    ]
}
