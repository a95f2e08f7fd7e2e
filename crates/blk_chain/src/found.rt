// What is found in a chain.
use blk_addr::Addr;

/// A record of a chain, and the record before it in the chain; the first of a chain has none.
#[derive(Clone, Copy, Debug)]
pub struct Found {
    pub entry: Addr,
    pub before: Option<Addr>,
}
