// Whether addresses share a block or an external number.
ghost use Rattle.std.specs.Prelude.{◌≡◌, ◌≢◌, ◌+◌, ◌&&◌, IsTrue, nat_lt};
ghost use Rattle.std.specs.List.{list_any};
ghost use Rattle.spec_format.specs.Address.{block_count, external, first_block, is_address, kind_of};
ghost use Rattle.spec_format.specs.Claims.{claims_of, claims_of_all, overlap, repeats};

use crate::{Addr, FileId};

// Whether two of these addresses share a block or a number.
pub(crate) fn any_meet(addrs: &[Addr]) -> bool
    ensures { result ≡ repeats (claims_of_all addrs.now) }
{
    let mut left = addrs;
    while let [addr, others @ ..] = left {
        if meets_one_of(*addr, others) {
            return true;
        }
        left = others;
    }
    false
}

// Whether an address shares a block or a number with one of these.
fn meets_one_of(addr: Addr, others: &[Addr]) -> bool
    ensures test { result ≡ list_any (λ other. overlap (claims_of other) (claims_of addr)) others.now }
    ensures address { IsTrue (is_address addr) }
{
    // Reading it tells the prover that the word is one of an address.
    let _word = addr.word();
    others.iter().any(|other| meet(addr, *other))
}

// Whether two addresses share a block or a number.
fn meet(addr: Addr, other: Addr) -> bool
    ensures { result ≡ overlap (claims_of other) (claims_of addr) }
{
    // Reading them tells the prover that the words are those of addresses.
    let _words = (addr.word(), other.word());
    match (addr.file(), other.file()) {
        (FileId::External(number), FileId::External(of_other)) => number == of_other,
        (FileId::Block(file), FileId::Block(of_other)) => {
            file == of_other && runs_meet(addr, other)
        }
        _ => false,
    }
}

// Whether the runs of blocks of two addresses have a number in common.
#[tactic(auto, using(std::proofs::lemmas::Bool::Decides::nat_tests))]
fn runs_meet(addr: Addr, other: Addr) -> bool
    requires one { kind_of addr ≢ external }
    requires both { kind_of other ≢ external }
    ensures { result ≡ (nat_lt (first_block addr) (first_block other + block_count other) && nat_lt (first_block other) (first_block addr + block_count addr)) }
{
    addr.start() < end_of(other) && other.start() < end_of(addr)
}

// The number after the last block of an address.
#[tactic(auto, using(std::proofs::lemmas::Bool::Decides::nat_tests), unfolding(spec_format::specs::Address::first_block, spec_format::specs::Address::block_count))]
fn end_of(addr: Addr) -> u32
    requires { kind_of addr ≢ external }
    ensures { result ≡ first_block addr + block_count addr }
{
    addr.start() + addr.blocks()
}
