// The walk through a book's records for a producer: whether one of them is of it.
#![tactic(auto)]

ghost use Rattle.std.specs.Prelude.{◌≡◌, ◌+◌, ◌-◌, ◌≤◌, length};
ghost use Rattle.layout.specs.Layout.{record_size, used_length, record_place};
ghost use Rattle.walking.specs.Walking.{producer_at, walked, any_among};

use judging::Records;
use layout::{RECORD_SIZE, RECORDS_PLACE};
use octets::numbers::number64;

// The producer of record i: the first two characters of its name.
fn producer_at(book: &[u8], i: usize) -> u32
    requires { record_place i + record_size ≤ length book.now }
    ensures { result ≡ producer_at book.now i }
{
    let at = RECORDS_PLACE + RECORD_SIZE * i;
    (number64(&book[at..at + RECORD_SIZE], 1) / 0x1_0000_0000_0000) as u32
}

// The walk, which stops at the first record that is later in order than any of the producer, or at the first of these.
#[tactic(auto, using(crate::proofs::Stops::left_none, crate::proofs::Stops::left_later, crate::proofs::Stops::left_there, crate::proofs::Stops::left_next))]
fn walk(book: &[u8], among: Records, producer: u32) -> bool
    requires { used_length among.past ≤ length book.now }
    ensures { result ≡ walked book.now producer among.first (among.past - among.first) }
{
    for i in among.first..among.past {
        let here = producer_at(book, i as usize);
        if producer < here {
            return false;
        }
        if here == producer {
            return true;
        }
    }
    false
}

// Whether one of some records, which stand in order, is of a producer.
#[tactic(auto, unfolding(crate::specs::Walking::any_among))]
pub fn any_among(book: &[u8], among: Records, producer: u32) -> bool
    ensures { result ≡ any_among book.now among.first among.past producer }
{
    RECORDS_PLACE + RECORD_SIZE * among.past as usize <= book.len() && walk(book, among, producer)
}
