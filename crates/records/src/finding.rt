// The search among a book's records, by halving.
ghost use Rattle.std.specs.Prelude.{◌≡◌, ◌+◌, ◌≤◌, length};
ghost use Rattle.tenants.specs.Together.{cell_in};
ghost use Rattle.layout.specs.Layout.{record_size, used_length, record_place, record_at};
ghost use Rattle.records.specs.Finding.{name_at, place_in, searched};

use judging::Records;
use layout::{RECORD_SIZE, RECORDS_PLACE};
use octets::numbers::{number16, number32, number40, number64};
use tenants::Held;

// Where a cell stands among the records, or where it would go.
#[derive(Clone, Copy)]
pub enum Found {
    At(u32),
    Absent(u32),
}

// The name of record i, without its tenant.
fn name_at(book: &[u8], i: usize) -> u64
    requires { record_place i + record_size ≤ length book.now }
    ensures { result ≡ name_at book.now i }
{
    let at = RECORDS_PLACE + RECORD_SIZE * i;
    number64(&book[at..at + RECORD_SIZE], 1)
}

// Where the search for a name ends: what is left is halved until nothing is. It ends so in any bytes; the library's search promises a place
// only where the records stand in order.
fn place_of(book: &[u8], among: Records, name: u64) -> u32
    requires { used_length among.past ≤ length book.now }
    ensures { result ≡ place_in book.now among.first among.past name }
{
    let mut low = among.first as usize;
    let mut high = among.past as usize;
    while low < high {
        let middle = (low + high) / 2;
        if name_at(book, middle) < name {
            low = middle + 1;
        } else {
            high = middle;
        }
    }
    low as u32
}

// The search among some records: the record at the name's place has that name, or none has.
#[tactic(auto, unfolding(crate::specs::Finding::searched))]
pub fn find(book: &[u8], among: Records, name: u64) -> Found
    ensures { result ≡ searched book.now among.first among.past name }
{
    if book.len() < RECORDS_PLACE + RECORD_SIZE * among.past as usize {
        return Found::Absent(among.first);
    }
    let i = place_of(book, among, name);
    if i < among.past && name_at(book, i as usize) == name {
        return Found::At(i);
    }
    Found::Absent(i)
}

// The cell of record i by its name.
pub fn cell_at(book: &[u8], i: u32) -> Held
    ensures { result ≡ cell_in (record_at book.now i) }
{
    let at = RECORDS_PLACE + RECORD_SIZE * i as usize;
    Held {
        name: number64(book, at + 1),
        edition: number16(book, at + 9) as u32,
        key1: number40(book, at + 11),
        key2: number40(book, at + 16),
        last: number32(book, at + 24),
    }
}
