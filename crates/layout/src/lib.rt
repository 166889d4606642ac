// The book's bytes: what they say.
#![tactic(auto)]

ghost use Rattle.std.specs.Prelude.{◌≡◌, ◌-◌, ◌/◌, ◌<◌};
ghost use Rattle.octets.specs.Places.{number_at};
ghost use Rattle.layout.specs.Layout.{one, records_place, record_count_by, record_count, setting_at, list_in};

use octets::numbers::{number16, number32};
use tenants::Setting;
use text::reading::byte_at;

// How many bytes a book has: one of version 2, which the calls read and write.
pub const BOOK_SIZE: usize = 14437;

// How many a version 1 book has, which is carried over.
pub const OLD_BOOK_SIZE: usize = 12389;

// How many bytes a setting has.
pub const SETTING_SIZE: usize = 6;

// How many bytes a record has.
pub const RECORD_SIZE: usize = 28;

// How many one of version 1 has.
pub const OLD_RECORD_SIZE: usize = 24;

// Where the settings begin.
pub const SETTINGS_PLACE: usize = 5;

// Where the records begin.
pub const RECORDS_PLACE: usize = 101;

// How many records there are at most; the quotas sum to no more.
pub const MOST_RECORDS: usize = 512;

// How many records of a size the used length tells.
fn counted(book: &[u8], size: usize) -> usize
    requires { 0 < size }
    ensures { result ≡ (number_at 4 book.now 1 - records_place) / size }
{
    (number32(book, 1) as usize).saturating_sub(RECORDS_PLACE) / size
}

// How many records there are.
#[tactic(auto, unfolding(crate::specs::Layout::record_count_by))]
pub fn count(book: &[u8]) -> usize
    ensures { result ≡ record_count book.now }
{
    counted(book, RECORD_SIZE)
}

// How many there are in a version 1 book. Two functions and not one over a size: it would have to be required not to be 0, and a public function requires nothing.
#[tactic(auto, unfolding(crate::specs::Layout::record_count_by))]
pub fn old_count(book: &[u8]) -> usize
    ensures { result ≡ record_count_by one book.now }
{
    counted(book, OLD_RECORD_SIZE)
}

// The setting of a tenant.
#[tactic(auto, using(crate::proofs::Told::byte_number), unfolding(crate::specs::Layout::setting_at))]
pub fn setting_of(book: &[u8], t: u32) -> Setting
    ensures { result ≡ setting_at book.now t }
{
    let at = SETTINGS_PLACE + SETTING_SIZE * t as usize;
    Setting {
        quota: number16(book, at) as u32,
        days: byte_at(book, at + 2) as u32,
        server: number16(book, at + 3) as u32,
        principal: byte_at(book, at + 5) as u32,
    }
}

// The tenant whose list a tenant reads: its principal where it is a branch, and else itself.
pub fn list_of(book: &[u8], t: u32) -> u32
    ensures { result ≡ list_in book.now t }
{
    if 15 < t {
        return t;
    }
    let principal = byte_at(book, SETTINGS_PLACE + SETTING_SIZE * t as usize + 5) as u32;
    if principal == 0 { t } else { principal - 1 }
}
