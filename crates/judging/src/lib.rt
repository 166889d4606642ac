// Judging a book: whether its bytes are undamaged, and where the records stand that a tenant reads.
#![tactic(auto)]

ghost use Rattle.std.specs.Prelude.{◌≡◌, true, cond, ◌-◌, ◌/◌, ◌%◌, ◌≤◌, ◌<◌, leb, length};
ghost use Rattle.octets.specs.Every.{all_of};
ghost use Rattle.tenants.specs.Rules.{is_last};
ghost use Rattle.layout.specs.Layout.{Version, one, version_byte, record_size_by, book_size_by, record_count_by, records_place, record_size, book_size, is_book};
ghost use Rattle.judging.specs.Starts.{judged_under, judged};
ghost use Rattle.judging.specs.Judging.{is_zero, setting_test, settings_test, principal_test, principals_test, form_test, frame_test, cell_test, spare_of, last_known, part_from, parts_from, up_to16};

use forms::identifiers::{is_cell_name, is_server_id};
use layout::{
    BOOK_SIZE, MOST_RECORDS, OLD_BOOK_SIZE, OLD_RECORD_SIZE, RECORD_SIZE, RECORDS_PLACE,
    SETTING_SIZE, SETTINGS_PLACE, count, list_of, old_count,
};
use octets::numbers::{number16, number32, number64};
use tenants::is_last;
use text::reading::byte_at;

// From which record on, and up to which, those stand that a tenant reads.
#[derive(Clone, Copy)]
pub struct Records {
    pub first: u32,
    pub past: u32,
}

// Whether all bytes are zero; without leaving early, so that the compiler takes many at a time.
pub fn is_zero(s: &[u8]) -> bool
    ensures { result ≡ all_of is_zero s.now }
{
    let mut all: u8 = 0;
    for b in s {
        all |= *b;
    }
    all == 0
}

// Whether the bytes of a setting are right.
#[tactic(auto, unfolding(crate::specs::Judging::setting_test))]
fn is_setting(part: &[u8]) -> bool
    ensures { result ≡ setting_test part.now }
{
    dates::is_days(byte_at(part, 2) as u32) && is_server_id(number16(part, 3) as u32)
}

// Whether the sixteen settings are right, and their quotas sum to at most 512.
fn are_settings(book: &[u8]) -> bool
    requires { records_place ≤ length book.now }
    ensures { result ≡ settings_test book.now }
{
    let mut sum: u32 = 0;
    for t in 0..16usize {
        let at = SETTINGS_PLACE + SETTING_SIZE * t;
        let part = &book[at..at + SETTING_SIZE];
        if !is_setting(part) {
            return false;
        }
        sum += number16(part, 0) as u32;
    }
    sum <= 512
}

// Whether tenant t may name the principal that it names: none; or a tenant that names none itself, so not t, and then t's quota is 0. Opening asks the same of what
// it is given: one function over how a setting is read would be longer than the two.
// That t is below 16 its one caller's range says: a type for such a number would be made of it there and taken apart here, which is no plainer.
fn is_principal(book: &[u8], t: usize) -> bool
    requires { t < 16 }
    ensures { result ≡ principal_test book.now t }
{
    let at = SETTINGS_PLACE + SETTING_SIZE * t;
    let principal = byte_at(book, at + 5) as usize;
    if principal == 0 {
        return true;
    }
    if 16 < principal {
        return false;
    }
    if number16(book, at) != 0 {
        return false;
    }
    byte_at(book, SETTINGS_PLACE + SETTING_SIZE * (principal - 1) + 5) == 0
}

// Whether each of the sixteen tenants may.
fn are_principals(book: &[u8]) -> bool
    ensures { result ≡ principals_test book.now }
{
    (0..16).all(|t| is_principal(book, t))
}

// Whether the bytes have the form of a book of a version, whose used length tells n records: length, version, used length, and zeros past it.
fn has_form(book: &[u8], version: u8, size: usize, record_size: usize, n: usize) -> bool
    ghost v: { Version }
    requires { (version ≡ version_byte v) × (size ≡ book_size_by v) × (record_size ≡ record_size_by v) × (n ≡ record_count_by v book.now) }
    ensures { result ≡ form_test v book.now }
{
    if book.len() != size {
        return false;
    }
    if book[0] != version {
        return false;
    }
    if MOST_RECORDS < n {
        return false;
    }
    let used = RECORDS_PLACE + record_size * n;
    if number32(book, 1) as usize != used {
        return false;
    }
    is_zero(&book[used..])
}

// Whether all but the records is right: the form, settings and principals.
#[tactic(auto, unfolding(crate::specs::Judging::frame_test))]
fn is_frame(book: &[u8]) -> bool
    ensures { result ≡ frame_test book.now }
{
    has_form(book, 2, BOOK_SIZE, RECORD_SIZE, count(book))
        && are_settings(book)
        && are_principals(book)
}

// Whether the bytes have the form of a version 1 book.
pub fn has_old_form(book: &[u8]) -> bool
    ensures { result ≡ form_test one book.now }
{
    has_form(book, 1, OLD_BOOK_SIZE, OLD_RECORD_SIZE, old_count(book))
}

// Whether the bytes of a record's cell are right, after the record of this name. A last expiry that was just judged is not judged again.
#[tactic(auto, unfolding(crate::specs::Judging::cell_test))]
fn is_cell(part: &[u8], name: u64, known: u32) -> bool
    requires { is_last known ≡ true }
    ensures { result ≡ cell_test part.now name }
{
    let cell = number64(part, 1);
    let edition = number16(part, 9);
    let last = number32(part, 24);
    name < cell
        && is_cell_name(cell)
        && (1 <= edition && edition <= 999)
        && (last == known || is_last(last))
}

// The last expiry that needs no judging after this one: the one before where this is none.
fn last_known(last: u32, known: u32) -> u32
    ensures { result ≡ last_known last known }
{
    if last == 0 { known } else { last }
}

// The four bytes before a record's last expiry, the last first, so that one load takes them as they lie.
#[tactic(auto, unfolding(crate::specs::Judging::spare_of))]
fn spare_of(part: &[u8]) -> u32
    ensures { result ≡ spare_of part.now }
{
    byte_at(part, 20) as u32
        + byte_at(part, 21) as u32 * 256
        + byte_at(part, 22) as u32 * 65536
        + byte_at(part, 23) as u32 * 16777216
}

// Where a part ends, with the spare bytes of its records taken together: nowhere where these are not all zero.
fn ended(at: usize, spare: u32) -> Option<usize>
    ensures { result ≡ cond (leb spare 255) (Some at) None }
{
    if 255 < spare { None } else { Some(at) }
}

// Where tenant t's part ends: a record either is t's, and then its name is above the one before, or ends the part. None where something in it is wrong.
fn part_from(book: &[u8], t: u8, first: usize, used: usize) -> Option<usize>
    requires { (first ≤ used) × (used ≤ length book.now) × ((used - first) % record_size ≡ 0) }
    ensures { result ≡ part_from book.now t 0 first ((used - first) / record_size) }
{
    let mut name: u64 = 0;
    let mut spare: u32 = 0;
    let mut known: u32 = 0;
    let mut at = first;
    // A place goes along, since a for over the records' numbers is slower: a full book is judged in 4.28 us and not in 4.10.
    while at < used {
        let part = &book[at..at + RECORD_SIZE];
        if byte_at(part, 0) != t {
            return ended(at, spare);
        }
        if !is_cell(part, name, known) {
            return None;
        }
        name = number64(part, 1);
        spare |= spare_of(part);
        known = last_known(number32(part, 24), known);
        at += RECORD_SIZE;
    }
    ended(at, spare)
}

// Where the parts of the tenants from one up to another end; each is held to its tenant's quota where it ends. None where something in them is wrong.
fn parts_from(book: &[u8], from: u32, to: u32, first: usize, used: usize) -> Option<usize>
    requires from_le_to { (from ≤ to) × (to ≤ 16) }
    requires first_le_used { (first ≤ used) × (used ≤ length book.now) × ((used - first) % record_size ≡ 0) }
    ensures { result ≡ parts_from book.now used from first (to - from) }
{
    let mut at = first;
    for t in from..to {
        let end = part_from(book, t as u8, at, used)?;
        let quota = number16(book, SETTINGS_PLACE + SETTING_SIZE * t as usize) as usize;
        if RECORD_SIZE * quota < end - at {
            return None;
        }
        at = end;
    }
    Some(at)
}

// A tenant's number, or 16.
#[tactic(auto, unfolding(crate::specs::Judging::up_to16))]
fn up_to_16(t: u32) -> u32
    ensures { result ≡ up_to16 t }
{
    t.min(16)
}

// The record that begins at a place.
fn record_at(place: usize) -> u32
    requires { (records_place ≤ place) × (place ≤ book_size) }
    ensures { result ≡ (place - records_place) / record_size }
{
    ((place - RECORDS_PLACE) / RECORD_SIZE) as u32
}

// Judges a book, and tells where the records under a tenant's number stand in it: after the parts of those below, and before those of the others. None of a damaged one.
fn judge_under(book: &[u8], tenant: u32) -> Option<Records>
    ensures { result ≡ judged_under book.now tenant }
{
    if !is_frame(book) {
        return None;
    }
    let used = number32(book, 1) as usize;
    let own = up_to_16(tenant);
    let next = up_to_16(own + 1);
    let first = parts_from(book, 0, own, RECORDS_PLACE, used)?;
    let past = parts_from(book, own, next, first, used)?;
    let end = parts_from(book, next, 16, past, used)?;
    if end != used {
        return None;
    }
    Some(Records {
        first: record_at(first),
        past: record_at(past),
    })
}

// Judges a book, and tells where the records stand that a tenant reads: its principal's where it is a branch, and else its own. None of a damaged one.
pub fn judge(book: &[u8], tenant: u32) -> Option<Records>
    ensures { result ≡ judged book.now tenant }
{
    judge_under(book, list_of(book, tenant))
}

// Whether the bytes are an undamaged book.
#[tactic(auto, unfolding(crate::specs::Starts::judged_under))]
pub fn is_book(book: &[u8]) -> bool
    ensures { result ≡ is_book book.now }
{
    judge_under(book, 0).is_some()
}
