// Records moved, written and taken out: the bytes that change.
ghost use Rattle.std.specs.Prelude.{◌≡◌, ◌++◌, ◌+◌, ◌≤◌, length};
ghost use Rattle.octets.specs.Numbers.{bytes_of};
ghost use Rattle.text.specs.Texts.{placed};
ghost use Rattle.tenants.specs.Together.{full_name, in_book};
ghost use Rattle.layout.specs.Layout.{record_size, zeros, record_bytes};
ghost use Rattle.records.specs.Moves.{moved_up, first_removed, used_put, record_put, record_inserted, record_removed};

use layout::{RECORD_SIZE, RECORDS_PLACE};
use tenants::Held;

// Moves the first n bytes up by a record's size: a gap opens before them.
fn open_gap(part: &mut [u8], n: usize)
    requires { n + record_size ≤ length part.old }
    ensures { part.new ≡ moved_up record_size n part.old }
{
    part.copy_within(..n, RECORD_SIZE);
}

// Takes the first record out: the n bytes after it move down, and the room that falls free is zero.
fn close_gap(part: &mut [u8], n: usize)
    requires { n + record_size ≤ length part.old }
    ensures { part.new ≡ first_removed record_size n part.old }
{
    part.copy_within(RECORD_SIZE..RECORD_SIZE + n, 0);
    part[n..n + RECORD_SIZE].fill(0);
}

// Writes the full name: the tenant in one byte, and the name.
fn put_full_name(book: &mut [u8], at: usize, tenant: u32, name: u64)
    requires { at + 9 ≤ length book.old }
    ensures { book.new ≡ placed at (bytes_of 9 (full_name tenant name)) book.old }
{
    let first = [(tenant % 256) as u8];
    let rest = octets::numbers::bytes64(name);
    text::writing::put_text(book, at, &first);
    text::writing::put_text(book, at + 1, &rest);
}

// Writes a cell's two keys, three zeros and its last expiry, which fill up a record.
fn put_keys(book: &mut [u8], at: usize, cell: Held)
    requires { at + 17 ≤ length book.old }
    ensures { book.new ≡ placed at (bytes_of 5 cell.key1 ++ (bytes_of 5 cell.key2 ++ (zeros 3 ++ bytes_of 4 cell.last))) book.old }
{
    let one = octets::numbers::bytes40(cell.key1);
    let two = octets::numbers::bytes40(cell.key2);
    let spare = [0u8; 3];
    let ending = octets::numbers::bytes32(cell.last);
    text::writing::put_text(book, at, &one);
    text::writing::put_text(book, at + 5, &two);
    text::writing::put_text(book, at + 10, &spare);
    text::writing::put_text(book, at + 13, &ending);
}

// Writes the fields of a tenant's cell, one after the other.
fn put_fields(book: &mut [u8], at: usize, tenant: u32, cell: Held)
    requires { at + record_size ≤ length book.old }
    ensures { book.new ≡ placed at (record_bytes (in_book tenant cell)) book.old }
{
    let edition = octets::numbers::bytes16((cell.edition % 65536) as u16);
    put_full_name(book, at, tenant, cell.name);
    text::writing::put_text(book, at + 9, &edition);
    put_keys(book, at + 11, cell);
}

// Writes a tenant's cell as record i.
pub fn put_record(book: &mut [u8], i: u32, tenant: u32, cell: Held)
    ensures { book.new ≡ record_put i (in_book tenant cell) book.old }
{
    let at = RECORDS_PLACE + RECORD_SIZE * i as usize;
    if octets::numbers::lies_within(book, at, RECORD_SIZE) {
        put_fields(book, at, tenant, cell);
    }
}

// Writes a used length.
fn put_used(book: &mut [u8], used: usize)
    ensures { book.new ≡ used_put used book.old }
{
    let bytes = octets::numbers::bytes32((used % 4294967296) as u32);
    text::writing::put_text(book, 1, &bytes);
}

// Puts a tenant's cell in as record i.
pub fn insert_record(book: &mut [u8], i: u32, tenant: u32, cell: Held)
    ensures { book.new ≡ record_inserted i (in_book tenant cell) book.old }
{
    let n = layout::count(book);
    let used = RECORDS_PLACE + RECORD_SIZE * n;
    if i as usize <= n && used + RECORD_SIZE <= book.len() {
        let at = RECORDS_PLACE + RECORD_SIZE * i as usize;
        open_gap(&mut book[at..], used - at);
        put_record(book, i, tenant, cell);
        put_used(book, used + RECORD_SIZE);
    }
}

// Takes record i out.
pub fn remove_record(book: &mut [u8], i: u32)
    ensures { book.new ≡ record_removed i book.old }
{
    let n = layout::count(book);
    let used = RECORDS_PLACE + RECORD_SIZE * n;
    if (i as usize) < n && used <= book.len() {
        let at = RECORDS_PLACE + RECORD_SIZE * i as usize;
        close_gap(&mut book[at..], used - RECORD_SIZE - at);
        put_used(book, used - RECORD_SIZE);
    }
}
