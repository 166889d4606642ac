// Carrying over: a version 1 book's settings and cells, written as a version 2 book.
#![tactic(auto)]

ghost use Rattle.std.specs.Prelude.{◌≡◌, true, ◌++◌, ◌+◌, ◌≤◌, length};
ghost use Rattle.text.specs.Texts.{placed};
ghost use Rattle.forms.specs.Output.{written_of, lent_after};
ghost use Rattle.forms.specs.Refusals.{done_or};
ghost use Rattle.layout.specs.Layout.{one, record_size_by, records_place, record_size, book_size, zeros};
ghost use Rattle.carrying.specs.Carrying.{carried_over};
ghost use Rattle.judging.specs.Judging.{form_test};
ghost use Rattle.carrying.specs.OldForm.{wider_records, wider};

use forms::refusals::Refusal;
use layout::{BOOK_SIZE, OLD_RECORD_SIZE, RECORD_SIZE, RECORDS_PLACE, SETTINGS_PLACE, old_count};
use text::writing::put_text;

// Writes a version 1 record, and no last expiry.
fn put_record(new: &mut [u8], at: usize, part: &[u8])
    requires { (length part.now ≡ record_size_by one) × (at + record_size ≤ length new.old) }
    ensures { new.new ≡ placed at (part.now ++ zeros 4) new.old }
{
    let none = [0u8; 4];
    put_text(new, at, part);
    put_text(new, at + OLD_RECORD_SIZE, &none);
}

// Writes the records of a version 1 book, each with no last expiry.
fn put_records(new: &mut [u8], book: &[u8])
    requires { (form_test one book.now ≡ true) × (length new.old ≡ book_size) }
    ensures { new.new ≡ placed records_place (wider_records book.now) new.old }
{
    for i in 0..old_count(book) {
        let at = RECORDS_PLACE + OLD_RECORD_SIZE * i;
        put_record(
            new,
            RECORDS_PLACE + RECORD_SIZE * i,
            &book[at..at + OLD_RECORD_SIZE],
        );
    }
}

// Writes a version 1 book, on zeros, as a version 2 book.
fn put_book(new: &mut [u8], book: &[u8])
    requires { (form_test one book.now ≡ true) × (new.old ≡ zeros book_size) }
    ensures { new.new ≡ wider book.now }
{
    let version = [2u8];
    let used = octets::numbers::bytes32((RECORDS_PLACE + RECORD_SIZE * old_count(book)) as u32);
    put_text(new, 0, &version);
    put_text(new, 1, &used);
    put_text(new, SETTINGS_PLACE, &book[SETTINGS_PLACE..RECORDS_PLACE]);
    put_records(new, book);
}

// Carries a version 1 book over into a second buffer, with no last expiry: 101 where it is damaged, then 108 for another length than a book's. It is written beside
// the buffer first, and judged there, so that a refusal leaves the buffer as it was.
pub fn carry_over(book: &[u8], new: &mut [u8]) -> Result<(), Refusal>
    ensures { (result ≡ done_or (written_of (carried_over book.now (length new.old))))
        × (new.new ≡ lent_after (carried_over book.now (length new.old)) new.old) }
{
    if !judging::has_old_form(book) {
        return Err(Refusal::Book);
    }
    let mut carried = [0u8; BOOK_SIZE];
    put_book(&mut carried, book);
    if !judging::is_book(&carried) {
        return Err(Refusal::Book);
    }
    if new.len() != BOOK_SIZE {
        return Err(Refusal::Room);
    }
    put_text(new, 0, &carried);
    Ok(())
}
