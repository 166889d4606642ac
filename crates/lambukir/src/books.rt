// The book for C.
ghost use Rattle.std.specs.Prelude.{◌≡◌, length};
ghost use Rattle.forms.specs.Output.{written_of, lent_after};
ghost use Rattle.forms.specs.Refusals.{refusal_number};
ghost use Rattle.tenants.specs.Rules.{change_number};
ghost use Rattle.opening.specs.Opening.{opened};
ghost use Rattle.carrying.specs.Carrying.{carried_over};
ghost use Rattle.changing.specs.Changing.{entry, withdrawal, new_days, bytes_after};
ghost use Rattle.changing.specs.House.{house_answer};
ghost use Rattle.asking.specs.Asking.{edition_in, holding_in, issued_from, checked_by};
ghost use Rattle.lambukir.specs.Permits.{line_read, text_written};
ghost use Rattle.lambukir.specs.Books.{held_of, edition_asked, held_asked, records_moved};

use super::number;
use super::permits::{LineRead, TextWritten};
use asking::Order;
use forms::refusals::Refusal;
use tenants::Held;

// lambukir_edition of the header.
#[repr(C)]
#[derive(Clone, Copy)]
pub struct EditionAsked {
    pub edition: u32,
    pub number: u32,
}

// lambukir_held of the header.
#[repr(C)]
#[derive(Clone, Copy)]
pub struct HeldAsked {
    pub held: u32,
    pub number: u32,
}

// lambukir_moved of the header.
#[repr(C)]
#[derive(Clone, Copy)]
pub struct RecordsMoved {
    pub moved: u32,
    pub number: u32,
}

impl From<Result<u32, Refusal>> for EditionAsked {
    ghost from_gives = { λ answer asked. asked ≡ edition_asked answer };

    fn from(answer: Result<u32, Refusal>) -> EditionAsked {
        match answer {
            Ok(edition) => EditionAsked { edition, number: 0 },
            Err(refusal) => EditionAsked {
                edition: 0,
                number: refusal.number(),
            },
        }
    }
}

impl From<Result<bool, Refusal>> for HeldAsked {
    ghost from_gives = { λ answer asked. asked ≡ held_asked answer };

    fn from(answer: Result<bool, Refusal>) -> HeldAsked {
        match answer {
            Ok(any) => HeldAsked {
                held: u32::from(any),
                number: 0,
            },
            Err(refusal) => HeldAsked {
                held: 0,
                number: refusal.number(),
            },
        }
    }
}

impl From<Result<u32, Refusal>> for RecordsMoved {
    ghost from_gives = { λ answer told. told ≡ records_moved answer };

    fn from(answer: Result<u32, Refusal>) -> RecordsMoved {
        match answer {
            Ok(moved) => RecordsMoved { moved, number: 0 },
            Err(refusal) => RecordsMoved {
                moved: 0,
                number: refusal.number(),
            },
        }
    }
}

#[tactic(auto, using(crate::proofs::DoneOr::number_stays))]
#[unsafe(no_mangle)]
pub extern "C" fn lambukir_open_book(
    book: &mut [u8],
    quotas: &[u16],
    ids: &[u8],
    principals: &[u8],
) -> u32
    ensures { (result ≡ refusal_number (written_of (opened quotas.now ids.now principals.now book.old)))
        × (book.new ≡ lent_after (opened quotas.now ids.now principals.now book.old) book.old) }
{
    number(opening::open_book(book, quotas, ids, principals))
}

#[tactic(auto, using(crate::proofs::DoneOr::number_stays))]
#[unsafe(no_mangle)]
pub extern "C" fn lambukir_carry_over(book: &[u8], new: &mut [u8]) -> u32
    ensures { (result ≡ refusal_number (written_of (carried_over book.now (length new.old))))
        × (new.new ≡ lent_after (carried_over book.now (length new.old)) new.old) }
{
    number(carrying::carry_over(book, new))
}

#[tactic(auto, using(changing::proofs::Numbers::answer_number))]
#[unsafe(no_mangle)]
pub extern "C" fn lambukir_enter(
    book: &mut [u8],
    tenant: u32,
    name: u64,
    edition: u32,
    key1: u64,
    key2: u64,
    last: u32,
) -> u32
    ensures { (result ≡ change_number (entry book.old tenant (held_of name edition key1 key2 last)))
        × (book.new ≡ bytes_after tenant (entry book.old tenant (held_of name edition key1 key2 last)) book.old) }
{
    let cell = Held {
        name,
        edition,
        key1,
        key2,
        last,
    };
    number(changing::enter(book, tenant, cell))
}

#[tactic(auto, using(changing::proofs::Numbers::answer_number))]
#[unsafe(no_mangle)]
pub extern "C" fn lambukir_withdraw(book: &mut [u8], tenant: u32, name: u64) -> u32
    ensures { (result ≡ change_number (withdrawal book.old tenant name))
        × (book.new ≡ bytes_after tenant (withdrawal book.old tenant name) book.old) }
{
    number(changing::withdraw(book, tenant, name))
}

#[tactic(auto, using(changing::proofs::Numbers::answer_number))]
#[unsafe(no_mangle)]
pub extern "C" fn lambukir_set_days(book: &mut [u8], tenant: u32, days: u32) -> u32
    ensures { (result ≡ change_number (new_days book.old tenant days))
        × (book.new ≡ bytes_after tenant (new_days book.old tenant days) book.old) }
{
    number(changing::set_days(book, tenant, days))
}

// C has a name for each answer; both make the cell that they hand on.
#[unsafe(no_mangle)]
pub extern "C" fn lambukir_house_enter(
    book: &mut [u8],
    tenant: u32,
    name: u64,
    edition: u32,
    key1: u64,
    key2: u64,
    last: u32,
) -> RecordsMoved
    ensures { (result ≡ records_moved (house_answer tenant book.old (entry book.old tenant (held_of name edition key1 key2 last))))
        × (book.new ≡ bytes_after tenant (entry book.old tenant (held_of name edition key1 key2 last)) book.old) }
{
    let cell = Held {
        name,
        edition,
        key1,
        key2,
        last,
    };
    changing::house::enter(book, tenant, cell).into()
}

#[unsafe(no_mangle)]
pub extern "C" fn lambukir_house_withdraw(book: &mut [u8], tenant: u32, name: u64) -> RecordsMoved
    ensures { (result ≡ records_moved (house_answer tenant book.old (withdrawal book.old tenant name)))
        × (book.new ≡ bytes_after tenant (withdrawal book.old tenant name) book.old) }
{
    changing::house::withdraw(book, tenant, name).into()
}

#[unsafe(no_mangle)]
pub extern "C" fn lambukir_ask_edition(book: &[u8], tenant: u32, name: u64) -> EditionAsked
    ensures { result ≡ edition_asked (edition_in book.now tenant name) }
{
    asking::ask_edition(book, tenant, name).into()
}

#[unsafe(no_mangle)]
pub extern "C" fn lambukir_ask_producer(book: &[u8], tenant: u32, producer: u32) -> HeldAsked
    ensures { result ≡ held_asked (holding_in book.now tenant producer) }
{
    asking::ask_producer(book, tenant, producer).into()
}

#[unsafe(no_mangle)]
pub extern "C" fn lambukir_issue(
    book: &[u8],
    register: &[u8],
    tenant: u32,
    name: u64,
    expiry: u32,
    level: u32,
    permit: &[u8],
    out: &mut [u8],
) -> TextWritten
    ensures { (result ≡ text_written (written_of (issued_from book.now register.now tenant name expiry level permit.now (length out.old))))
        × (out.new ≡ lent_after (issued_from book.now register.now tenant name expiry level permit.now (length out.old)) out.old) }
{
    let order = Order {
        name,
        expiry,
        level,
    };
    asking::issue(book, register, tenant, order, permit, out).into()
}

#[unsafe(no_mangle)]
pub extern "C" fn lambukir_check(
    book: &[u8],
    tenant: u32,
    hw: u64,
    today: u32,
    line: &[u8],
) -> LineRead
    ensures { result ≡ line_read (checked_by book.now tenant hw today line.now) }
{
    asking::check(book, tenant, hw, today, line).into()
}
