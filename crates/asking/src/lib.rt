// The tenant calls that leave the book as it is: ask the edition, ask for a producer, issue a line, check a line.
#![tactic(auto)]

ghost use Rattle.std.specs.Prelude.{◌≡◌, ◌&&◌, ◌≤◌, leb, length, Some};
ghost use Rattle.dates.specs.Calendar.{is_date};
ghost use Rattle.forms.specs.Identifiers.{is_cell_name};
ghost use Rattle.forms.specs.Output.{written_of, lent_after};
ghost use Rattle.tenants.specs.Cells.{cell_of};
ghost use Rattle.tenants.specs.Rules.{in_time};
ghost use Rattle.layout.specs.Layout.{own_in};
ghost use Rattle.judging.specs.Starts.{judged};
ghost use Rattle.records.specs.Finding.{searched};
ghost use Rattle.asking.specs.Issuing.{found_cell, line_written};
ghost use Rattle.asking.specs.Asking.{edition_in, holding_in, issued_from, checked_by};

use cell_permit::{Cell, Record};
use forms::identifiers::{is_cell_name, is_producer};
use forms::refusals::Refusal;
use judging::Records;
use records::finding::{Found, cell_at, find};
use tenants::Held;
use walking::any_among;

// The cell of a name among some records, if it is there.
fn held(book: &[u8], among: Records, name: u64) -> Option<Held>
    ensures { result ≡ found_cell book.now (searched book.now among.first among.past name) }
{
    let Found::At(i) = find(book, among, name) else {
        return None;
    };
    Some(cell_at(book, i))
}

// The edition of a cell that a tenant holds.
#[tactic(auto, unfolding(crate::specs::Asking::edition_in, tenants::specs::Rules::asking, tenants::specs::Rules::is_tenant, judging::specs::Starts::judged_under))]
pub fn ask_edition(book: &[u8], tenant: u32, name: u64) -> Result<u32, Refusal>
    ensures { result ≡ edition_in book.now tenant name }
{
    let Some(own) = judging::judge(book, tenant) else {
        return Err(Refusal::Book);
    };
    if 15 < tenant {
        return Err(Refusal::Tenant);
    }
    if !is_cell_name(name) {
        return Err(Refusal::Value);
    }
    let cell = held(book, own, name).ok_or(Refusal::NotHeld)?;
    Ok(cell.edition)
}

// Whether a tenant holds any cell whose name begins with a producer's two characters.
#[tactic(auto, unfolding(crate::specs::Asking::holding_in, tenants::specs::Rules::asking_producer, tenants::specs::Rules::is_tenant, judging::specs::Starts::judged_under))]
pub fn ask_producer(book: &[u8], tenant: u32, producer: u32) -> Result<bool, Refusal>
    ensures { result ≡ holding_in book.now tenant producer }
{
    let Some(own) = judging::judge(book, tenant) else {
        return Err(Refusal::Book);
    };
    if 15 < tenant {
        return Err(Refusal::Tenant);
    }
    if !is_producer(producer) {
        return Err(Refusal::Value);
    }
    Ok(any_among(book, own, producer))
}

// What a line is ordered by, beside the ship: a cell's name, an expiry and a service level.
#[derive(Clone, Copy)]
pub struct Order {
    pub name: u64,
    pub expiry: u32,
    pub level: u32,
}

impl Order {
    // Whether all three are in their ranges and alphabets.
    fn is_given(self) -> bool
        ensures { result ≡ (is_cell_name self.name && is_date self.expiry && leb self.level 1) }
    {
        is_cell_name(self.name) && dates::is_date(self.expiry) && self.level <= 1
    }
}

// Whether a cell may be sold for an expiry: it has no last one, or this is not later.
#[tactic(auto, unfolding(tenants::specs::Rules::in_time))]
fn in_time(cell: Held, expiry: u32) -> bool
    ensures { result ≡ in_time cell expiry }
{
    cell.last == 0 || expiry <= cell.last
}

// The line of a tenant's cell, where its own records stand, for the ship of an HW_ID.
fn issue_for(
    book: &[u8],
    own: Records,
    tenant: u32,
    order: Order,
    hw: u64,
    out: &mut [u8],
) -> Result<usize, Refusal>
    requires { (judged book.now tenant ≡ Some own) × (tenant ≤ 15) }
    ensures { (result ≡ written_of (line_written hw (cell_of order.name (own_in book.now tenant).cells)
        (own_in book.now tenant).setting order.expiry order.level (length out.old)))
        × (out.new ≡ lent_after (line_written hw (cell_of order.name (own_in book.now tenant).cells)
        (own_in book.now tenant).setting order.expiry order.level (length out.old)) out.old) }
{
    let held = held(book, own, order.name).ok_or(Refusal::NotHeld)?;
    if !in_time(held, order.expiry) {
        return Err(Refusal::Expiry);
    }
    let cell = Cell {
        name: held.name,
        key1: held.key1,
        key2: held.key2,
        expiry: order.expiry,
        level: order.level,
        edition: held.edition,
        server: layout::setting_of(book, tenant).server,
    };
    writing_line::write_line(hw, cell, out)
}

// Issues a line: that of a cell which the tenant holds, for the ship of a user permit, at the output's start.
#[tactic(auto, unfolding(crate::specs::Asking::issued_from, tenants::specs::Rules::issuing, tenants::specs::Rules::is_tenant, judging::specs::Starts::judged_under))]
pub fn issue(
    book: &[u8],
    register: &[u8],
    tenant: u32,
    order: Order,
    permit: &[u8],
    out: &mut [u8],
) -> Result<usize, Refusal>
    ensures { (result ≡ written_of (issued_from book.now register.now tenant order.name order.expiry order.level
        permit.now (length out.old)))
        × (out.new ≡ lent_after (issued_from book.now register.now tenant order.name order.expiry order.level
        permit.now (length out.old)) out.old) }
{
    let Some(own) = judging::judge(book, tenant) else {
        return Err(Refusal::Book);
    };
    if !user_permit::register::is_register(register) {
        return Err(Refusal::Register);
    }
    if 15 < tenant {
        return Err(Refusal::Tenant);
    }
    if out.len() < 76 {
        return Err(Refusal::Room);
    }
    if !order.is_given() {
        return Err(Refusal::Value);
    }
    let ship = user_permit::read_by(register, permit)?;
    issue_for(book, own, tenant, order, ship.hw_id, out)
}

// Checks a line, given without CR LF, with the tenant's own warning days.
#[tactic(auto, unfolding(crate::specs::Asking::checked_by, tenants::specs::Rules::checking, tenants::specs::Rules::is_tenant))]
pub fn check(book: &[u8], tenant: u32, hw: u64, today: u32, line: &[u8]) -> Result<Record, Refusal>
    ensures { result ≡ checked_by book.now tenant hw today line.now }
{
    if !judging::is_book(book) {
        return Err(Refusal::Book);
    }
    if 15 < tenant {
        return Err(Refusal::Tenant);
    }
    let setting = layout::setting_of(book, tenant);
    cell_permit::read_line(hw, today, setting.days, line)
}
