// Enter and withdraw as the house has them: the tenant's answer, and how many records moved. That goes by other tenants' records, so it is for the
// operator alone.
ghost use Rattle.std.specs.Prelude.{◌≡◌, true, ◌≤◌, length};
ghost use Rattle.tenants.specs.Rules.{is_held, names_none};
ghost use Rattle.layout.specs.Layout.{is_book, own_in};
ghost use Rattle.records.specs.Finding.{searched_for};
ghost use Rattle.records.specs.declared.finding.Found.TheVariants.{Absent};
ghost use Rattle.changing.specs.Changing.{admitted, entry, withdrawal, bytes_after};
ghost use Rattle.changing.specs.House.{house_answer};

use forms::refusals::Refusal;
use judging::Records;
use records::finding::Found;
use tenants::Held;

// Whether a cell's name, edition, keys and last expiry are in their ranges and alphabets.
#[tactic(auto, unfolding(tenants::specs::Rules::is_held))]
fn is_held(cell: Held) -> bool
    ensures { result ≡ is_held cell }
{
    forms::identifiers::is_cell_name(cell.name)
        && (1 <= cell.edition && cell.edition <= 999)
        && cell.key1 <= 0xFF_FFFF_FFFF
        && cell.key2 <= 0xFF_FFFF_FFFF
        && tenants::is_last(cell.last)
}

// What enter and withdraw are refused with before the cells are asked for, or else where the records stand that the tenant reads.
#[tactic(auto, using(judging::proofs::Judgements::judged_damaged, layout::proofs::Indexed::own_setting), unfolding(crate::specs::Changing::admitted, judging::specs::Starts::judged_under, tenants::specs::Rules::is_tenant, tenants::specs::Rules::names_none))]
fn admitted(book: &[u8], tenant: u32, fits: bool) -> Result<Records, Refusal>
    ensures { result ≡ admitted book.now tenant fits }
{
    let Some(records) = judging::judge(book, tenant) else {
        return Err(Refusal::Book);
    };
    if 15 < tenant {
        return Err(Refusal::Tenant);
    }
    let branch = layout::setting_of(book, tenant).principal != 0;
    if !fits {
        return Err(Refusal::Value);
    }
    if branch {
        return Err(Refusal::Branch);
    }
    Ok(records)
}

// Enters a cell with a new name, which would go to place i: the quota of its tenant, which holds so many cells, decides.
fn enter_new(book: &mut [u8], i: u32, held: u32, tenant: u32, cell: Held) -> Result<u32, Refusal>
    requires book_value { is_book book.old ≡ true }
    requires tenant_bound { (tenant ≤ 15) × ((is_held cell ≡ true) × (names_none (own_in book.old tenant).setting ≡ true)) }
    requires name_value { searched_for book.old tenant cell.name ≡ Absent i }
    requires held_value { held ≡ length (own_in book.old tenant).cells }
    ensures { (result ≡ house_answer tenant book.old (entry book.old tenant cell))
        × (book.new ≡ bytes_after tenant (entry book.old tenant cell) book.old) }
{
    let quota = layout::setting_of(book, tenant).quota;
    if held < quota {
        records::moving::insert_record(book, i, tenant, cell);
        let has = layout::count(book) as u32;
        let after = has - 1 - i;
        return Ok(after);
    }
    Err(Refusal::Quota)
}

// Enters a cell, which a branch cannot: a held name is replaced.
pub fn enter(book: &mut [u8], tenant: u32, cell: Held) -> Result<u32, Refusal>
    ensures { (result ≡ house_answer tenant book.old (entry book.old tenant cell))
        × (book.new ≡ bytes_after tenant (entry book.old tenant cell) book.old) }
{
    let own = admitted(book, tenant, is_held(cell))?;
    match records::finding::find(book, own, cell.name) {
        Found::At(i) => {
            records::moving::put_record(book, i, tenant, cell);
            Ok(0)
        }
        Found::Absent(i) => enter_new(book, i, own.past - own.first, tenant, cell),
    }
}

// Withdraws a cell, which a branch cannot.
pub fn withdraw(book: &mut [u8], tenant: u32, name: u64) -> Result<u32, Refusal>
    ensures { (result ≡ house_answer tenant book.old (withdrawal book.old tenant name))
        × (book.new ≡ bytes_after tenant (withdrawal book.old tenant name) book.old) }
{
    let own = admitted(book, tenant, forms::identifiers::is_cell_name(name))?;
    let Found::At(i) = records::finding::find(book, own, name) else {
        return Err(Refusal::NotHeld);
    };
    // counted with it, as after entering
    let had = layout::count(book) as u32;
    let after = had - 1 - i;
    records::moving::remove_record(book, i);
    Ok(after)
}
