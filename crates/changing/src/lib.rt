// The calls that change the book: enter a cell, withdraw one, set warning days. A tenant is answered whether it is done, or why not.
#![tactic(auto)]

ghost use Rattle.std.specs.Prelude.{◌≡◌};
ghost use Rattle.tenants.specs.Rules.{change_answer};
ghost use Rattle.changing.specs.Changing.{entry, withdrawal, new_days, bytes_after};

use forms::refusals::Refusal;
use layout::{SETTING_SIZE, SETTINGS_PLACE};
use tenants::Held;

pub mod house; // house.rt: enter and withdraw as the house has them, which is also told how many records moved

// Enters a cell, which a branch cannot: a held name is replaced.
pub fn enter(book: &mut [u8], tenant: u32, cell: Held) -> Result<(), Refusal>
    ensures { (result ≡ change_answer (entry book.old tenant cell))
        × (book.new ≡ bytes_after tenant (entry book.old tenant cell) book.old) }
{
    house::enter(book, tenant, cell)?;
    Ok(())
}

// Withdraws a cell, which a branch cannot.
pub fn withdraw(book: &mut [u8], tenant: u32, name: u64) -> Result<(), Refusal>
    ensures { (result ≡ change_answer (withdrawal book.old tenant name))
        × (book.new ≡ bytes_after tenant (withdrawal book.old tenant name) book.old) }
{
    house::withdraw(book, tenant, name)?;
    Ok(())
}

// Sets a tenant's warning days.
#[tactic(auto, unfolding(crate::specs::Changing::new_days, tenants::specs::Rules::setting_days, tenants::specs::Rules::is_tenant))]
pub fn set_days(book: &mut [u8], tenant: u32, days: u32) -> Result<(), Refusal>
    ensures { (result ≡ change_answer (new_days book.old tenant days))
        × (book.new ≡ bytes_after tenant (new_days book.old tenant days) book.old) }
{
    if !judging::is_book(book) {
        return Err(Refusal::Book);
    }
    if 15 < tenant {
        return Err(Refusal::Tenant);
    }
    if !dates::is_days(days) {
        return Err(Refusal::Value);
    }
    let at = SETTINGS_PLACE + SETTING_SIZE * tenant as usize;
    book[at + 2] = days as u8;
    Ok(())
}
