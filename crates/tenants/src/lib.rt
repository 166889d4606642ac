// What the rules for a tenant's own list of cells are about.
#![tactic(auto)]

ghost use Rattle.std.specs.Prelude.{◌≡◌};
ghost use Rattle.tenants.specs.Rules.{is_last};

// A cell as a tenant holds it; the last is its last expiry, which is the latest that a line of it may have: 0 for none.
#[derive(Clone, Copy)]
pub struct Held {
    pub name: u64,
    pub edition: u32,
    pub key1: u64,
    pub key2: u64,
    pub last: u32,
}

// What is set for a tenant: how many cells it may hold, its warning days, its Data Server ID, and its principal, whose cells it reads: 0 for none, otherwise the
// principal's number plus one.
#[derive(Clone, Copy)]
pub struct Setting {
    pub quota: u32,
    pub days: u32,
    pub server: u32,
    pub principal: u32,
}

// Whether a number is a last expiry: 0 for none, or a date.
#[tactic(auto, unfolding(crate::specs::Rules::is_last))]
pub fn is_last(last: u32) -> bool
    ensures { result ≡ is_last last }
{
    last == 0 || dates::is_date(last)
}
