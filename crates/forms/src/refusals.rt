// Why a call is refused: a case for each number of the rules.
ghost use Rattle.std.specs.Prelude.{◌≡◌};
ghost use Rattle.forms.specs.Refusals.{number_of};

// The refusals, with the rules' numbers. The rules, the header and the crate meanings say each in words.
#[derive(Clone, Copy, Debug, PartialEq, Eq)]
pub enum Refusal {
    NoLine = 11,
    Shape = 12,
    Check = 13,
    Today = 14,
    FileCrc = 16,
    PermitCrc = 17,
    HwId = 18,
    Padding = 21,
    Book = 101,
    Tenant = 102,
    Value = 103,
    NotHeld = 104,
    Quota = 105,
    UserPermit = 106,
    MId = 107,
    Room = 108,
    Register = 109,
    TwoRows = 110,
    Branch = 111,
    Expiry = 112,
}

impl Refusal {
    // The number of the rules.
    pub fn number(self) -> u32
        ensures { result ≡ number_of self }
    {
        self as u32
    }
}
