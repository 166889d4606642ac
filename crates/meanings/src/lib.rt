// What a number that comes back means, in a few words, and whether it is success.
#![tactic(auto)]

ghost use Rattle.std.specs.Prelude.{◌≡◌};
ghost use Rattle.spelling.specs.Spelling.{spelled};
ghost use Rattle.meanings.specs.Meanings.{is_success, meaning_of};

use spelling::to_text::spelled;

// Done, or a record or a cell: each other number is a refusal.
#[tactic(auto, unfolding(crate::specs::Meanings::is_success))]
pub fn is_success(number: u32) -> bool
    ensures { result ≡ is_success number }
{
    matches!(number, 0 | 15 | 20 | 27)
}

// A number's row.
#[tactic(auto, unfolding(crate::specs::Meanings::meaning_by))]
fn words(number: u32) -> &'static [u8]
    ensures { result.now ≡ meaning_of number }
{
    match number {
        0 => b"done",
        11 => b"no line in the ENC part of the file",
        12 => b"wrong shape of line, row, header, place or cell file",
        13 => b"the check part is wrong for this HW_ID",
        14 => b"today is no date",
        15 => b"the permit has expired",
        16 => b"the CRC of the cell file is wrong",
        17 => b"the CRC of the user permit is wrong",
        18 => b"the HW_ID is not of its form",
        20 => b"the permit expires soon",
        21 => b"wrong padding, of a key or of a cell file",
        27 => b"the ship is behind the product list",
        101 => b"the book is damaged or of wrong length",
        102 => b"the tenant is above 15",
        103 => b"a value is not of its form or range",
        104 => b"the tenant does not hold that cell",
        105 => b"the quota is used",
        106 => b"the user permit is not 28 of 0-9 A-F a-f",
        107 => b"the M_ID is not in the register",
        108 => b"the output is too short, or not of a book's length",
        109 => b"the register is damaged",
        110 => b"a cell has two rows in the product list",
        111 => b"a branch cannot enter or withdraw",
        112 => b"the expiry is later than the cell's last expiry",
        _ => b"a number that no call gives",
    }
}

// What a number means.
pub fn meaning(number: u32) -> [u8; 64]
    ensures { result ≡ spelled (meaning_of number) }
{
    spelled(words(number))
}
