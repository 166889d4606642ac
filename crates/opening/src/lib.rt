// Opening: an empty book from sixteen quotas, Data Server IDs and principals.
#![tactic(auto)]

ghost use Rattle.std.specs.Prelude.{◌≡◌, ◌<◌, ◌≤◌, length, sum, MatchOption};
ghost use Rattle.text.specs.Texts.{placed};
ghost use Rattle.forms.specs.Output.{written_of, lent_after};
ghost use Rattle.forms.specs.Refusals.{done_or};
ghost use Rattle.tenants.specs.Together.{is_principal, are_principals};
ghost use Rattle.layout.specs.Layout.{settings_place, setting_bytes, all_bytes, book_size, book_bytes, zeros};
ghost use Rattle.opening.specs.Opening.{first_setting, first_settings, empty_book, are_given, opened};

use forms::refusals::Refusal;
use layout::{BOOK_SIZE, SETTING_SIZE, SETTINGS_PLACE};
use tenants::Setting;
use text::characters::Alphabet;

// The bytes of a setting, put at a place.
fn put_setting(book: &mut [u8], at: usize, setting: Setting)
    ensures { book.new ≡ placed at (setting_bytes setting) book.old }
{
    let bytes = [
        (setting.quota / 256 % 256) as u8,
        (setting.quota % 256) as u8,
        (setting.days % 256) as u8,
        (setting.server / 256 % 256) as u8,
        (setting.server % 256) as u8,
        (setting.principal % 256) as u8,
    ];
    text::writing::put_text(book, at, &bytes);
}

// The sum of quotas.
fn quota_sum(quotas: &[u16]) -> u32
    requires { length quotas.now ≤ 16 }
    ensures { result ≡ sum quotas.now }
{
    quotas.iter().map(|quota| *quota as u32).sum()
}

// What is given at opening: for each of the sixteen tenants its quota, the two characters of its Data Server ID, and its principal. By value, so that the types
// say how many there are.
#[derive(Clone, Copy)]
struct Given {
    quotas: [u16; 16],
    ids: [u8; 32],
    principals: [u8; 16],
}

// What is given, where it has these lengths.
fn sized(quotas: &[u16], ids: &[u8], principals: &[u8]) -> Option<Given>
    ensures { MatchOption result
        ((length quotas.now ≡ 16) × (length ids.now ≡ 32) × (length principals.now ≡ 16) → ⊥)
        (λ given. (given.quotas ≡ quotas.now) × (given.ids ≡ ids.now) × (given.principals ≡ principals.now)) }
{
    Some(Given {
        quotas: quotas.try_into().ok()?,
        ids: ids.try_into().ok()?,
        principals: principals.try_into().ok()?,
    })
}

impl Given {
    // The setting of tenant t at opening.
    // That t is below 16 its callers' ranges and tests say: a type for such a number would be made of it there and taken apart here, which is no plainer.
    fn setting(&self, t: usize) -> Setting
        requires { t < 16 }
        ensures { result ≡ first_setting self.now.quotas self.now.ids self.now.principals t }
    {
        Setting {
            quota: self.quotas[t] as u32,
            days: 30,
            server: octets::numbers::number16(&self.ids, 2 * t) as u32,
            principal: self.principals[t] as u32,
        }
    }

    // Whether tenant t may name the principal that it is given: none; or a tenant that names none itself, so not t, and then t's quota is 0.
    fn is_principal(&self, t: usize) -> bool
        requires { t < 16 }
        ensures { result ≡ is_principal (first_settings self.now.quotas self.now.ids self.now.principals) t
            (first_setting self.now.quotas self.now.ids self.now.principals t) }
    {
        let setting = self.setting(t);
        if setting.principal == 0 {
            return true;
        }
        if 16 < setting.principal {
            return false;
        }
        if setting.quota != 0 {
            return false;
        }
        let principal = (setting.principal - 1) as usize;
        self.setting(principal).principal == 0
    }

    // Whether each of the sixteen tenants may.
    fn are_principals(&self) -> bool
        ensures { result ≡ are_principals (first_settings self.now.quotas self.now.ids self.now.principals) 0
            (first_settings self.now.quotas self.now.ids self.now.principals) }
    {
        (0..16).all(|t| self.is_principal(t))
    }

    // Whether the quotas sum to at most 512, the IDs are of characters A-Z 0-9, and the principals may be named.
    fn is_good(&self) -> bool
        ensures { result ≡ are_given self.now.quotas self.now.ids self.now.principals }
    {
        quota_sum(&self.quotas) <= 512
            && text::reading::all_of(Alphabet::Name, &self.ids, 0, 32)
            && self.are_principals()
    }

    // The sixteen settings.
    fn put_settings(&self, book: &mut [u8])
        requires { length book.old ≡ book_size }
        ensures { book.new ≡ placed settings_place
            (all_bytes setting_bytes (first_settings self.now.quotas self.now.ids self.now.principals)) book.old }
    {
        for t in 0..16usize {
            put_setting(book, SETTINGS_PLACE + SETTING_SIZE * t, self.setting(t));
        }
    }

    // The book with these settings and no cell: version 2, used length 101, the settings, and zeros.
    fn put_empty(&self, book: &mut [u8])
        requires { length book.old ≡ book_size }
        ensures { book.new ≡ book_bytes (empty_book self.now.quotas self.now.ids self.now.principals) }
    {
        book.fill(0);
        let start = [2u8, 0, 0, 0, 101];
        text::writing::put_text(book, 0, &start);
        self.put_settings(book);
    }
}

// Writes an empty book of sixteen quotas, Data Server IDs and principals, warning days 30: 101 for another length than a book's, 103 where these are not good.
pub fn open_book(
    book: &mut [u8],
    quotas: &[u16],
    ids: &[u8],
    principals: &[u8],
) -> Result<(), Refusal>
    ensures { (result ≡ done_or (written_of (opened quotas.now ids.now principals.now book.old)))
        × (book.new ≡ lent_after (opened quotas.now ids.now principals.now book.old) book.old) }
{
    if book.len() != BOOK_SIZE {
        return Err(Refusal::Book);
    }
    let Some(given) = sized(quotas, ids, principals) else {
        return Err(Refusal::Value);
    };
    if !given.is_good() {
        return Err(Refusal::Value);
    }
    given.put_empty(book);
    Ok(())
}
