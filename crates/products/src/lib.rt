// The product list, PRODUCTS.TXT: how a ship's cell stands against it.
#![tactic(auto)]

ghost use Rattle.std.specs.Prelude.{◌≡◌};
ghost use Rattle.product_names.specs.Repeats.{repeats};
ghost use Rattle.products.specs.Answers.{is_ships, is_behind, standing_by, names_of, standing_of, standing_number, standing_code};
ghost use Rattle.products.specs.Reading.{rises_from, rows_from};

use forms::refusals::Refusal;
use product_row::Row;
use standings::Standing;

mod header; // header.rt: the header's four lines
mod rows; // rows.rt: the rows, one after the other
pub mod standings; // standings.rt: how a cell stands

// Whether what a ship gave is a cell name, an edition and an update.
#[tactic(auto, unfolding(crate::specs::Answers::is_ships))]
fn is_ships(name: u64, edition: u32, update: u32) -> bool
    ensures { result ≡ is_ships name edition update }
{
    forms::identifiers::is_cell_name(name) && 1 <= edition && edition <= 999 && update <= 999
}

// Whether a lower edition, or a lower update of the same edition, is on board.
#[tactic(auto, unfolding(crate::specs::Answers::is_behind))]
fn is_behind(edition: u32, update: u32, row: Row) -> bool
    ensures { result ≡ is_behind edition update row }
{
    edition < row.edition || edition == row.edition && update < row.update
}

// The standing by a cell's own row, where the list has one.
#[tactic(auto, using(crate::proofs::ByRow::not_listed, crate::proofs::ByRow::cancelled, crate::proofs::ByRow::behind, crate::proofs::ByRow::up_to_date))]
fn standing_by(own: Option<Row>, edition: u32, update: u32) -> Standing
    ensures { result ≡ standing_by own edition update }
{
    let Some(row) = own else {
        return Standing::NotListed;
    };
    if row.edition == 0 {
        return Standing::Cancelled;
    }
    if is_behind(edition, update, row) {
        return Standing::Behind;
    }
    Standing::UpToDate
}

// Whether a name stands twice among the rows. In name order none does; in another order they are looked for.
#[tactic(auto, using(crate::proofs::InOrder::none_repeats, crate::proofs::Answered::names_same))]
fn is_repeated(list: &[u8], first: usize, rising: bool) -> bool
    requires { rising ≡ rises_from 0 (names_of (rows_from list.now first)) }
    ensures { result ≡ repeats (names_of (rows_from list.now first)) }
{
    !rising && product_names::repeated(list, first)
}

// How a ship's cell stands against a list, or the refusal.
pub fn standing(list: &[u8], name: u64, edition: u32, update: u32) -> Result<Standing, Refusal>
    ensures { result ≡ standing_of list.now name edition update }
{
    if !is_ships(name, edition, update) {
        return Err(Refusal::Value);
    }
    let first = header::rows_begin(list).ok_or(Refusal::Shape)?;
    let rows = rows::read(list, first, name).ok_or(Refusal::Shape)?;
    if is_repeated(list, first, rows.rising) {
        return Err(Refusal::TwoRows);
    }
    Ok(standing_by(rows.own, edition, update))
}

// The number of an answer: 27 for a cell that is behind, 0 for the other standings, and a refusal's own.
pub fn standing_number(answer: Result<Standing, Refusal>) -> u32
    ensures { result ≡ standing_number answer }
{
    match answer {
        Ok(Standing::Behind) => 27,
        Ok(_) => 0,
        Err(refusal) => refusal.number(),
    }
}

// The code of its standing: 0 up to date, 1 behind, 2 cancelled, 3 not listed; 0 at a refusal.
pub fn standing_code(answer: Result<Standing, Refusal>) -> u32
    ensures { result ≡ standing_code answer }
{
    match answer {
        Ok(standing) => standing as u32,
        Err(_) => 0,
    }
}
