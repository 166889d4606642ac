// The rows of PRODUCTS.TXT, read to the end of the ENC part.
ghost use Rattle.std.specs.Prelude.{◌≡◌};
ghost use Rattle.products.specs.Reading.{first_of, own_if, rows_read};

use file_lines::LineFound;
use product_row::Row;

// What reading all rows gives: the cell's own row, where the list has one, and whether the rows are in name order.
#[derive(Clone, Copy)]
pub(crate) struct Rows {
    pub(crate) own: Option<Row>,
    pub(crate) rising: bool,
}

// The row that was found, or this one where it has the name.
fn found(own: Option<Row>, row: Row, name: u64) -> Option<Row>
    ensures { result ≡ first_of own (own_if name row) }
{
    if own.is_none() && row.name == name {
        return Some(row);
    }
    own
}

// Reads every row from a place on, those after the asked one too; None where one is wrong, or the part is not closed. No `for`: a line ends where it is found to end.
pub(crate) fn read(list: &[u8], first: usize, name: u64) -> Option<Rows>
    ensures { result ≡ rows_read list.now first name }
{
    let mut at = first;
    let mut last: u64 = 0;
    let mut rising = true;
    let mut own = None;
    while at < list.len() {
        match file_lines::line_at(list, at) {
            LineFound::Line(end) => {
                let row = product_row::read_row(&list[at..end])?;
                rising = rising & (last < row.name);
                last = row.name;
                own = found(own, row, name);
                at = end + 2;
            }
            LineFound::Unended => return None,
            LineFound::End => break,
        }
    }
    Some(Rows { own, rising })
}
