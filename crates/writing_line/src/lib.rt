// A line written: a cell permit with its service level, edition, Data Server ID and an empty comment, and CR LF.
#![tactic(auto)]

ghost use Rattle.std.specs.Prelude.{◌≡◌, true, [], ◌∷◌, ◌++◌, ◌+◌, ◌≤◌, length};
ghost use Rattle.octets.specs.Numbers.{bytes_of};
ghost use Rattle.text.specs.Characters.{decimal_text};
ghost use Rattle.text.specs.Texts.{placed, width};
ghost use Rattle.forms.specs.Output.{written_of, lent_after};
ghost use Rattle.cell_permit.specs.CellPermit.{key_part, unchecked, cell_permit, comma, fields, line_of, line_end, is_cell, written_line};

use cell_permit::Cell;
use forms::refusals::Refusal;

// Whether each value is in its range and alphabet, and the expiry is a date.
#[tactic(auto, unfolding(cell_permit::specs::CellPermit::is_cell))]
pub fn is_cell(cell: Cell) -> bool
    ensures { result ≡ is_cell cell }
{
    forms::identifiers::is_cell_name(cell.name)
        && dates::is_date(cell.expiry)
        && cell.key1 <= 0xFF_FFFF_FFFF
        && cell.key2 <= 0xFF_FFFF_FFFF
        && cell.level <= 1
        && 1 <= cell.edition
        && cell.edition <= 999
        && forms::identifiers::is_server_id(cell.server)
}

// A cell key, padded and enciphered.
#[tactic(auto, unfolding(cell_permit::specs::CellPermit::key_part))]
fn put_key(words: &[u32; 1042], key: u64, out: &mut [u8], at: usize)
    ensures { out.new ≡ placed at (key_part words.now key) out.old }
{
    let block = blowfish::encipher(words, octets::padding::pad40(key));
    text::writing::put_hex(out, at, 16, block);
}

// Cell name, expiry and both keys.
fn put_unchecked(words: &[u32; 1042], cell: Cell, out: &mut [u8; 76])
    ensures { out.new ≡ placed 0 (unchecked words.now cell) out.old }
{
    let name = octets::numbers::bytes64(cell.name);
    text::writing::put_text(out, 0, &name);
    text::writing::put_decimal(out, 8, 8, cell.expiry as u64);
    put_key(words, cell.key1, out, 16);
    put_key(words, cell.key2, out, 32);
}

// The cell permit: its check is that of the 48 characters before it.
fn put_permit(words: &[u32; 1042], cell: Cell, out: &mut [u8; 76])
    ensures { out.new ≡ placed 0 (cell_permit words.now cell) out.old }
{
    put_unchecked(words, cell, out);
    let check = cell_permit::check_of(words, &out[..48]);
    text::writing::put_hex(out, 48, 16, check);
}

// A comma and n digits.
fn put_number(out: &mut [u8], at: usize, n: usize, x: u32)
    requires { at + (1 + n) ≤ length out.old }
    ensures { out.new ≡ placed at (comma ∷ decimal_text n x) out.old }
{
    out[at] = b',';
    text::writing::put_decimal(out, at + 1, n, x as u64);
}

// The Data Server ID between commas.
#[tactic(auto, unfolding(octets::specs::Numbers::digits))]
fn put_server(out: &mut [u8], at: usize, server: u32)
    ensures { out.new ≡ placed at ((comma ∷ bytes_of 2 server) ++ (comma ∷ [])) out.old }
{
    let b = octets::numbers::bytes32(server);
    text::writing::put_text(out, at, &[b',', b[2], b[3], b',']);
}

// Service level, edition, Data Server ID and an empty comment; the edition has n digits.
fn put_fields(cell: Cell, n: usize, out: &mut [u8; 76])
    requires { (n ≡ width cell.edition) × (n ≤ 3) }
    ensures { out.new ≡ placed 64 (fields cell) out.old }
{
    put_number(out, 64, 1, cell.level);
    put_number(out, 66, n, cell.edition);
    put_server(out, 67 + n, cell.server);
}

// The line with its CR LF; gives its length.
fn put_line(words: &[u32; 1042], cell: Cell, out: &mut [u8; 76]) -> usize
    requires { is_cell cell ≡ true }
    ensures { (result ≡ length (line_of words.now cell ++ line_end)) × (out.new ≡ placed 0 (line_of words.now cell ++ line_end) out.old) }
{
    let n = text::writing::width(cell.edition as u64);
    put_permit(words, cell, out);
    put_fields(cell, n, out);
    text::writing::put_text(out, 71 + n, b"\r\n");
    73 + n
}

// Writes the line of a cell for a ship: 108 where out has less than 76 bytes, 103 for a value out of its range or alphabet, 18 for a wrong HW_ID.
#[tactic(auto, unfolding(cell_permit::specs::CellPermit::written_line))]
pub fn write_line(hw: u64, cell: Cell, out: &mut [u8]) -> Result<usize, Refusal>
    ensures { (result ≡ written_of (written_line hw cell (length out.old))) × (out.new ≡ lent_after (written_line hw cell (length out.old)) out.old) }
{
    let Some(room) = out.first_chunk_mut::<76>() else {
        return Err(Refusal::Room);
    };
    if !is_cell(cell) {
        return Err(Refusal::Value);
    }
    if !forms::identifiers::is_hw_id(hw) {
        return Err(Refusal::HwId);
    }
    let mut words = [0u32; 1042];
    cell_permit::ship_words(hw, &mut words);
    Ok(put_line(&words, cell, room))
}
