// A mailed permit file mended: the whole file, and the whole list of what was wrong with it.
#![tactic(auto)]

ghost use Rattle.std.specs.Prelude.{◌≡◌, true, ◌<◌, ◌^◌, Some, length};
ghost use Rattle.mending.specs.Mending.{mended_of, is_mended, mending};
ghost use Rattle.mending.specs.Answers.{answer_of, file_lent, list_lent};
ghost use Rattle.mending.specs.Program.{printing, refusal_printed};
ghost use Rattle.mending.specs.Walking.{header_ends, fits, sizes_of, SurelyFits};

use forms::refusals::Refusal;
use header::Ends;

mod header; // header.rt: the first three lines
mod walking; // walking.rt: the lines after them

// How long the mended file and the list are.
#[derive(Clone, Copy)]
pub struct Lengths {
    pub file: usize,
    pub list: usize,
}

// Whether a file of so many bytes surely fits, whatever is in it (the laws file_room_lem and list_room_lem): then nothing need be measured.
fn surely_fits(size: usize, room: Lengths) -> bool
    requires { size < 2 ^ 63 }
    ensures { result ≡ true → SurelyFits size room }
{
    size <= 100000 && 11 * size <= room.list && size + size / 72 + 9 <= room.file
}

// Whether a file with a good header fits in the outputs' room.
// That e has the ends of this file's texts stands in two contracts here, as in header.rt, and for its reason: a type for both would hold a reference to the file.
fn has_room(file: &[u8], e: Ends, room: Lengths) -> bool
    requires file_value { header_ends file.now ≡ Some e }
    requires file_value_2 { (is_mended file.now ≡ true) × ((room.file < 2 ^ 63) × (room.list < 2 ^ 63)) }
    ensures { result ≡ fits (sizes_of (mended_of file.now)) room }
{
    if surely_fits(file.len(), room) {
        return true;
    }
    walking::measure(file, e.third + 1, header::header_sizes(file, e), room).is_ok()
}

// Mends a file by its first three lines; nothing is written where it does not fit.
fn mend_headed(file: &[u8], e: Ends, out: &mut [u8], list: &mut [u8]) -> Result<Lengths, Refusal>
    requires { header_ends file.now ≡ Some e }
    ensures { (result ≡ answer_of (mending file.now (length out.old) (length list.old)))
        × ((out.new ≡ file_lent (mending file.now (length out.old) (length list.old)) out.old)
        × (list.new ≡ list_lent (mending file.now (length out.old) (length list.old)) list.old)) }
{
    if !header::is_good(file, e) {
        return Err(Refusal::Shape);
    }
    let room = Lengths {
        file: out.len(),
        list: list.len(),
    };
    if !has_room(file, e, room) {
        return Err(Refusal::Room);
    }
    let at = header::put_header(file, e, out, list);
    walking::walk(file, e.third + 1, out, list, at, room)
}

// Mends a file: the mended file and the list stand at their outputs' starts, and it answers how long they are; or the refusal, with nothing written.
pub fn mend(file: &[u8], out: &mut [u8], list: &mut [u8]) -> Result<Lengths, Refusal>
    ensures { (result ≡ answer_of (mending file.now (length out.old) (length list.old)))
        × ((out.new ≡ file_lent (mending file.now (length out.old) (length list.old)) out.old)
        × (list.new ≡ list_lent (mending file.now (length out.old) (length list.old)) list.old)) }
{
    let Some(e) = header::header_ends(file) else {
        return Err(Refusal::Shape);
    };
    mend_headed(file, e, out, list)
}

// Puts a refusal in words into the list.
fn put_refusal(list: &mut [u8], words: &[u8]) -> Result<Lengths, Refusal>
    ensures { (result ≡ answer_of (refusal_printed words.now (length list.old)))
        × (list.new ≡ list_lent (refusal_printed words.now (length list.old)) list.old) }
{
    if list.len() < words.len() {
        return Err(Refusal::Room);
    }
    text::writing::put_text(list, 0, words);
    Ok(Lengths {
        file: 0,
        list: words.len(),
    })
}

// What the program mend prints for an input: the mended file, and the list or the refusal in words.
pub fn print(input: &[u8], out: &mut [u8], list: &mut [u8]) -> Result<Lengths, Refusal>
    ensures { (result ≡ answer_of (printing input.now (length out.old) (length list.old)))
        × ((out.new ≡ file_lent (printing input.now (length out.old) (length list.old)) out.old)
        × (list.new ≡ list_lent (printing input.now (length out.old) (length list.old)) list.old)) }
{
    if 65536 < input.len() {
        return put_refusal(list, b"refused 103\n");
    }
    match mend(input, out, list) {
        Ok(size) => Ok(size),
        Err(Refusal::Shape) => put_refusal(list, b"refused 12\n"),
        Err(refusal) => Err(refusal),
    }
}
