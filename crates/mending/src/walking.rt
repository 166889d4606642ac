// The texts after the header, mended one after the other.
ghost use Rattle.std.specs.Prelude.{◌≡◌, [], ◌+◌, ◌≤◌, ◌<◌, ◌^◌, IfSome, length};
ghost use Rattle.text.specs.Texts.{placed};
ghost use Rattle.file_lines.specs.Texts.{text_ends};
ghost use Rattle.mended_lines.specs.Giving.{given, out_after, list_after};
ghost use Rattle.mending.specs.Walking.{gives_at, CleanAt, Cleans, Turnable, Turned, later_of, fits, answered, size_after, Walkable};

use super::Lengths;
use forms::refusals::Refusal;
use mended_lines::{Given, Places};

// How far the mending has come: the place in the file, the count of the line that begins there, the bytes of both outputs,
// and whether lines are still looked at: a flag, since the bytes of both are needed after the last line too.
#[derive(Clone, Copy)]
pub(crate) struct Going {
    pub place: usize,
    pub count: u64,
    pub file: usize,
    pub list: usize,
    pub more: bool,
}

// Puts what the text at a place gives, which ends at end.
fn give(
    file: &[u8],
    place: usize,
    end: usize,
    count: u64,
    out: &mut [u8],
    list: &mut [u8],
    at: Places,
) -> Given
    requires place_in_bounds { (place ≤ length file.now) × (end ≡ text_ends file.now place) }
    requires count_bound { count + 1 < 2 ^ 64 }
    ensures { (result ≡ given (gives_at file.now place count))
        × ((out.new ≡ out_after (gives_at file.now place count) at out.old)
        × (list.new ≡ list_after (gives_at file.now place count) at list.old)) }
{
    if end == file.len() {
        return mended_lines::put_unended(&file[place..], count, count + 1, out, list, at);
    }
    mended_lines::put_ended(&file[place..end], &file[end + 1..], count, out, list, at)
}

// One text, whatever it is.
fn turn_any(file: &[u8], out: &mut [u8], list: &mut [u8], t: Going) -> Going
    requires { Turnable file.now t out.old list.old }
    ensures { Turned file.now t result out.old list.old out.new list.new }
{
    let at = Places {
        file: t.file,
        list: t.list,
    };
    let end = file_lines::texts::text_ends(file, t.place);
    let g = give(file, t.place, end, t.count, out, list, at);
    Going {
        place: end + 1,
        count: t.count + 1,
        file: t.file + g.file,
        list: t.list + g.list,
        more: g.more,
    }
}

// How long the record is, with its CR LF, that stands at a place and needs no mending; none where there is none, or it has a comment.
fn clean_length(file: &[u8], place: usize) -> Option<usize>
    requires { place ≤ length file.now }
    ensures { IfSome result (λ n. CleanAt file.now place n) }
{
    let n = line_shape::plain_length(&file[place..])?;
    let end = place + n;
    if file.len() - end < 2 {
        return None;
    }
    if file[end] != b'\r' || file[end + 1] != b'\n' || file[end - 1] == b' ' {
        return None;
    }
    if line_shape::is_line(&file[place..end]) {
        Some(n + 2)
    } else {
        None
    }
}

// Records that need no mending, one after the other: how many there are, and where they end.
#[derive(Clone, Copy)]
struct Run {
    lines: u64,
    end: usize,
}

// Finds those that stand at a place.
fn clean_run(file: &[u8], place: usize) -> Run
    requires { (place ≤ length file.now) × (length file.now < 2 ^ 63) }
    ensures { (result.end ≤ length file.now) × Cleans file.now place result.lines result.end }
{
    let mut lines = 0;
    let mut end = place;
    while let Some(n) = clean_length(file, end) {
        lines += 1;
        end += n;
    }
    Run { lines, end }
}

// One text, or as many records that need no mending as stand there, which are copied as they stand.
fn turn(file: &[u8], out: &mut [u8], list: &mut [u8], t: Going) -> Going
    requires { Turnable file.now t out.old list.old }
    ensures { Turned file.now t result out.old list.old out.new list.new }
{
    let place = t.place;
    let run = clean_run(file, place);
    let end = run.end;
    if run.lines == 0 {
        return turn_any(file, out, list, t);
    }
    text::writing::put_text(out, t.file, &file[place..end]);
    Going {
        place: end,
        count: t.count + run.lines,
        file: t.file + (end - place),
        list: t.list,
        more: true,
    }
}

// Whether both are no longer than their room.
#[tactic(auto, unfolding(crate::specs::Walking::fits))]
fn fits(size: Lengths, room: Lengths) -> bool
    ensures { result ≡ fits size room }
{
    size.file <= room.file && size.list <= room.list
}

// Puts what every text from a place on gives, after what the header gave; answers how long both are then, or Room where that is more than their room.
pub(crate) fn walk(
    file: &[u8],
    place: usize,
    out: &mut [u8],
    list: &mut [u8],
    at: Places,
    room: Lengths,
) -> Result<Lengths, Refusal>
    requires { Walkable file.now place at room out.old list.old }
    ensures { (result ≡ answered room (size_after at (later_of file.now place)))
        × ((out.new ≡ placed at.file (later_of file.now place).file out.old)
        × (list.new ≡ placed at.list (later_of file.now place).list list.old)) }
{
    let mut t = Going {
        place,
        count: 4,
        file: at.file,
        list: at.list,
        more: true,
    };
    'turns: loop {
        let size = Lengths {
            file: t.file,
            list: t.list,
        };
        if !fits(size, room) {
            return Err(Refusal::Room);
        }
        if !t.more {
            return Ok(size);
        }
        t = turn(file, out, list, t);
    }
}

// The same without outputs.
pub(crate) fn measure(
    file: &[u8],
    place: usize,
    at: Places,
    room: Lengths,
) -> Result<Lengths, Refusal>
    requires { Walkable file.now place at room [] [] }
    ensures { result ≡ answered room (size_after at (later_of file.now place)) }
{
    let mut no_file = [0u8; 0];
    let mut no_list = [0u8; 0];
    walk(file, place, &mut no_file, &mut no_list, at, room)
}
