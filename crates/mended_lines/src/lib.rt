// What each line of a mailed permit file gives: its part of the mended file and its part of the list, each put at a place of its output.
// Each function answers how many bytes both have, whether or not they lie within their outputs: so empty outputs measure them.
// C lends the two outputs one by one, and a contract names each: so they stay two arguments, and their places a third.
#![tactic(auto)]

ghost use Rattle.std.specs.Prelude.{◌≡◌, ◌++◌, length};
ghost use Rattle.text.specs.Texts.{placed};
ghost use Rattle.mailed_lines.specs.Mailed.{line_of, unblanked, fate_of};
ghost use Rattle.mended_lines.specs.Gives.{header_gives, gives_by, unended_gives};
ghost use Rattle.mended_lines.specs.Giving.{given, out_after, list_after, cased, last_gives, added_said};

use mailed_lines::Fate;
use mailed_lines::saying::Faults;

// Where the texts are put, in the mended file and in the list.
#[derive(Clone, Copy)]
pub struct Places {
    pub file: usize,
    pub list: usize,
}

// How many bytes a line gives of both, and whether lines after it are looked at: a flag, since there are bytes of both either way.
#[derive(Clone, Copy)]
pub struct Given {
    pub file: usize,
    pub list: usize,
    pub more: bool,
}

// Puts a text, with its letters raised where that is asked: by a flag, since a closure that writes would need a contract longer than the test.
fn put_cased(out: &mut [u8], at: usize, text: &[u8], raise: bool)
    ensures { out.new ≡ placed at (cased raise text.now) out.old }
{
    if raise {
        return text::writing::put_raised(out, at, text);
    }
    text::writing::put_text(out, at, text)
}

// Puts a text in the same way, and one after it, as it stands; answers how many bytes both are.
fn put_two(out: &mut [u8], at: usize, text: &[u8], raise: bool, after: &[u8]) -> usize
    ensures { (result ≡ length (cased raise text.now ++ after.now))
        × (out.new ≡ placed at (cased raise text.now ++ after.now) out.old) }
{
    let size = text.len() + after.len();
    if octets::numbers::lies_within(out, at, size) {
        put_cased(out, at, text, raise);
        put_cased(out, at + text.len(), after, false);
    }
    size
}

// One of the first three lines.
pub fn put_header_line(
    text: &[u8],
    count: u64,
    out: &mut [u8],
    list: &mut [u8],
    at: Places,
) -> Given
    ensures { (result ≡ given (header_gives count text.now))
        × ((out.new ≡ out_after (header_gives count text.now) at out.old)
        × (list.new ≡ list_after (header_gives count text.now) at list.old)) }
{
    let line = mailed_lines::line_of(text);
    let left = mailed_lines::unblanked(line);
    let faults = Faults {
        eol: line.len() == text.len(),
        blank: left.len() < line.len(),
        case: !mailed_lines::is_raised(left),
    };
    Given {
        file: put_two(out, at.file, left, true, b"\r\n"),
        list: mailed_lines::saying::put_faults(list, at.list, faults, count),
        more: true,
    }
}

// The line :ECS, in any case of its letters, its blanks gone, and what stands after its LF, as it stands; of its faults, small letters are looked for here.
fn put_last(
    line: &[u8],
    after: &[u8],
    faults: Faults,
    count: u64,
    out: &mut [u8],
    list: &mut [u8],
    at: Places,
) -> Given
    ensures { (result ≡ given (last_gives faults.eol faults.blank count line.now after.now))
        × ((out.new ≡ out_after (last_gives faults.eol faults.blank count line.now after.now) at out.old)
        × (list.new ≡ list_after (last_gives faults.eol faults.blank count line.now after.now) at list.old)) }
{
    let faults = Faults {
        case: !mailed_lines::is_raised(line),
        ..faults
    };
    Given {
        file: put_two(out, at.file, b":ECS\r\n", false, after),
        list: mailed_lines::saying::put_faults(list, at.list, faults, count),
        more: false,
    }
}

// A line that LF ends after the header; after is what stands behind its LF.
pub fn put_ended(
    text: &[u8],
    after: &[u8],
    count: u64,
    out: &mut [u8],
    list: &mut [u8],
    at: Places,
) -> Given
    ensures { (result ≡ given (gives_by (fate_of (unblanked (line_of text.now))) count text.now after.now))
        × ((out.new ≡ out_after (gives_by (fate_of (unblanked (line_of text.now))) count text.now after.now) at out.old)
        × (list.new ≡ list_after (gives_by (fate_of (unblanked (line_of text.now))) count text.now after.now) at list.old)) }
{
    let line = mailed_lines::line_of(text);
    let left = mailed_lines::unblanked(line);
    let faults = Faults {
        eol: line.len() == text.len(),
        blank: left.len() < line.len(),
        case: false,
    };
    match mailed_lines::fate_of(left) {
        Fate::Kept => Given {
            file: put_two(out, at.file, left, false, b"\r\n"),
            list: mailed_lines::saying::put_faults(list, at.list, faults, count),
            more: true,
        },
        Fate::Last => put_last(left, after, faults, count, out, list, at),
        Fate::Out => {
            let listed = mailed_lines::saying::put_out(list, at.list, count, line);
            Given {
                file: 0,
                list: listed,
                more: true,
            }
        }
    }
}

// Puts what the list says where :ECS is added: the line that is left out, if it has any byte, and :ECS; answers how many bytes that is.
fn put_added(list: &mut [u8], at: usize, count: u64, next: u64, line: &[u8]) -> usize
    ensures { (result ≡ length (added_said count next line.now))
        × (list.new ≡ placed at (added_said count next line.now) list.old) }
{
    let said: &[u8] = b" ECS\n";
    if line.len() == 0 {
        return mailed_lines::saying::put_counted(list, at, count, said);
    }
    let out = text::writing::width(count) + line.len() + 6;
    let size = out + text::writing::width(next) + 5;
    if octets::numbers::lies_within(list, at, size) {
        mailed_lines::saying::put_out(list, at, count, line);
        mailed_lines::saying::put_counted(list, at + out, next, said);
    }
    size
}

// What no LF ends; an added :ECS is counted next, where this is a line.
pub fn put_unended(
    line: &[u8],
    count: u64,
    next: u64,
    out: &mut [u8],
    list: &mut [u8],
    at: Places,
) -> Given
    ensures { (result ≡ given (unended_gives count next line.now))
        × ((out.new ≡ out_after (unended_gives count next line.now) at out.old)
        × (list.new ≡ list_after (unended_gives count next line.now) at list.old)) }
{
    let left = mailed_lines::unblanked(line);
    if !mailed_lines::is_ecs(left) {
        text::writing::put_text(out, at.file, b":ECS\r\n");
        return Given {
            file: 6,
            list: put_added(list, at.list, count, next, line),
            more: false,
        };
    }
    let faults = Faults {
        eol: false,
        blank: left.len() < line.len(),
        case: !mailed_lines::is_raised(left),
    };
    text::writing::put_text(out, at.file, b":ECS");
    Given {
        file: 4,
        list: mailed_lines::saying::put_faults(list, at.list, faults, count),
        more: false,
    }
}
