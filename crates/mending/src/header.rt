// The header of a mailed file: its first three lines, which mended must be a good one.
ghost use Rattle.std.specs.Prelude.{◌≡◌, ◌≤◌, Some, length};
ghost use Rattle.text.specs.Texts.{placed};
ghost use Rattle.mending.specs.Putting.{Takes};
ghost use Rattle.mended_lines.specs.Gives.{header_gives};
ghost use Rattle.mended_lines.specs.Giving.{out_after, list_after};
ghost use Rattle.mending.specs.Putting.{Room};
ghost use Rattle.mending.specs.Mending.{is_mended};
ghost use Rattle.mending.specs.Walking.{text_between, places_after, ended_at, header_ends, header_of, size_of};

use file_lines::texts::text_ends;
use mended_lines::Places;

// Where the first three texts end.
#[derive(Clone, Copy)]
pub(crate) struct Ends {
    pub first: usize,
    pub second: usize,
    pub third: usize,
}

// Where the text ends that begins at a place; none where no LF ends it.
#[tactic(auto, unfolding(crate::specs::Walking::ended_at))]
fn ended_at(file: &[u8], place: usize) -> Option<usize>
    ensures { result ≡ ended_at file.now place }
{
    let end = text_ends(file, place);
    if end < file.len() { Some(end) } else { None }
}

// Finds them; none where LF ends fewer than three.
pub(crate) fn header_ends(file: &[u8]) -> Option<Ends>
    ensures { result ≡ header_ends file.now }
{
    let first = ended_at(file, 0)?;
    let second = ended_at(file, first + 1)?;
    let third = ended_at(file, second + 1)?;
    Some(Ends {
        first,
        second,
        third,
    })
}

// Puts one of them, which lies between two places, and what is said of it.
fn put_one(
    file: &[u8],
    from: usize,
    to: usize,
    count: u64,
    out: &mut [u8],
    list: &mut [u8],
    at: Places,
) -> Places
    requires from_le_to { (from ≤ to) × (to ≤ length file.now) }
    requires room { Room (header_gives count (text_between file.now from to)) at out.old list.old }
    ensures { (result ≡ places_after (header_gives count (text_between file.now from to)) at)
        × ((out.new ≡ out_after (header_gives count (text_between file.now from to)) at out.old)
        × (list.new ≡ list_after (header_gives count (text_between file.now from to)) at list.old)) }
{
    let g = mended_lines::put_header_line(&file[from..to], count, out, list, at);
    Places {
        file: at.file + g.file,
        list: at.list + g.list,
    }
}

// Puts all three at the outputs' starts, and what is said of them; answers the places after both.
// That e has the ends of this file's texts stands in three contracts here: a type for both would hold a reference to the file, and no type does, so that each contract shows what is lent.
pub(crate) fn put_header(file: &[u8], e: Ends, out: &mut [u8], list: &mut [u8]) -> Places
    requires file_value { header_ends file.now ≡ Some e }
    requires takes { Takes 0 (header_of file.now e).file out.old × Takes 0 (header_of file.now e).list list.old }
    ensures { (result ≡ size_of (header_of file.now e))
        × ((out.new ≡ placed 0 (header_of file.now e).file out.old)
        × (list.new ≡ placed 0 (header_of file.now e).list list.old)) }
{
    let start = Places { file: 0, list: 0 };
    let one = put_one(file, 0, e.first, 1, out, list, start);
    let two = put_one(file, e.first + 1, e.second, 2, out, list, one);
    put_one(file, e.second + 1, e.third, 3, out, list, two)
}

// How long they are, mended, and what is said of them.
pub(crate) fn header_sizes(file: &[u8], e: Ends) -> Places
    requires { header_ends file.now ≡ Some e }
    ensures { result ≡ size_of (header_of file.now e) }
{
    let mut no_file = [0u8; 0];
    let mut no_list = [0u8; 0];
    put_header(file, e, &mut no_file, &mut no_list)
}

// Whether they are a good header, which has 40 bytes.
pub(crate) fn is_good(file: &[u8], e: Ends) -> bool
    requires { header_ends file.now ≡ Some e }
    ensures { result ≡ is_mended file.now }
{
    let size = header_sizes(file, e);
    if size.file != 40 {
        return false;
    }
    let mut header = [0u8; 40];
    let mut no_list = [0u8; 0];
    put_header(file, e, &mut header, &mut no_list);
    permit_file::is_header(&header)
}
