// Whether a name stands twice in a product list that need not be in name order.
// The names of a block of rows are kept in an array, and each sets four of many marks. A name whose marks are not all set is new, which is so of nearly every one in a list that has none twice;
// for the others the array is looked through. A list that was made to be slow costs a look through the array for each row.
#![tactic(auto)]

ghost use Rattle.std.specs.Prelude.{◌≡◌, ◌<◌, length};
ghost use Rattle.product_names.specs.Repeats.{stands_in, repeats, names_from};
ghost use Rattle.product_names.specs.Marking.{mark_place, is_set, is_marked, marked};
ghost use Rattle.product_names.specs.Blocks.{AllMarked, Says};

use file_lines::{LineFound, line_at};
use octets::numbers::number64;
use std::num::wrapping_add_u64;

// How many rows a block has: a list of 20,000 is one block.
const ROWS: usize = 32768;

// How many marks there are.
const MARKS: usize = 262144;

// What a name's four places are worked out with, each of two odd numbers of 32 bits. No proof rests on them: they spread the names.
const FACTORS: [u64; 4] = [
    0x9e37_79b9_7f4a_7c15,
    0xc2b2_ae3d_27d4_eb4f,
    0x1656_67b1_d6e8_feb9,
    0x85eb_ca77_6659_fd93,
];

// A place of a name among the marks.
fn mark_place(factor: u64, name: u64) -> usize
    ensures { result ≡ mark_place factor name }
{
    let high = name / 0x1_0000_0000 * (factor / 0x1_0000_0000);
    let low = name % 0x1_0000_0000 * (factor % 0x1_0000_0000);
    (wrapping_add_u64(high, low) / 262144 % 262144) as usize
}

// Whether the mark at a place of a name is set.
fn is_set(marks: &[u8; MARKS], factor: u64, name: u64) -> bool
    ensures { result ≡ is_set marks.now factor name }
{
    marks[mark_place(factor, name)] == 1
}

// Whether all marks of a name are set; where one is not, the name was never marked.
#[tactic(auto, unfolding(crate::specs::Marking::is_marked))]
fn is_marked(marks: &[u8; MARKS], name: u64) -> bool
    ensures { result ≡ is_marked marks.now name }
{
    FACTORS.iter().all(|factor| is_set(marks, *factor, name))
}

// Sets the marks of a name.
fn mark(marks: &mut [u8; MARKS], name: u64)
    ensures { marks.new ≡ marked name marks.old }
{
    for factor in FACTORS {
        marks[mark_place(factor, name)] = 1;
    }
}

// Whether a name stands among some; without leaving early, so that the compiler takes many at a time.
fn stands_in(names: &[u64], name: u64) -> bool
    ensures { result ≡ stands_in name names.now }
{
    let mut found = false;
    for other in names {
        found = found | (name == *other);
    }
    found
}

// The same where all of them are marked: most names are not, and are looked for no further.
fn holds(names: &[u64], marks: &[u8; MARKS], name: u64) -> bool
    requires { AllMarked marks.now names.now }
    ensures { result ≡ stands_in name names.now }
{
    is_marked(marks, name) && stands_in(names, name)
}

// Looks at all rows from a place on: each is held against the block of the first ones. None where a name stands twice in that way, otherwise the place
// from which on the rows are still to be looked at among themselves, which is the list's end where none are. No `for`: a line ends where it is found to end.
fn block_at(list: &[u8], place: usize) -> Option<usize>
    requires { place < length list.now }
    ensures { Says list.now place result }
{
    let mut names = [0u64; ROWS];
    let mut marks = [0u8; MARKS];
    let mut count: usize = 0;
    let mut next = place;
    let mut at = place;
    while at < list.len() {
        let LineFound::Line(end) = line_at(list, at) else {
            break;
        };
        let name = number64(&list[at..end], 0);
        if holds(&names[..count], &marks, name) {
            return None;
        }
        at = end + 2;
        if count < ROWS {
            mark(&mut marks, name);
            names[count] = name;
            count += 1;
            next = at;
        }
    }
    if at == next {
        return Some(list.len());
    }
    Some(next)
}

// The same of all blocks from a place on. No `for`: a block tells where the next one begins.
fn repeated_later(list: &[u8], first: usize) -> bool
    ensures { result ≡ repeats (names_from list.now first) }
{
    let mut place = first;
    while place < list.len() {
        let Some(next) = block_at(list, place) else {
            return true;
        };
        place = next;
    }
    false
}

// Whether a name stands twice among the lines of the ENC part from a place on. A function that is called once is put into its caller, whose stack is then touched whole at
// each call: so the first block, which is nearly always the only one, is called for by itself.
pub fn repeated(list: &[u8], first: usize) -> bool
    ensures { result ≡ repeats (names_from list.now first) }
{
    if list.len() <= first {
        return false;
    }
    let Some(next) = block_at(list, first) else {
        return true;
    };
    repeated_later(list, next)
}
