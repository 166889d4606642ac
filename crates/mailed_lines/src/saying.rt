// The list's lines, put at a place of it. Each answers how many bytes that is, whether or not they lie within the list: so an empty list measures them.
ghost use Rattle.std.specs.Prelude.{◌≡◌, cond, ◌++◌, ◌+◌, ◌≤◌, length};
ghost use Rattle.text.specs.Texts.{width, numeral, placed};
ghost use Rattle.mailed_lines.specs.Saying.{faults_said, out_said};
ghost use Rattle.mailed_lines.specs.Putting.{counted_if};

// What is wrong with a line: no CR before its LF, blanks at its end, small letters.
#[derive(Clone, Copy)]
pub struct Faults {
    pub eol: bool,
    pub blank: bool,
    pub case: bool,
}

// A line's count, and how many digits that has.
#[derive(Clone, Copy)]
struct Count {
    number: u64,
    digits: usize,
    ghost counted: { digits ≡ width number },
}

impl Count {
    fn of(number: u64) -> Count
        ensures { result.number ≡ number }
    {
        Count {
            number,
            digits: text::writing::width(number),
        }
    }
}

// A line's count and what follows it.
fn put_said(list: &mut [u8], at: usize, count: Count, rest: &[u8]) -> usize
    ensures { (result ≡ length (numeral count.number ++ rest.now))
        × (list.new ≡ placed at (numeral count.number ++ rest.now) list.old) }
{
    let size = count.digits + rest.len();
    if octets::numbers::lies_within(list, at, size) {
        text::writing::put_decimal(list, at, count.digits, count.number);
        text::writing::put_text(list, at + count.digits, rest);
    }
    size
}

// The same of a count whose digits are not counted yet.
pub fn put_counted(list: &mut [u8], at: usize, count: u64, rest: &[u8]) -> usize
    ensures { (result ≡ length (numeral count ++ rest.now))
        × (list.new ≡ placed at (numeral count ++ rest.now) list.old) }
{
    put_said(list, at, Count::of(count), rest)
}

// The same where there is a fault.
#[tactic(auto, using(text::proofs::PlacedTexts::placed_none), unfolding(crate::specs::Putting::counted_if))]
fn put_if(list: &mut [u8], at: usize, fault: bool, count: Count, rest: &[u8]) -> usize
    ensures { (result ≡ length (counted_if fault count.number rest.now))
        × (list.new ≡ placed at (counted_if fault count.number rest.now) list.old) }
{
    if fault {
        put_said(list, at, count, rest)
    } else {
        0
    }
}

// How long a list line is of a count and so many bytes after it, where there is a fault.
fn length_if(fault: bool, count: Count, letters: usize) -> usize
    requires { letters ≤ 7 }
    ensures { result ≡ cond fault (width count.number + letters) 0 }
{
    if fault { count.digits + letters } else { 0 }
}

// A list line for each fault, which all lie within the list.
fn put_each(list: &mut [u8], at: usize, faults: Faults, count: Count)
    requires { at + length (faults_said faults.eol faults.blank faults.case count.number) ≤ length list.old }
    ensures { list.new ≡ placed at (faults_said faults.eol faults.blank faults.case count.number) list.old }
{
    let second = at + put_if(list, at, faults.eol, count, b" EOL\n");
    let third = second + put_if(list, second, faults.blank, count, b" BLANK\n");
    put_if(list, third, faults.case, count, b" CASE\n");
}

// A list line for each fault of a line, in their order.
pub fn put_faults(list: &mut [u8], at: usize, faults: Faults, count: u64) -> usize
    ensures { (result ≡ length (faults_said faults.eol faults.blank faults.case count))
        × (list.new ≡ placed at (faults_said faults.eol faults.blank faults.case count) list.old) }
{
    let count = Count::of(count);
    let size = length_if(faults.eol, count, 5)
        + length_if(faults.blank, count, 7)
        + length_if(faults.case, count, 6);
    if octets::numbers::lies_within(list, at, size) {
        put_each(list, at, faults, count);
    }
    size
}

// The list line of a line left out.
pub fn put_out(list: &mut [u8], at: usize, count: u64, line: &[u8]) -> usize
    ensures { (result ≡ length (out_said count line.now))
        × (list.new ≡ placed at (out_said count line.now) list.old) }
{
    let start = text::writing::width(count) + 5;
    let size = start + line.len() + 1;
    if octets::numbers::lies_within(list, at, size) {
        put_counted(list, at, count, b" OUT ");
        text::writing::put_text(list, at + start, line);
        text::writing::put_text(list, at + start + line.len(), b"\n");
    }
    size
}
