// The lines of a mailed permit file: cut at LF, what is wrong with each, what becomes of it, and what the list says of it.
#![tactic(auto)]

ghost use Rattle.std.specs.Prelude.{◌≡◌};
ghost use Rattle.text.specs.Characters.{raised_text};
ghost use Rattle.text.specs.Texts.{same_text};
ghost use Rattle.mailed_lines.specs.Mailed.{line_of, unblanked, is_ecs, fate_of};

pub mod saying; // saying.rt: the list's lines

// What becomes of a line after the third: it is kept, it is :ECS, the last that is looked at, or it is left out.
#[derive(Clone, Copy)]
pub enum Fate {
    Kept,
    Last,
    Out,
}

// The bytes of a text that are the line's: all but a CR at its end.
pub fn line_of(text: &[u8]) -> &[u8]
    ensures { (result.now ≡ line_of text.now) × (result.ref_ptr ≡ text.entry.ref_ptr) }
{
    if let [line @ .., b'\r'] = text {
        return line;
    }
    text
}

// What is left of a line when the blanks at its end are gone.
pub fn unblanked(line: &[u8]) -> &[u8]
    ensures { (result.now ≡ unblanked line.now) × (result.ref_ptr ≡ line.entry.ref_ptr) }
{
    match line.iter().rposition(|c| *c != b' ') {
        Some(last) => &line[..last + 1],
        None => &line[..0],
    }
}

// Whether a line has no small letter.
pub fn is_raised(line: &[u8]) -> bool
    ensures { result ≡ same_text (raised_text line.now) line.now }
{
    line.iter().all(|c| text::characters::raised(*c) == *c)
}

// Whether a line is :ECS, in any case of its letters.
pub fn is_ecs(line: &[u8]) -> bool
    ensures { result ≡ is_ecs line.now }
{
    if line.len() != 4 {
        return false;
    }
    let mut raised = [0u8; 4];
    text::writing::put_raised(&mut raised, 0, line);
    text::reading::stands_at(b":ECS", &raised, 0)
}

// What becomes of a line whose blanks are gone.
#[tactic(auto, unfolding(crate::specs::Mailed::fate_of))]
pub fn fate_of(line: &[u8]) -> Fate
    ensures { result ≡ fate_of line.now }
{
    if is_ecs(line) {
        Fate::Last
    } else if line_shape::is_line(line) {
        Fate::Kept
    } else {
        Fate::Out
    }
}
