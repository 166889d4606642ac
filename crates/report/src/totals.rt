// The last line of a report: the totals by kind, or the refusal.
ghost use Rattle.std.specs.Prelude.{◌≡◌, ◌+◌, ◌≤◌, length};
ghost use Rattle.text.specs.Texts.{placed};
ghost use Rattle.report.specs.LookThrough.{refused_text};
ghost use Rattle.report.specs.Turns.{last_field, totals_end, totals_text};

use super::rows::{Tally, put_field};

// Puts a word, a number and LF; answers the place after them.
fn put_last(out: &mut [u8], at: usize, word: &[u8], x: u64) -> usize
    requires { at + length (last_field word.now x) ≤ length out.old }
    ensures { (result ≡ at + length (last_field word.now x)) × (out.new ≡ placed at (last_field word.now x) out.old) }
{
    let end = put_field(out, at, word, x);
    text::writing::put_text(out, end, b"\n");
    end + 1
}

// Puts how many lines are soon, expired and refused.
fn put_rest(out: &mut [u8], at: usize, t: Tally) -> usize
    requires { at + length (totals_end t) ≤ length out.old }
    ensures { (result ≡ at + length (totals_end t)) × (out.new ≡ placed at (totals_end t) out.old) }
{
    let soon = put_field(out, at, b" soon ", t.soon);
    let expired = put_field(out, soon, b" expired ", t.expired);
    put_last(out, expired, b" refused ", t.refused)
}

// Puts the totals after the rows; answers the place after them.
pub(crate) fn put_totals(out: &mut [u8], t: Tally) -> usize
    requires { t.written + length (totals_text t) ≤ length out.old }
    ensures { (result ≡ t.written + length (totals_text t)) × (out.new ≡ placed t.written (totals_text t) out.old) }
{
    let records = put_field(out, t.written, b"records ", t.count);
    let current = put_field(out, records, b" current ", t.current);
    put_rest(out, current, t)
}

// Puts why nothing is listed; answers how many bytes that is.
pub(crate) fn put_refused(out: &mut [u8], number: u32) -> usize
    requires { length (refused_text number) ≤ length out.old }
    ensures { (result ≡ length (refused_text number)) × (out.new ≡ placed 0 (refused_text number) out.old) }
{
    put_last(out, 0, b"refused ", number as u64)
}
