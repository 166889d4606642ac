// The look-through: reads standard input and writes its report.
#![tactic(auto)]

use std::io;

// Writes the first bytes of the output.
fn write_start(to: &impl Print, out: &[u8], size: usize) -> io::Result<()> {
    if size <= out.len() {
        to.write_all(&out[..size])?;
    }
    Ok(())
}

// Writes the report where the output has the room that its input asks for, and says whether it did.
fn write_report(to: &impl Print, input: &[u8], out: &mut [u8]) -> io::Result<bool> {
    let Ok(size) = report::look_through(input, out) else {
        return Ok(false);
    };
    write_start(to, out, size)?;
    Ok(true)
}

// The room that most inputs ask for.
fn write_usual(to: &impl Print, input: &[u8]) -> io::Result<bool> {
    let mut out = [0u8; 32768];
    write_report(to, input, &mut out)
}

// Room for any input: 600,000 bytes are always enough (the law room_enough), and clearing them takes long, so they are never main's own.
#[inline(never)]
fn write_any(to: &impl Print, input: &[u8]) -> io::Result<()> {
    let mut out = [0u8; 600000];
    write_report(to, input, &mut out)?;
    Ok(())
}

// The input has one byte more than is taken, so that one that is too long is seen to be.
fn main(rt: HostRuntime) -> io::Result<()> {
    let mut room = [0u8; 65537];
    let n = reading::read_full(&mut rt.stdin(), &mut room)?;
    let input = &room[..n];
    if 65536 < n || !write_usual(&rt, input)? {
        write_any(&rt, input)?;
    }
    Ok(())
}
