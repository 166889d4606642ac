// The program mend: reads a mailed permit file, writes it mended to standard output, and to standard error what was wrong with it.
#![tactic(auto)]

use std::io;

// Writes the first bytes of an output.
fn write_start(to: &impl Print, out: &[u8], size: usize) -> io::Result<()> {
    if size <= out.len() {
        to.write_all(&out[..size])?;
    }
    Ok(())
}

// Mends into these outputs and writes both, where they have the room, and says whether it did. The list is written even where the file could not be.
fn write_both(rt: HostRuntime, input: &[u8], out: &mut [u8], list: &mut [u8]) -> io::Result<bool> {
    let Ok(size) = mending::print(input, out, list) else {
        return Ok(false);
    };
    let of_file = write_start(&rt.stdout(), out, size.file);
    let of_list = write_start(&rt.stderr(), list, size.list);
    of_file?;
    of_list?;
    Ok(true)
}

// A list of 32,768 bytes or fewer.
fn write_usual(rt: HostRuntime, input: &[u8], out: &mut [u8]) -> io::Result<bool> {
    let mut list = [0u8; 32768];
    write_both(rt, input, out, &mut list)
}

// Any list: 721,000 bytes are always enough, as are 80,000 for the mended file (the law room_enough), and clearing them takes long, so they are never
// main's own.
#[inline(never)]
fn write_any(rt: HostRuntime, input: &[u8], out: &mut [u8]) -> io::Result<()> {
    let mut list = [0u8; 721000];
    write_both(rt, input, out, &mut list)?;
    Ok(())
}

// The input has one byte more than is taken, so that one that is too long is seen to be.
fn main(rt: HostRuntime) -> io::Result<()> {
    let mut room = [0u8; 65537];
    let mut out = [0u8; 80000];
    let n = reading::read_full(&mut rt.stdin(), &mut room)?;
    let input = &room[..n];
    if 65536 < n || !write_usual(rt, input, &mut out)? {
        write_any(rt, input, &mut out)?;
    }
    Ok(())
}
