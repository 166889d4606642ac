// Runs the worked permits of S-63 (sections 10.6, 11.4 and 11.5): HW_ID 12348, M_KEY 98765, M_ID 01. `stdout` has what they must give.
#![tactic(auto)]

use cell_permit::{Cell, Record};
use forms::refusals::Refusal;
use std::io;
use user_permit::Ship;

fn show(to: &impl Print, word: &str, text: &[u8]) -> io::Result<()> {
    to.print(word)?;
    to.write_all(text)?;
    to.print('\n')
}

fn show_user_permit(to: &impl Print, answer: Result<Ship, Refusal>) -> io::Result<()> {
    match answer {
        Ok(ship) => {
            let hw = octets::numbers::bytes40(ship.hw_id);
            let m = octets::numbers::bytes16((ship.m_id % 65536) as u16);
            show(to, "HW_ID ", &hw)?;
            show(to, "M_ID ", &m)
        }
        Err(refusal) => println!(to; "user permit refused {}", refusal.number()),
    }
}

fn show_record(to: &impl Print, r: Record) -> io::Result<()> {
    let name = octets::numbers::bytes64(r.name);
    let server = octets::numbers::bytes16((r.server % 65536) as u16);
    show(to, "cell name ", &name)?;
    println!(to; "expiry {}", r.expiry)?;
    println!(to; "key one {:010x}", r.key1)?;
    println!(to; "key two {:010x}", r.key2)?;
    println!(to; "service level {}", r.level)?;
    println!(to; "edition {}", r.edition)?;
    show(to, "Data Server ID ", &server)?;
    println!(to; "number {}", r.notice as u32)
}

fn show_line(to: &impl Print, answer: Result<Record, Refusal>) -> io::Result<()> {
    match answer {
        Ok(r) => show_record(to, r),
        Err(refusal) => println!(to; "line refused {}", refusal.number()),
    }
}

// A line as written and as read, by its own ship and by another.
fn show_written(to: &impl Print, written: Result<usize, Refusal>, out: &[u8]) -> io::Result<()> {
    let Ok(n) = written else {
        return Ok(());
    };
    let Some(line) = out.get(..n).and_then(|line| line.strip_suffix(b"\r\n")) else {
        return Ok(());
    };
    show(to, "line ", line)?;
    show_line(to, cell_permit::read_line(0x3132333438, 20000731, 30, line))?;
    show_line(to, cell_permit::read_line(0x3132333439, 20000731, 30, line))
}

fn user_permit(to: &impl Print) -> io::Result<()> {
    let mut permit = [0u8; 28];
    let Ok(_) = user_permit::make_user_permit(b"0198765", 0x3132333438, 0x3031, &mut permit) else {
        return Ok(());
    };
    show(to, "user permit ", &permit)?;
    show_user_permit(to, user_permit::read_user_permit(b"0198765", &permit))
}

fn cell_permit(to: &impl Print) -> io::Result<()> {
    let cell = Cell {
        name: 0x4e4f344430363133,
        key1: 0xc1cb518e9c,
        key2: 0x421571cc66,
        expiry: 20000830,
        level: 0,
        edition: 10,
        server: 0x4742,
    };
    let mut out = [0u8; 76];
    let written = writing_line::write_line(0x3132333438, cell, &mut out);
    show_written(to, written, &out)
}

fn main(rt: HostRuntime) -> io::Result<()> {
    user_permit(&rt)?;
    cell_permit(&rt)
}
