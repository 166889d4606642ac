// Permits for C.
ghost use Rattle.std.specs.Prelude.{◌≡◌, length};
ghost use Rattle.forms.specs.Output.{written_of, lent_after};
ghost use Rattle.forms.specs.Refusals.{refusal_number};
ghost use Rattle.user_permit.specs.UserPermit.{made, read_permit};
ghost use Rattle.cell_permit.specs.CellPermit.{written_line};
ghost use Rattle.cell_permit.specs.Line.{read_line};
ghost use Rattle.lambukir.specs.Permits.{cell_from, user_permit_read, line_read, text_written, comment_part};

use super::number;
use cell_permit::{Cell, Record};
use forms::refusals::Refusal;
use user_permit::Ship;

// lambukir_user_permit of the header.
#[repr(C)]
#[derive(Clone, Copy)]
pub struct UserPermitRead {
    pub hw: u64,
    pub m: u32,
    pub number: u32,
}

// lambukir_line of the header.
#[repr(C)]
#[derive(Clone, Copy)]
pub struct LineRead {
    pub name: u64,
    pub key1: u64,
    pub key2: u64,
    pub expiry: u32,
    pub level: u32,
    pub edition: u32,
    pub server: u32,
    pub number: u32,
}

// lambukir_written of the header.
#[repr(C)]
#[derive(Clone, Copy)]
pub struct TextWritten {
    pub length: u64,
    pub number: u32,
}

// lambukir_part of the header.
#[repr(C)]
#[derive(Clone, Copy)]
pub struct Part {
    pub start: u64,
    pub length: u64,
}

impl From<Result<Ship, Refusal>> for UserPermitRead {
    ghost from_gives = { λ answer read. read ≡ user_permit_read answer };

    fn from(answer: Result<Ship, Refusal>) -> UserPermitRead {
        match answer {
            Ok(ship) => UserPermitRead {
                hw: ship.hw_id,
                m: ship.m_id,
                number: 0,
            },
            Err(refusal) => UserPermitRead {
                hw: 0,
                m: 0,
                number: refusal.number(),
            },
        }
    }
}

impl From<Result<Record, Refusal>> for LineRead {
    ghost from_gives = { λ answer read. read ≡ line_read answer };

    fn from(answer: Result<Record, Refusal>) -> LineRead {
        match answer {
            Ok(r) => LineRead {
                name: r.name,
                key1: r.key1,
                key2: r.key2,
                expiry: r.expiry,
                level: r.level,
                edition: r.edition,
                server: r.server,
                number: r.notice as u32,
            },
            Err(refusal) => LineRead {
                name: 0,
                key1: 0,
                key2: 0,
                expiry: 0,
                level: 0,
                edition: 0,
                server: 0,
                number: refusal.number(),
            },
        }
    }
}

impl From<Result<usize, Refusal>> for TextWritten {
    ghost from_gives = { λ answer written. written ≡ text_written answer };

    fn from(answer: Result<usize, Refusal>) -> TextWritten {
        match answer {
            Ok(length) => TextWritten {
                length: length as u64,
                number: 0,
            },
            Err(refusal) => TextWritten {
                length: 0,
                number: refusal.number(),
            },
        }
    }
}

#[unsafe(no_mangle)]
pub extern "C" fn lambukir_make_user_permit(register: &[u8], hw: u64, m: u32, out: &mut [u8]) -> u32
    ensures { (result ≡ refusal_number (written_of (made register.now hw m (length out.old))))
        × (out.new ≡ lent_after (made register.now hw m (length out.old)) out.old) }
{
    number(user_permit::make_user_permit(register, hw, m, out))
}

#[unsafe(no_mangle)]
pub extern "C" fn lambukir_read_user_permit(register: &[u8], permit: &[u8]) -> UserPermitRead
    ensures { result ≡ user_permit_read (read_permit register.now permit.now) }
{
    user_permit::read_user_permit(register, permit).into()
}

#[unsafe(no_mangle)]
pub extern "C" fn lambukir_read_line(hw: u64, today: u32, days: u32, line: &[u8]) -> LineRead
    ensures { result ≡ line_read (read_line hw today days line.now) }
{
    cell_permit::read_line(hw, today, days, line).into()
}

#[tactic(auto, using(cell_permit::proofs::Comments::place_within))]
#[unsafe(no_mangle)]
pub extern "C" fn lambukir_comment(line: &[u8]) -> Part
    ensures { result ≡ comment_part line.now }
{
    match cell_permit::comment_place(line) {
        Some(start) => Part {
            start: start as u64,
            length: (line.len() - start) as u64,
        },
        None => Part {
            start: 0,
            length: 0,
        },
    }
}

#[unsafe(no_mangle)]
pub extern "C" fn lambukir_write_line(
    hw: u64,
    name: u64,
    expiry: u32,
    key1: u64,
    key2: u64,
    level: u32,
    edition: u32,
    server: u32,
    out: &mut [u8],
) -> TextWritten
    ensures { (result ≡ text_written (written_of (written_line hw (cell_from name expiry key1 key2 level edition server) (length out.old))))
        × (out.new ≡ lent_after (written_line hw (cell_from name expiry key1 key2 level edition server) (length out.old)) out.old) }
{
    let cell = Cell {
        name,
        key1,
        key2,
        expiry,
        level,
        edition,
        server,
    };
    writing_line::write_line(hw, cell, out).into()
}
