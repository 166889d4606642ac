// Permit files for C.
ghost use Rattle.std.specs.Prelude.{◌≡◌, length};
ghost use Rattle.permit_file.specs.File.{open_of, step_of};
ghost use Rattle.mending.specs.Mending.{mending};
ghost use Rattle.mending.specs.Answers.{answer_of, file_lent, list_lent};
ghost use Rattle.lambukir.specs.Files.{file_opened, no_record, file_line_read, file_mended};

use forms::refusals::Refusal;
use mending::Lengths;
use permit_file::{Cursor, Step};

// lambukir_place of the header.
#[repr(C)]
#[derive(Clone, Copy)]
pub struct FileOpened {
    pub place: u64,
    pub number: u32,
}

// lambukir_file_line of the header.
#[repr(C)]
#[derive(Clone, Copy)]
pub struct FileLineRead {
    pub name: u64,
    pub key1: u64,
    pub key2: u64,
    pub next: u64,
    pub expiry: u32,
    pub level: u32,
    pub edition: u32,
    pub server: u32,
    pub number: u32,
    pub end: u32,
}

// lambukir_mended of the header.
#[repr(C)]
#[derive(Clone, Copy)]
pub struct FileMended {
    pub length: u64,
    pub list_length: u64,
    pub number: u32,
}

fn no_record(next: usize, number: u32, end: u32) -> FileLineRead
    ensures { result ≡ no_record next number end }
{
    FileLineRead {
        name: 0,
        key1: 0,
        key2: 0,
        next: next as u64,
        expiry: 0,
        level: 0,
        edition: 0,
        server: 0,
        number,
        end,
    }
}

impl From<Step> for FileLineRead {
    ghost from_gives = { λ step read. read ≡ file_line_read step };

    fn from(step: Step) -> FileLineRead {
        match step {
            Step::Record(r, c) => FileLineRead {
                name: r.name,
                key1: r.key1,
                key2: r.key2,
                next: c.place as u64,
                expiry: r.expiry,
                level: r.level,
                edition: r.edition,
                server: r.server,
                number: r.notice as u32,
                end: 0,
            },
            Step::Refused(refusal, c) => no_record(c.place, refusal.number(), 0),
            Step::End(c) => no_record(c.place, 0, 1),
        }
    }
}

impl From<Result<Cursor, Refusal>> for FileOpened {
    ghost from_gives = { λ answer opened. opened ≡ file_opened answer };

    fn from(answer: Result<Cursor, Refusal>) -> FileOpened {
        match answer {
            Ok(c) => FileOpened {
                place: c.place as u64,
                number: 0,
            },
            Err(refusal) => FileOpened {
                place: 0,
                number: refusal.number(),
            },
        }
    }
}

impl From<Result<Lengths, Refusal>> for FileMended {
    ghost from_gives = { λ answer mended. mended ≡ file_mended answer };

    fn from(answer: Result<Lengths, Refusal>) -> FileMended {
        match answer {
            Ok(size) => FileMended {
                length: size.file as u64,
                list_length: size.list as u64,
                number: 0,
            },
            Err(refusal) => FileMended {
                length: 0,
                list_length: 0,
                number: refusal.number(),
            },
        }
    }
}

#[unsafe(no_mangle)]
pub extern "C" fn lambukir_open_file(file: &[u8]) -> FileOpened
    ensures { result ≡ file_opened (open_of file.now) }
{
    permit_file::open(file).into()
}

#[unsafe(no_mangle)]
pub extern "C" fn lambukir_read_file_line(
    hw: u64,
    today: u32,
    days: u32,
    file: &[u8],
    place: usize,
) -> FileLineRead
    ensures { result ≡ file_line_read (step_of hw today days file.now place) }
{
    let cursor = Cursor { place };
    cursor.step(file, hw, today, days).into()
}

#[unsafe(no_mangle)]
pub extern "C" fn lambukir_mend(file: &[u8], out: &mut [u8], list: &mut [u8]) -> FileMended
    ensures { (result ≡ file_mended (answer_of (mending file.now (length out.old) (length list.old))))
        × ((out.new ≡ file_lent (mending file.now (length out.old) (length list.old)) out.old)
        × (list.new ≡ list_lent (mending file.now (length out.old) (length list.old)) list.old)) }
{
    mending::mend(file, out, list).into()
}
