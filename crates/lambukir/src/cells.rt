// Cell files for C.
ghost use Rattle.std.specs.Prelude.{◌≡◌, length};
ghost use Rattle.forms.specs.Output.{written_of, lent_after};
ghost use Rattle.cell_file.specs.Enciphering.{file_written, part_written, end_written};
ghost use Rattle.cell_file.specs.Answers.{part_answer, part_lent};
ghost use Rattle.cell_opening.specs.Opening.{opened_file};
ghost use Rattle.cell_opening.specs.Answers.{file_answer, file_lent};
ghost use Rattle.lambukir.specs.Permits.{text_written};
ghost use Rattle.lambukir.specs.Cells.{part_enciphered, cell_file_opened};

use super::permits::TextWritten;
use cell_file::Part;
use cell_opening::OpenedFile;
use forms::refusals::Refusal;

// lambukir_part_written of the header.
#[repr(C)]
#[derive(Clone, Copy)]
pub struct PartEnciphered {
    pub length: u64,
    pub carried: u64,
    pub count: u32,
    pub number: u32,
}

// lambukir_cell_file of the header.
#[repr(C)]
#[derive(Clone, Copy)]
pub struct FileOpened {
    pub length: u64,
    pub key: u32,
    pub number: u32,
}

impl From<Result<Part, Refusal>> for PartEnciphered {
    ghost from_gives = { λ answer enciphered. enciphered ≡ part_enciphered answer };

    fn from(answer: Result<Part, Refusal>) -> PartEnciphered {
        match answer {
            Ok(part) => PartEnciphered {
                length: part.length as u64,
                carried: part.carried,
                count: part.count,
                number: 0,
            },
            Err(refusal) => PartEnciphered {
                length: 0,
                carried: 0,
                count: 0,
                number: refusal.number(),
            },
        }
    }
}

impl From<Result<OpenedFile, Refusal>> for FileOpened {
    ghost from_gives = { λ answer opened. opened ≡ cell_file_opened answer };

    fn from(answer: Result<OpenedFile, Refusal>) -> FileOpened {
        match answer {
            Ok(file) => FileOpened {
                length: file.length as u64,
                key: file.key,
                number: 0,
            },
            Err(refusal) => FileOpened {
                length: 0,
                key: 0,
                number: refusal.number(),
            },
        }
    }
}

#[unsafe(no_mangle)]
pub extern "C" fn lambukir_encipher_file(key: u64, file: &[u8], out: &mut [u8]) -> TextWritten
    ensures { (result ≡ text_written (written_of (file_written key file.now (length out.old))))
        × (out.new ≡ lent_after (file_written key file.now (length out.old)) out.old) }
{
    cell_file::encipher_file(key, file, out).into()
}

#[unsafe(no_mangle)]
pub extern "C" fn lambukir_encipher_part(
    key: u64,
    carried: u64,
    count: u32,
    part: &[u8],
    out: &mut [u8],
) -> PartEnciphered
    ensures { (result ≡ part_enciphered (part_answer (part_written key carried count part.now (length out.old))))
        × (out.new ≡ part_lent (part_written key carried count part.now (length out.old)) out.old) }
{
    cell_file::encipher_part(key, carried, count, part, out).into()
}

#[unsafe(no_mangle)]
pub extern "C" fn lambukir_encipher_end(
    key: u64,
    carried: u64,
    count: u32,
    out: &mut [u8],
) -> TextWritten
    ensures { (result ≡ text_written (written_of (end_written key carried count (length out.old))))
        × (out.new ≡ lent_after (end_written key carried count (length out.old)) out.old) }
{
    cell_file::encipher_end(key, carried, count, out).into()
}

#[unsafe(no_mangle)]
pub extern "C" fn lambukir_open_cell_file(
    file: &[u8],
    key1: u64,
    key2: u64,
    crc: u32,
    out: &mut [u8],
) -> FileOpened
    ensures { (result ≡ cell_file_opened (file_answer (opened_file file.now key1 key2 crc (length out.old))))
        × (out.new ≡ file_lent (opened_file file.now key1 key2 crc (length out.old)) out.old) }
{
    cell_opening::open_cell_file(file, key1, key2, crc, out).into()
}
