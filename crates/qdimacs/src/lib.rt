// QDIMACS 1.1: prenex questions in clauses, read into sheets.
#![tactic(auto)]

mod build;
mod check;

ghost use Rattle.sheet.specs.Told.{fault_number, length_told};
ghost use Rattle.qdimacs.specs.Reading.{Read};

use prenex::SHEET_BYTES;
use sheet::refusal::Fault;

// The most variables of a question that becomes a sheet.
const MOST_VARIABLES: u32 = 32;

// Reads a question into a sheet's buffer, and says how many bytes the sheet has. Nothing is written before all is known to be right.
pub fn read(text: &[u8], sheet: &mut [u8]) -> Result<usize, Fault>
    ensures { Read text.now sheet.old (fault_number result) (length_told result) sheet.new }
{
    if sheet.len() < SHEET_BYTES {
        return Err(Fault::NoRoom);
    }
    let header = check::check(text)?;
    if header.variables > MOST_VARIABLES {
        return Err(Fault::QuestionTooLarge);
    }
    let mut frames = [0u8; SHEET_BYTES];
    let size = build::build(text, header.at, &mut frames)?;
    sheet[..size].copy_from_slice(&frames[..size]);
    Ok(size)
}
