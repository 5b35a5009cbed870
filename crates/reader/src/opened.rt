// A sheet opened: its numbers, or its refusal. Every operation on a sheet begins here; after it the words are not taken apart again.
ghost use Rattle.std.specs.Prelude.{◌≡◌};
ghost use Rattle.reader.specs.Opened.{opened_of, sheet_opened};

use crate::order::sheet_fault;
use decoding::{Numbers, numbers_of};
use faults::refusal::Refusal;

// The numbers of an accepted sheet, or a refusal 1 to 7.
#[inline]
pub fn open_sheet(sheet: &[u32]) -> Result<Numbers, Refusal>
    ensures { opened_of result ≡ sheet_opened sheet.now }
{
    sheet_fault(sheet)?;
    Ok(numbers_of(sheet))
}
