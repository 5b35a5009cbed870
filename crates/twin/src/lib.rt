// The twin tool: a stored sheet's one-sided twin in a lent area. Stored two-sided sheets end with it; document 02, request (n).
#![tactic(auto)]

mod length;
mod writing;

ghost use Rattle.std.specs.Prelude.{◌≡◌};
ghost use Rattle.labelling.specs.Twin.{twin_area};
ghost use Rattle.faults.specs.Results.{written_of};
ghost use Rattle.twin.specs.Twin.{twin_post};

use crate::writing::write_words;
use faults::refusal::Refusal;
use faults::written::{Written, area_fault};
use judge::opened::open_stored;

// How many words of the twin were written, or the refusal.
fn write_twin(stored: &[u32], out: &mut [u32]) -> Result<u32, Refusal>
    ensures value { written_of result ≡ twin_post stored.now out.old }
    ensures out_after { out.new ≡ twin_area stored.now out.old }
{
    let opened = open_stored(stored)?;
    area_fault(stored.len(), out.len())?;
    write_words(stored, &opened, out);
    Ok(stored.len() as u32)
}

// Refused: 1 to 7, 11, 13; then 9, the area is shorter than the stored sheet. Written are the words of the twin.
pub fn make_twin(stored: &[u32], out: &mut [u32]) -> Written
    ensures value { result ≡ twin_post stored.now out.old }
    ensures out_after { out.new ≡ twin_area stored.now out.old }
{
    Written::from(write_twin(stored, out))
}
