// A sheet's words as a list: those after the head and the charge, how many are of a kind, how many sites follow a colour at once.
ghost use Rattle.std.specs.Prelude.{◌≡◌, drop};
ghost use Rattle.sheet.specs.Sheet.{body_at, body_of, sites_run};
ghost use Rattle.sheet.specs.Words.{count_kind};
ghost use Rattle.words.specs.Kinds.{kind_number};

use crate::charge::has_charge;
use crate::kinds::{Kind, is_kind};

// The place of the first word after the head and the charge.
pub fn body_at(sheet: &[u32]) -> usize
    ensures { result ≡ body_at sheet.now }
{
    if has_charge(sheet) { 2 } else { 1 }
}

// The words from there on.
pub fn body_of(sheet: &[u32]) -> &[u32]
    ensures { result.now ≡ body_of sheet.now }
{
    let at = body_at(sheet).min(sheet.len());
    &sheet[at..]
}

// The words of a kind. Each adds 0 or 1, with no branch: several words are looked at at a time.
pub fn count_kind(words: &[u32], kind: Kind) -> usize
    ensures { result ≡ count_kind (kind_number kind) words.now }
{
    let mut count = 0;
    for w in words {
        count += usize::from(is_kind(*w, kind));
    }
    count
}

// How many sites follow at once from a place on; none from a place past the end.
#[tactic(auto, unfolding(sheet::specs::Sheet::sites_run))]
pub fn sites_run(words: &[u32], from: usize) -> usize
    ensures { result ≡ sites_run (drop from words.now) }
{
    for i in from..words.len() {
        if !is_kind(words[i], Kind::Site) {
            return i - from;
        }
    }
    words.len().saturating_sub(from)
}
