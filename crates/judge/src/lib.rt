// The judge: a refusal, or the least broken rule of a stored sheet.
#![tactic(auto)]

pub mod opened;
pub mod refusal_11;

ghost use Rattle.std.specs.Prelude.{◌≡◌};
ghost use Rattle.judge.specs.Judge.{judge_post};

use crate::opened::open_layout;
use layouts::rule::Rule;

// A C struct, so refusal and rule are numbers.
// refusal: 1 to 7 or 11, 0 for none. rule: the least broken one, 0 for none and beside a refusal.
#[repr(C)]
#[derive(Drop)]
pub struct Verdict {
    pub refusal: u8,
    pub rule: u8,
}

pub fn judge_layout(stored: &[u32]) -> Verdict
    ensures { result ≡ judge_post stored.now }
{
    match open_layout(stored) {
        Ok(opened) => Verdict {
            refusal: 0,
            rule: opened.broken_rule().map_or(0, Rule::number),
        },
        Err(refusal) => Verdict {
            refusal: refusal.number(),
            rule: 0,
        },
    }
}
