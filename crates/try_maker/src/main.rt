// The layout maker on the drawn examples of document 01, and on small sheets beside a plain search.
// The file stdout is worked out from documents 01 and 02, the counts by rust/model/tests/recipe.
#![tactic(auto)]

mod compare;
mod examples;

use cases::{TEXT_BYTES, print_counts};
use compare::count_sheets;
use examples::lay_out_lines;
use std::io;
use stream::read_full;

fn main(rt: HostRuntime) -> io::Result<()> {
    let mut text = [0u8; TEXT_BYTES];
    let got = read_full(&mut rt.stdin(), &mut text)?;
    let text = &text[..got];
    lay_out_lines(&rt, text)?;
    print_counts(&rt, text, &count_sheets())
}
