// How many bytes a page has.
ghost use Rattle.std.specs.Prelude.{◌≡◌, ◌<◌};
ghost use Rattle.sheet.specs.Limits.{top_word};
ghost use Rattle.sizes.specs.Pages.{bytes_for};

// Every line is so many columns and a line feed.
pub const LINE_COLUMNS: usize = 40;

const LINE_BYTES: usize = LINE_COLUMNS + 1;

// A line for each label and each site, and the last.
pub fn bytes_for(labels: usize, sites: usize) -> usize
    requires { (labels < top_word) × (sites < top_word) }
    ensures { result ≡ bytes_for labels sites }
{
    LINE_BYTES * (labels + sites + 1)
}
