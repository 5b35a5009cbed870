// The length that a layout's ties have on the one-sided sheet.
ghost use Rattle.std.specs.Prelude.{◌≡◌};
ghost use Rattle.labelling.specs.Layout.{length_of, layout_ties};
ghost use Rattle.labelling.specs.Twin.{as_one_sided};
ghost use Rattle.decoding.specs.Decoding.{sheet_by};
ghost use Rattle.twin.specs.Twin.{head_one_sided};

use judge::opened::Opened;
use layouts::rule_6::totals_of;
use layouts::sites::TiedSites;
use words::tied::Head;

// What a sheet's head and charge say, but one-sided.
fn one_sided(h: Head) -> Head
    ensures { result ≡ head_one_sided h }
{
    Head {
        twosided: false,
        ..h
    }
}

pub fn one_sided_length(opened: &Opened) -> u32
    ensures { result ≡ length_of (as_one_sided (sheet_by opened.now.numbers)) (layout_ties opened.now.layout.now) }
{
    let sites = opened.sites();
    // Field by field: a struct with a ghost field takes no `..`.
    let one_sided = TiedSites {
        head: one_sided(sites.head),
        heights: sites.heights,
        sites: sites.sites,
        ties: sites.ties,
    };
    totals_of(&one_sided).length
}
