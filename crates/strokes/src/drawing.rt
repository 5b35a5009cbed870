// The backbone of a slot and the drop of a site, from a stored sheet that was opened.
ghost use Rattle.std.specs.Prelude.{◌≡◌, ◌<◌};
ghost use Rattle.labelling.specs.Layout.{layout_ties, tie_at};
ghost use Rattle.labelling.specs.Strokes.{bone_of, drop_of};
ghost use Rattle.decoding.specs.Decoding.{sheet_by};
ghost use Rattle.points.specs.Strokes.{drawn};

use judge::opened::Opened;
use points::stroke::{Stroke, bone, drop};
use words::get;

pub fn bone_of(opened: &Opened, slot: u32) -> Stroke
    ensures { result ≡ drawn (bone_of (sheet_by opened.now.numbers) (layout_ties opened.now.layout.now) slot) }
{
    let height = get(&opened.numbers.heights, slot);
    bone(opened.left_end(slot), opened.numbers.head.width, height)
}

pub fn drop_of(opened: &Opened, i: usize) -> Stroke
    requires { i < opened.now.numbers.sites }
    ensures { result ≡ drawn (drop_of (sheet_by opened.now.numbers) (tie_at (sheet_by opened.now.numbers) (layout_ties opened.now.layout.now) i)) }
{
    let sites = opened.sites();
    let height = get(sites.heights, sites.slot_at(i));
    let site = sites.site_at(i);
    drop(site.x, site.y, height)
}
