// A stroke in points, from whole numbers.
ghost use Rattle.std.specs.Prelude.{◌≡◌, not, ◌≤◌, eqb};
ghost use Rattle.labelling.specs.Strokes.{end_at};
ghost use Rattle.labelling.specs.Strokes as units;
ghost use Rattle.points.specs.Points.{widest_number};
ghost use Rattle.points.specs.Strokes.{end_drawn, drawn};

use crate::in_points;

// An end of a stroke: x and y in points.
#[derive(Clone, Copy)]
pub struct End {
    pub x: f32,
    pub y: f32,
}

// A backbone from its left end to W; a drop from its site to its backbone.
#[derive(Clone, Copy)]
pub enum Stroke {
    Bone(End, End),
    Drop(End, End),
}

fn end_at(x: u32, y: u32) -> End
    requires { (x ≤ widest_number) × (y ≤ widest_number) }
    ensures { result ≡ end_drawn (end_at x y) }
{
    End {
        x: in_points(x),
        y: in_points(y),
    }
}

// The backbone at a height, from its left end to W.
pub fn bone(left: u32, width: u32, height: u32) -> Stroke
    requires { (left ≤ widest_number) × (width ≤ widest_number) × (height ≤ widest_number) }
    ensures { result ≡ drawn (units.Bone (end_at left height) (end_at width height)) }
{
    Stroke::Bone(end_at(left, height), end_at(width, height))
}

// The drop of a site, from the site to the height of its backbone.
pub fn drop(x: u32, y: u32, height: u32) -> Stroke
    requires { (x ≤ widest_number) × (y ≤ widest_number) × (height ≤ widest_number) }
    ensures { result ≡ drawn (units.Drop (end_at x y) (end_at x height)) }
{
    Stroke::Drop(end_at(x, y), end_at(x, height))
}

// Whether a site is off its backbone: a drop of zero gives no stroke.
pub fn is_off(height: u32, y: u32) -> bool
    ensures { result ≡ not (eqb height y) }
{
    height != y
}
