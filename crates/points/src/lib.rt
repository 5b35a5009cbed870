// Whole numbers of units as 32-bit floats in points: one point is eight units, and nothing is lost. A stroke in points, and as C has it.
// What has a `requires` here is internal to strokes: it asks for numbers as small as those of an accepted sheet, and of a wall chart.
#![tactic(auto)]

pub mod flat;
pub mod stroke;

ghost use Rattle.std.specs.Prelude.{◌≡◌, ◌≤◌};
ghost use Rattle.points.specs.Points.{widest_number, in_points};

pub fn in_points(n: u32) -> f32
    requires { n ≤ widest_number }
    ensures { result ≡ in_points n }
{
    let units = n as f32;
    units / 8.0
}
