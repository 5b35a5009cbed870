// A site's drop and its share of the length. A rule of the project names the form of a drop: an i32 from two heights, its magnitude by a
// helper with negation. So neither `abs_diff` of the heights nor `unsigned_abs` stands here.
ghost use Rattle.std.specs.Prelude.{◌≡◌, ◌<◌, pos, nat_abs, ◌-ℤ◌};
ghost use Rattle.labelling.specs.Layout.{share_by};
ghost use Rattle.lists.specs.Signs.{sign_top};

// A site's drop: its slot's height less its own, below zero when the backbone lies above it.
pub fn drop_of(h: u32, y: u32) -> i32
    requires { (h < sign_top) × (y < sign_top) }
    ensures { result ≡ pos h -ℤ pos y }
{
    h as i32 - y as i32
}

// A drop without its sign.
pub fn magnitude(d: i32) -> u32
    requires { nat_abs d < sign_top }
    ensures { result ≡ nat_abs d }
{
    if d < 0 { (-d) as u32 } else { d as u32 }
}

// A site's share of the length, by the charge, the height of its slot and its own: none on its backbone, else its drop without the sign and the
// charge.
#[tactic(auto, unfolding(labelling::specs::Layout::share_by, labelling::specs::Layout::off_by))]
pub fn share_of(charge: u32, h: u32, y: u32) -> u32
    requires { (charge < sign_top) × (h < sign_top) × (y < sign_top) }
    ensures { result ≡ share_by charge h y }
{
    if h == y {
        return 0;
    }
    magnitude(drop_of(h, y)) + charge
}
