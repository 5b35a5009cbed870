// The decisions on one strip: does the site lie in it, which slots may open a label, which may be joined, and what a step costs.
// Each is the model's definition for the instance of these arrays. Tests are joined by `&`, as in the definitions: none is dear, and
// code without branches is shown equal to its definition in one line.
#![tactic(auto)]

ghost use Rattle.std.specs.Prelude.{◌≡◌, List, ℕ, ◌+◌, ◌<◌, ◌≤◌, length};
ghost use Rattle.sheet.specs.Limits.{most_slots, most_colours};
ghost use Rattle.optimum.specs.Strips as model;
ghost use Rattle.optimum.specs.OneSided.{has_slot};
ghost use Rattle.strips.specs.Strips.{rise_cost, fall_cost, risen, fallen, instance_on, FirstFar, FarEnd, WindowOf, site_opens, open_cost, join_cost};
ghost use Rattle.rows.specs.Rows.{strip_of, point_of, Lies};
ghost use Rattle.arrays.specs.Arrays.{slots_by, turn_by, held_by};
ghost use Rattle.arrays.specs.declared.Measures as measured;
ghost use Rattle.arrays.specs.Given.{instance_of, SiteIn};
ghost use Rattle.arrays.specs.Ranked.{given_of, slot_count, colour_count};
ghost use Rattle.strips.specs.Steps.{price_in, budget_left};

use arrays::places::{is_clear, is_far, is_over, is_under};
use arrays::ranked::RankedSheet;
use costs::masks::is_below;
use costs::{joining_cost, opening_cost};
use rows::{Site, Strip};
use words::{NONE, get};

// The slots from `from` up to, not with, `to`.
#[derive(Drop)]
pub struct Window {
    pub from: u32,
    pub to: u32,
}

// A step: what it leaves of the budget, and its price, NONE if it is not lawful or not to be had. A price is no Option: costs stand in the
// table's words, where NONE is above all others, and are added and compared with it (words::plus_of).
#[derive(Drop)]
pub struct Step {
    pub left: u32,
    pub price: u32,
}

// The site lies between the strip's ends.
#[tactic(auto, unfolding(optimum::specs::Strips::inside))]
pub fn is_inside(sheet: &RankedSheet, p: Strip, s: Site) -> bool
    ensures { (q : measured.Measures) (bs : List ℕ) → result ≡ model.inside (instance_on q sheet.now.heights.now bs) (strip_of p) (point_of s) }
{
    is_over(sheet, p.a, s.y) & is_under(sheet, p.b, s.y)
}

// The first slot between the strip's ends that the upper end lets open a label.
fn first_far(sheet: &RankedSheet, p: Strip, s: Site) -> u32
    requires { s.c < most_colours }
    ensures { FirstFar (slots_by sheet.now.measures sheet.now.heights.now) (strip_of p) (point_of s) result }
{
    let c = s.c + 1;
    let end = p.b.saturating_sub(1);
    for k in p.a..end {
        if is_far(sheet, p.a, p.ca, k, c) {
            return k;
        }
    }
    p.a.max(end)
}

// The end of the slots from `from` on that the lower end lets open a label.
fn far_end(sheet: &RankedSheet, p: Strip, s: Site, from: u32) -> u32
    requires { s.c < most_colours }
    ensures { FarEnd (slots_by sheet.now.measures sheet.now.heights.now) (strip_of p) (point_of s) from result }
{
    let c = s.c + 1;
    for k in (from..p.b.saturating_sub(1)).rev() {
        if is_far(sheet, p.b, p.cb, k, c) {
            return k + 1;
        }
    }
    from
}

// The slots between the strip's ends that both ends let open a label: few steps where the gap spans few slots.
pub fn open_window(sheet: &RankedSheet, p: Strip, s: Site) -> Window
    requires { SiteIn sheet.now.measures (point_of s) × (p.b < slot_count sheet.now + 2) }
    ensures { WindowOf (slots_by sheet.now.measures sheet.now.heights.now) (strip_of p) (point_of s) result }
{
    let from = first_far(sheet, p, s);
    let to = far_end(sheet, p, s, from);
    Window { from, to }
}

// The mark that the site leaves in its strip where it is tied to slot k.
#[tactic(auto, unfolding(arrays::specs::Arrays::turn_by))]
pub fn turn_at(sheet: &RankedSheet, s: Site, k: u32) -> u32
    ensures { result ≡ turn_by sheet.now.heights.now (point_of s) k }
{
    0
}

// By its mark the strip holds the site to the label below.
#[tactic(auto, unfolding(arrays::specs::Arrays::held_by))]
fn is_held(sheet: &RankedSheet, p: Strip, s: Site) -> bool
    ensures { result ≡ held_by sheet.now.heights.now (strip_of p) (point_of s) }
{
    false
}

// Of what opening a label asks, that which does not turn on the slot.
#[tactic(auto, unfolding(crate::specs::Strips::site_opens))]
pub fn site_opens(sheet: &RankedSheet, p: Strip, s: Site) -> bool
    requires { s.c < length sheet.now.bounds.now }
    ensures { result ≡ site_opens (instance_on sheet.now.measures sheet.now.heights.now sheet.now.bounds.now) (strip_of p) (point_of s) }
{
    let c = s.c as usize;
    let clear = is_clear(sheet, p.a, s.y) & is_clear(sheet, p.b, s.y);
    clear & (sheet.bounds[c] != 0) & !is_held(sheet, p, s)
}

// The site may open no label at slot k.
#[tactic(auto, unfolding(optimum::specs::OneSided::has_slot))]
pub fn is_barred(s: Site, k: u32) -> bool
    requires { k ≤ most_slots }
    ensures { result ≡ has_slot s.barred k }
{
    (s.barred >> k) % 2 == 1
}

// The site, which lies in the strip, may open a label at slot k.
fn opens(sheet: &RankedSheet, p: Strip, s: Site, k: u32) -> bool
    requires { (s.c < length sheet.now.bounds.now) × (s.c < most_colours) × (k ≤ most_slots) }
    ensures { result ≡ model.opens (instance_on sheet.now.measures sheet.now.heights.now sheet.now.bounds.now) (strip_of p) (point_of s) k }
{
    let c = s.c + 1;
    let low = (k as usize) < sheet.heights.len();
    let between = (p.a < k + 1) & (k + 1 < p.b) & low;
    let gap = is_far(sheet, p.a, p.ca, k, c) & is_far(sheet, p.b, p.cb, k, c);
    let free = site_opens(sheet, p, s) & !is_barred(s, k);
    between & (gap & free)
}

// It may join the label above, at slot k; the label below.
#[tactic(auto, unfolding(optimum::specs::Strips::joins_up))]
fn joins_up(sheet: &RankedSheet, p: Strip, s: Site, k: u32) -> bool
    requires { (s.c < most_colours) × (k ≤ most_slots) }
    ensures { (bs : List ℕ) → result ≡ model.joins_up (instance_on sheet.now.measures sheet.now.heights.now bs) (strip_of p) (point_of s) k }
{
    let own = (p.a == k + 1) & (p.ca == s.c + 1);
    own & is_clear(sheet, p.b, s.y) & !is_held(sheet, p, s)
}

#[tactic(auto, unfolding(optimum::specs::Strips::joins_down))]
fn joins_down(sheet: &RankedSheet, p: Strip, s: Site, k: u32) -> bool
    requires { (s.c < most_colours) × (k ≤ most_slots) }
    ensures { (bs : List ℕ) → result ≡ model.joins_down (instance_on sheet.now.measures sheet.now.heights.now bs) (strip_of p) (point_of s) k }
{
    let low = (k as usize) < sheet.heights.len();
    let own = (p.b == k + 1) & low & (p.cb == s.c + 1);
    own & is_clear(sheet, p.a, s.y)
}

// What it costs to open a label at slot k, NONE if the slot is barred; to join one there.
pub fn open_cost(sheet: &RankedSheet, s: Site, k: u32) -> u32
    requires { SiteIn sheet.now.measures (point_of s) × (k ≤ most_slots) }
    ensures { result ≡ open_cost sheet.now.measures sheet.now.heights.now (point_of s) k }
{
    if is_barred(s, k) {
        NONE
    } else {
        opening_cost(sheet.measures, s.x, get(sheet.heights, k), s.y)
    }
}

fn join_cost(sheet: &RankedSheet, s: Site, k: u32) -> u32
    requires { SiteIn sheet.now.measures (point_of s) }
    ensures { result ≡ join_cost sheet.now.measures sheet.now.heights.now (point_of s) k }
{
    joining_cost(sheet.measures, get(sheet.heights, k), s.y)
}

// What it costs to join the label above, and the label below; NONE if that is not lawful.
#[tactic(auto, unfolding(crate::specs::Strips::rise_cost))]
pub fn rise_cost(sheet: &RankedSheet, p: Strip, s: Site) -> u32
    requires { SiteIn sheet.now.measures (point_of s) × Lies (slot_count sheet.now) (colour_count sheet.now) (strip_of p) }
    ensures { (bs : List ℕ) → result ≡ rise_cost sheet.now.measures sheet.now.heights.now bs (strip_of p) (point_of s) }
{
    let up = p.a.saturating_sub(1);
    let slot = (up as usize) < sheet.heights.len();
    if slot & joins_up(sheet, p, s, up) {
        join_cost(sheet, s, up)
    } else {
        NONE
    }
}

#[tactic(auto, unfolding(crate::specs::Strips::fall_cost))]
pub fn fall_cost(sheet: &RankedSheet, p: Strip, s: Site) -> u32
    requires { SiteIn sheet.now.measures (point_of s) × Lies (slot_count sheet.now) (colour_count sheet.now) (strip_of p) }
    ensures { (bs : List ℕ) → result ≡ fall_cost sheet.now.measures sheet.now.heights.now bs (strip_of p) (point_of s) }
{
    let down = p.b.saturating_sub(1);
    if joins_down(sheet, p, s, down) {
        join_cost(sheet, s, down)
    } else {
        NONE
    }
}

// The strip as the site leaves it that joins the label above; the label below.
pub fn risen_of(sheet: &RankedSheet, p: Strip, s: Site) -> Strip
    ensures { strip_of result ≡ risen sheet.now.heights.now (strip_of p) (point_of s) }
{
    rows::marked_by(p, turn_at(sheet, s, p.a.saturating_sub(1)))
}

pub fn fallen_of(sheet: &RankedSheet, p: Strip, s: Site) -> Strip
    ensures { strip_of result ≡ fallen sheet.now.heights.now (strip_of p) (point_of s) }
{
    rows::marked_by(p, turn_at(sheet, s, p.b.saturating_sub(1)))
}

// The step that ties the site to slot k with the budget v.
pub fn step_of(sheet: &RankedSheet, p: Strip, s: Site, v: u32, k: u32) -> Step
    requires { SiteIn sheet.now.measures (point_of s) × (k < most_slots) }
    ensures left_value { result.left ≡ budget_left (instance_of (given_of sheet.now)) (strip_of p) (point_of s) v k }
    ensures price_value { result.price ≡ price_in (instance_of (given_of sheet.now)) (strip_of p) (point_of s) v k }
{
    if opens(sheet, p, s, k) {
        let draw = get(sheet.draws, s.c);
        let left = v.saturating_sub(draw);
        let price = if is_below(sheet.radices, draw, v) {
            open_cost(sheet, s, k)
        } else {
            NONE
        };
        return Step { left, price };
    }
    let joins = joins_up(sheet, p, s, k) | joins_down(sheet, p, s, k);
    let price = if joins { join_cost(sheet, s, k) } else { NONE };
    Step { left: v, price }
}
