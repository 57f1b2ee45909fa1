// The Born weights of a site, the outcome that a draw picks, and the site projected on an outcome or
// reset from it. A site's amplitudes stand at the front of its slot, by left index, bit and right
// index; the rest of a rewritten slot is +0.
#![tactic(auto, using(complex::specs::Loops::each_none, complex::specs::Loops::each_more, crate::specs::Kept::kept_pair_lem, crate::specs::Kept::kept_none, crate::specs::Kept::kept_more, crate::specs::Kept::kept_filled, crate::specs::Kept::collapsed), unfolding(model::specs::Born::weight, crate::specs::Kept::keep_step))]

ghost use Rattle.std.specs.Prelude.{◌≡◌, ◌++◌, ◌+◌, ◌*◌, ◌≤◌, ◌<◌, cond, length, drop};
ghost use Rattle.std.specs.Float.Ieee as ieee;
ghost use Rattle.std.specs.Float.{binary64};
ghost use Rattle.complex.specs.Complex.{mul_c, zero_c};
ghost use Rattle.complex.specs.Numbers.{count, at, store};
ghost use Rattle.model.specs.Slots.{filled};
ghost use Rattle.model.specs.Born.{bit_of, weight as weight_of, rescale, projected_site, reset_site};
ghost use Rattle.born.specs.Kept.{kept_pair, kept_site};

use columns::{clear_from, sum_squares};
use complex::{Complex, complex_at, set_complex};
use root::root;

// The first of the br numbers at bit o, among the two rows of a left index.
fn row_at(o: bool, br: usize) -> usize
    ensures value { result ≡ bit_of o * br }
    ensures upper_bound { result ≤ br }
{
    usize::from(o) * br
}

// The Born weight of outcome o, not divided by the total of both: each left index is summed first.
pub fn weight(site: &[f64], bl: usize, br: usize, o: bool) -> f64
    requires br_bound { bl * (2 * br) ≤ count site.now }
    requires bl_bound { (bl ≤ 128) × (br ≤ 128) }
    ensures { result ≡ weight_of bl br site.now o }
{
    let row = row_at(o, br);
    let mut sum = 0.0;
    for a in 0..bl {
        sum += sum_squares(site, a * (2 * br) + row, br);
    }
    sum
}

// The outcome that a draw picks, from the weights of both.
pub fn drawn(draw: f64, w0: f64, w1: f64) -> bool
    ensures { result ≡ ieee.lt (ieee.mul binary64 draw (ieee.add binary64 w0 w1)) w1 }
{
    draw * (w0 + w1) < w1
}

// Number t becomes number f times `by`, and number u +0.
fn keep_number(pair: &mut [f64], f: usize, t: usize, u: usize, by: Complex)
    requires f_bound { f < count pair.old }
    requires t_bound { (t < count pair.old) × (u < count pair.old) }
    ensures { pair.new ≡ store (store pair.old u zero_c) t (mul_c (at pair.old f) by) }
{
    let z = complex_at(pair, f) * by;
    set_complex(pair, u, Complex::ZERO);
    set_complex(pair, t, z);
}

// The two rows of a left index: row `to` becomes row `from` times `by`, the other row +0. Each number
// is read before anything is stored in its place.
fn keep_row(pair: &mut [f64], br: usize, from: bool, to: bool, by: Complex)
    requires { length pair.old ≡ 4 * br }
    ensures { pair.new ≡ kept_pair br from to by pair.old }
{
    let f = row_at(from, br);
    let t = row_at(to, br);
    let u = row_at(!to, br);
    for b in 0..br {
        keep_number(pair, f + b, t + b, u + b, by);
    }
}

// The same for each left index of a site.
fn keep_rows(slot: &mut [f64], bl: usize, br: usize, from: bool, to: bool, by: Complex)
    requires br_bound { bl * (2 * br) ≤ count slot.old }
    requires bl_bound { (bl ≤ 128) × (br ≤ 128) }
    ensures { slot.new ≡ kept_site bl br from to by slot.old ++ drop (bl * (4 * br)) slot.old }
{
    for a in 0..bl {
        let s = a * (4 * br);
        let e = s + 4 * br;
        keep_row(&mut slot[s..e], br, from, to, by);
    }
}

// The amplitudes of bit `from`, divided by the root of their weight, at bit `to`; the others, and the
// rest of the slot, become +0.
fn keep(slot: &mut [f64], bl: usize, br: usize, from: bool, to: bool, w: f64)
    requires br_bound { bl * (2 * br) ≤ count slot.old }
    requires bl_bound { (bl ≤ 128) × (br ≤ 128) }
    ensures { slot.new ≡ filled (length slot.old) (kept_site bl br from to (rescale w) slot.old) }
{
    let by = Complex::from(1.0 / root(w));
    keep_rows(slot, bl, br, from, to, by);
    clear_from(slot, bl * (4 * br));
}

// A site projected on outcome o, whose weight is w. TO_ZERO: the site reset from that outcome, so that
// its amplitudes go to bit 0. The bonds stay parameters here and above: the slot is lent and written, so
// that a struct could carry no more of them than the bound of two numbers.
pub fn collapse<const TO_ZERO: bool>(slot: &mut [f64], bl: usize, br: usize, o: bool, w: f64)
    requires br_bound { bl * (2 * br) ≤ count slot.old }
    requires bl_bound { (bl ≤ 128) × (br ≤ 128) }
    requires w_value { w ≡ weight_of bl br slot.old o }
    ensures { slot.new ≡ filled (length slot.old) (cond TO_ZERO (reset_site bl br o slot.old) (projected_site bl br o slot.old)) }
{
    keep(slot, bl, br, o, !TO_ZERO & o, w);
}
