// What one cut does below the chain record, on slices and numbers: the pair's decomposition at the front of the work slice, what is kept of its values, and the two sites made of its factors.
#![tactic(auto)]

ghost use Rattle.std.specs.Prelude.{◌≡◌, ◌*◌, ◌≤◌, is_err, length, take, MatchResult};
ghost use Rattle.model.specs.Slots.{filled};
ghost use Rattle.model.specs.Svd.{values};
ghost use Rattle.model.specs.Pair.{gated_theta, pair_svd, left_site, right_site};
ghost use Rattle.cutting.specs.Shape.{shaped, shape_of, room, matrix_for, standing, nan_in, Stands, Made, left_factor, right_factor};
ghost use Rattle.cutting.specs.Kept.{KeptOf};

use fills::{
    Columns, Factor, fill_isometry_site_data, fill_scaled_u_site_data, fill_scaled_vt_data,
    fill_vt_site_data,
};
use model::{Bonds, Reason, WeightSide};
use pair::Neighbours;
use svd::{sorted_values, svd_jacobi};
use truncation::{discarded_share, discards_resolvable_weight, truncated_svd_rank};

// ---- the decomposition

// Whether the conjugate transpose is decomposed, the rows and columns of what is, and the place of the first value, behind the matrix and the rotations.
#[derive(Clone, Copy)]
pub struct Shape {
    pub adjoint: bool,
    pub high: usize,
    pub wide: usize,
    pub vals: usize,
}

// The shape of a matrix of so many rows and columns.
fn with_rows(adjoint: bool, high: usize, wide: usize) -> Shape
    requires { (high ≤ 256) × (wide ≤ 256) }
    ensures { result ≡ shaped adjoint high wide }
{
    Shape {
        adjoint,
        high,
        wide,
        vals: wide * high + wide * wide,
    }
}

// The shape for a pair of outer bonds bl and br.
#[tactic(auto, unfolding(crate::specs::Shape::shape_of))]
fn shape_of(bl: usize, br: usize) -> Shape
    requires { (bl ≤ 128) × (br ≤ 128) }
    ensures { result ≡ shape_of bl br }
{
    if 2 * bl < 2 * br {
        with_rows(true, 2 * br, 2 * bl)
    } else {
        with_rows(false, 2 * bl, 2 * br)
    }
}

// The gate on the two sites' contraction, as the matrix that is decomposed.
#[tactic(auto, unfolding(crate::specs::Shape::matrix_for))]
fn contract_pair(adjoint: bool, pair: &Neighbours, out: &mut [f64])
    requires { length out.old ≡ 2 * (2 * pair.now.bonds.right * (2 * pair.now.bonds.left)) }
    ensures { out.new ≡ matrix_for adjoint pair.now.bonds.left pair.now.bonds.right (gated_theta pair.now.gate.now pair.now.bonds.mid pair.now.bonds.right pair.now.left.now pair.now.right.now) }
{
    if adjoint {
        pair.contract::<true>(out);
    } else {
        pair.contract::<false>(out);
    }
}

// A decomposition at the front of the work slice: its shape, and the order of its values.
#[derive(Clone, Copy)]
pub struct Decomposed {
    pub shape: Shape,
    pub order: [u8; 256],
}

// The pair with the gate on it, decomposed at the front of the work slice. Answers the decomposition: as `Ok`, or as `Err` where one of its values is a NaN. Here and in kept_values the settings
// stay single numbers: kernels below moves take slices and numbers, and may not name the record that holds the settings.
#[tactic(auto, using(crate::specs::Shape::shape_columns, crate::specs::Shape::shape_most, crate::specs::Shape::shape_cells, crate::specs::Shape::shape_room, crate::proofs::Lent::lengths, crate::proofs::Lent::nan_told, crate::proofs::Lent::begins_told))]
pub fn decompose(pair: &Neighbours, work: &mut [f64], clamp: f64) -> Result<Decomposed, Decomposed>
    requires le_left { (1 ≤ pair.now.bonds.left) × (1 ≤ pair.now.bonds.right) }
    requires work_bound { room (shape_of pair.now.bonds.left pair.now.bonds.right) ≤ length work.old }
    ensures nan { let d = pair_svd clamp pair.now.bonds.left pair.now.bonds.mid pair.now.bonds.right pair.now.gate.now pair.now.left.now pair.now.right.now in is_err result ≡ nan_in d }
    ensures work_after { let d = pair_svd clamp pair.now.bonds.left pair.now.bonds.mid pair.now.bonds.right pair.now.gate.now pair.now.left.now pair.now.right.now in take (room (shape_of pair.now.bonds.left pair.now.bonds.right)) work.new ≡ d.w }
    ensures made { let d = pair_svd clamp pair.now.bonds.left pair.now.bonds.mid pair.now.bonds.right pair.now.gate.now pair.now.left.now pair.now.right.now in MatchResult result (Made pair.now.bonds.left pair.now.bonds.right d work.new) (Made pair.now.bonds.left pair.now.bonds.right d work.new) }
{
    let s = shape_of(pair.bonds.left, pair.bonds.right);
    let m = 2 * (s.wide * s.high);
    let end = 2 * (s.vals + s.wide);
    contract_pair(s.adjoint, pair, &mut work[..m]);
    match svd_jacobi(&mut work[..end], s.high, s.wide, clamp) {
        Ok(order) => Ok(Decomposed { shape: s, order }),
        Err(order) => Err(Decomposed { shape: s, order }),
    }
}

// ---- what is kept

// How many values, why so many, whether one above the resolution is dropped, and the share of the weight that is.
#[derive(Clone, Copy)]
pub struct Kept {
    pub chi: usize,
    pub reason: Reason,
    pub resolvable: bool,
    pub share: Option<f64>,
}

// Of the values s, in order.
fn keep(s: &[f64], epsilon: f64, max_bond_dim: usize) -> Kept
    ensures { KeptOf epsilon max_bond_dim s.now result }
{
    let ranked = truncated_svd_rank(s, epsilon, max_bond_dim);
    let chi = ranked.chi;
    Kept {
        chi,
        reason: ranked.reason,
        resolvable: discards_resolvable_weight(s, chi),
        share: discarded_share(s, chi),
    }
}

// Of the decomposition in the work slice.
// Here and in the two stores `Stands` is required: the work slice is lent, and what stands in it changes between the calls, so that no value carries the fact.
pub fn kept_values(work: &[f64], d: &Decomposed, epsilon: f64, max_bond_dim: usize) -> Kept
    requires { (1 ≤ max_bond_dim) × Stands d.now.shape work.now d.now.order }
    ensures kept_of { KeptOf epsilon max_bond_dim (values (standing d.now.shape work.now d.now.order)) result }
    ensures le_chi { (1 ≤ result.chi) × (result.chi ≤ max_bond_dim) × (result.chi ≤ d.now.shape.wide) }
{
    let s = d.shape;
    let n = s.wide;
    let end = 2 * (s.vals + n);
    let mut all = [0.0; 256];
    sorted_values(&work[..end], s.vals, &d.order, &mut all[..n]);
    keep(&all[..n], epsilon, max_bond_dim)
}

// ---- the two sites

// The rotations of a conjugate transpose, else the matrix itself.
fn left_factor(s: Shape) -> Factor
    requires { (s.high ≤ 256) × (s.wide ≤ 256) }
    ensures { result ≡ left_factor s }
{
    if s.adjoint {
        Factor {
            base: s.wide * s.high,
            stride: s.wide,
        }
    } else {
        Factor {
            base: 0,
            stride: s.high,
        }
    }
}

// The other of the two.
fn right_factor(s: Shape) -> Factor
    requires { (s.high ≤ 256) × (s.wide ≤ 256) }
    ensures { result ≡ right_factor s }
{
    let adjoint = !s.adjoint;
    left_factor(Shape { adjoint, ..s })
}

// The left site of the decomposition in the work slice. The bonds are those after the cut: the one between the sites is how many values are kept.
#[tactic(auto, using(crate::specs::Shape::left_stride, crate::specs::Shape::value_in))]
pub fn store_left(slot: &mut [f64], work: &[f64], d: &Decomposed, side: WeightSide, bonds: Bonds)
    requires left_bound { (bonds.left ≤ 128) × (bonds.mid ≤ 256) × (2 * (2 * bonds.left * bonds.mid) ≤ length slot.old) }
    requires d_value { (d.now.shape ≡ shape_of bonds.left bonds.right) × Stands d.now.shape work.now d.now.order }
    ensures { slot.new ≡ filled (length slot.old) (left_site side bonds.left bonds.mid (standing d.now.shape work.now d.now.order)) }
{
    let s = d.shape;
    let end = 2 * (s.vals + s.wide);
    let u = Columns {
        numbers: &work[..end],
        order: &d.order,
        factor: left_factor(s),
        kept: bonds.mid,
    };
    match side {
        WeightSide::Left => fill_scaled_u_site_data(slot, u, s.vals, bonds.left),
        WeightSide::Right => fill_isometry_site_data(slot, u, bonds.left),
    }
}

// The right site.
#[tactic(auto, using(crate::specs::Shape::right_stride, crate::specs::Shape::value_in))]
pub fn store_right(slot: &mut [f64], work: &[f64], d: &Decomposed, side: WeightSide, bonds: Bonds)
    requires right_bound { (bonds.right ≤ 128) × (bonds.mid ≤ 256) × (2 * (bonds.mid * (2 * bonds.right)) ≤ length slot.old) }
    requires d_value { (d.now.shape ≡ shape_of bonds.left bonds.right) × Stands d.now.shape work.now d.now.order }
    ensures { slot.new ≡ filled (length slot.old) (right_site side bonds.mid bonds.right (standing d.now.shape work.now d.now.order)) }
{
    let s = d.shape;
    let end = 2 * (s.vals + s.wide);
    let v = Columns {
        numbers: &work[..end],
        order: &d.order,
        factor: right_factor(s),
        kept: bonds.mid,
    };
    match side {
        WeightSide::Left => fill_vt_site_data(slot, v, bonds.right),
        WeightSide::Right => fill_scaled_vt_data(slot, v, s.vals, bonds.right),
    }
}
