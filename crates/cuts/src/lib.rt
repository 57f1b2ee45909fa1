// Cuts of neighbouring sites with the chain record: one attempt, and a second with a centre where weight would be lost.
#![tactic(auto)]

ghost use Rattle.std.specs.Prelude.{◌≡◌, true, ◌||◌, ◌+◌, ◌^◌, ◌<◌, ◌≤◌, IfOk, IfErr, IfSome, is_none, ltb};
ghost use Rattle.model.specs.Slots.{with_site};
ghost use Rattle.model.specs.Truncation.{recorded, cut_rank, workspace};
ghost use Rattle.model.specs.Pair.{left_site, right_site};
ghost use Rattle.model.specs.Moves.{prepared, prepared_on};
ghost use Rattle.model.specs.Cut.{known, can_lose, keeps_centre, pair_of, weight_site, adjacent, adjacent_reason};
ghost use Rattle.truncation.specs.Shares.{shares_of};
ghost use Rattle.cutting.specs.Shape.{shape_of, standing, nan_in, Stands, Made};
ghost use Rattle.moves.specs.Mps.{state, Same, Becomes};
ghost use Rattle.moves.specs.Bonds.{pair_bonds, Bytes};
ghost use Rattle.moves.specs.Steps.{Pair};
ghost use Rattle.cuts.specs.Pair.{recorded_cut};
ghost use Rattle.cuts.specs.Answered.{answered, answered_by};
ghost use Rattle.cuts.specs.Attempts.{CutOf, Storable, stored_by, prepared_by};

use complex::Complex;
use cutting::{Decomposed, Kept, decompose, kept_values, store_left, store_right};
use model::{Applied, Bonds, Chain, WeightSide};
use moves::{Mps, pair_bonds, pair_slots, set_bond};
use pair::Neighbours;

// ---- the tests before a cut

// Whether a cut of these bonds needs more numbers than the setting allows. Bonds that are bytes need
// fewer than 2^63, so that from 63 on every exponent allows the same.
#[tactic(auto, using(crate::specs::Pair::shifted))]
fn workspace_exceeded(workspace_exponent: u8, bonds: Bonds) -> bool
    requires { Bytes bonds }
    ensures { result ≡ ltb (2 ^ workspace_exponent) (workspace bonds.left bonds.mid bonds.right) }
{
    let allowed: usize = 1 << workspace_exponent.min(63);
    allowed < 20 * bonds.left * bonds.right + 2 * bonds.mid * bonds.right
}

// Whether a cut of so many values can reach the cap, or drop values under a threshold where bonds have reached 128.
fn cut_can_lose(chain: &Chain, values: usize) -> bool
    ensures { result ≡ can_lose chain.now values }
{
    (chain.max_bond_dim < values)
        | ((0.0 < chain.svd_epsilon) & ((128 <= values) | (128 <= chain.bond_high_water)))
}

// Whether a cut of these bonds keeps a centre: one is recorded, or the cut can lose weight.
fn keeps_center(chain: &Chain, bonds: Bonds) -> bool
    requires { Bytes bonds }
    ensures { result ≡ (known chain.now.center || can_lose chain.now (cut_rank bonds.left bonds.mid bonds.right)) }
{
    let values = (2 * bonds.left.min(bonds.right)).min(4 * bonds.mid);
    chain.center.is_some() | cut_can_lose(chain, values)
}

// ---- one cut

// The pair k, k + 1 with the gate on it, decomposed at the front of the work slice; nothing where one of its values is a NaN.
#[tactic(auto, using(moves::specs::Ready::pair_ready, crate::specs::Pair::work_enough, crate::specs::Pair::left_numbers, crate::specs::Pair::right_numbers))]
fn decompose_pair(mps: &mut Mps, gate: [[Complex; 4]; 4], k: usize) -> Option<Decomposed>
    requires { k + 1 < mps.old.chain.now.num_qubits }
    ensures unchanged { state mps.new ≡ state mps.old }
    ensures nan { is_none result ≡ nan_in (pair_of gate k (state mps.new)) }
    ensures made { let b = pair_bonds mps.new.chain.now k in IfSome result (Made b.left b.right (pair_of gate k (state mps.new)) mps.new.work.now) }
    ensures place { Same mps.old mps.new }
{
    let at = pair_slots(mps.chain.max_bond_dim, k);
    let store = &mut *mps.store;
    let work = &mut *mps.work;
    let pair = Neighbours {
        left: &store[at.left..at.left_end],
        right: &store[at.right..at.right_end],
        gate: &gate,
        bonds: pair_bonds(mps.chain, k),
    };
    decompose(&pair, work, mps.chain.norm_clamp_min).ok()
}

// A decomposition, and what is kept of its values.
#[derive(Clone, Copy)]
struct Cut {
    pair: Decomposed,
    kept: Kept,
}

// The cut of the sites k and k + 1 as they stand, before anything is stored; refused by 7 at a NaN among its values.
fn cut_pair(mps: &mut Mps, gate: [[Complex; 4]; 4], k: usize) -> Result<Cut, u8>
    requires { k + 1 < mps.old.chain.now.num_qubits }
    ensures unchanged { state mps.new ≡ state mps.old }
    ensures nan { IfErr result (λ n. (n ≡ 7) × (nan_in (pair_of gate k (state mps.new)) ≡ true)) }
    ensures cut { IfOk result (CutOf gate k (state mps.new) mps.new.work.now) }
    ensures storable { IfOk result (Storable k mps.new.chain.now mps.new.work.now) }
    ensures place { Same mps.old mps.new }
{
    let pair = decompose_pair(mps, gate, k).ok_or(7)?;
    let work = &mut *mps.work;
    let kept = kept_values(work, &pair, mps.chain.svd_epsilon, mps.chain.max_bond_dim);
    Ok(Cut { pair, kept })
}

// The two sites of the decomposition. The bonds are those after the cut: the one between the sites is how many values are kept.
// `Pair` and `Stands` are required: the slices are lent, and what stands in them changes between the calls, so that no value carries the fact.
fn store_pair(
    store: &mut [f64],
    work: &[f64],
    pair: &Decomposed,
    side: WeightSide,
    d: usize,
    k: usize,
    bonds: Bonds,
)
    requires room { Pair d k bonds.left bonds.mid bonds.right store.old work.now }
    requires pair_value { (pair.now.shape ≡ shape_of bonds.left bonds.right) × Stands pair.now.shape work.now pair.now.order }
    ensures { store.new ≡ with_site d (k + 1) (right_site side bonds.mid bonds.right (standing pair.now.shape work.now pair.now.order)) (with_site d k (left_site side bonds.left bonds.mid (standing pair.now.shape work.now pair.now.order)) store.old) }
{
    let at = pair_slots(d, k);
    store_left(&mut store[at.left..at.left_end], work, pair, side, bonds);
    store_right(&mut store[at.right..at.right_end], work, pair, side, bonds);
}

// A weight discarded so far, with a cut's share added. No share is not a share of 0, since -0 + 0 is another number.
fn add_share(discarded: f64, share: Option<f64>) -> f64
    ensures { result ≡ recorded discarded (shares_of share) }
{
    match share {
        None => discarded,
        Some(x) => discarded + x,
    }
}

// The record after a cut, the centre aside: bond, widest bond, discarded weight of the chain and of the bond.
fn record_cut(chain: &mut Chain, k: usize, kept: Kept)
    requires { (k < 63) × (kept.chi ≤ 128) }
    ensures { chain.new ≡ recorded_cut chain.old k kept.chi (shares_of kept.share) chain.old.center }
{
    set_bond(chain, k, kept.chi);
    chain.bond_high_water = chain.bond_high_water.max(kept.chi);
    chain.truncation_discarded = add_share(chain.truncation_discarded, kept.share);
    chain.bond_discarded[k] = add_share(chain.bond_discarded[k], kept.share);
}

// The cut stored, its weight on one side; the centre stays where it is recorded.
#[tactic(auto, using(moves::specs::Ready::pair_ready, crate::specs::Pair::pair_with))]
fn store_cut(mps: &mut Mps, cut: &Cut, k: usize, side: WeightSide)
    requires k_bound { k + 1 < mps.old.chain.now.num_qubits }
    requires cut_value { Storable k mps.old.chain.now mps.old.work.now cut.now }
    ensures { Becomes (stored_by side k mps.old.work.now cut.now mps.old.chain.now.center (state mps.old)) mps.old mps.new }
{
    let before = pair_bonds(mps.chain, k);
    let after = Bonds {
        mid: cut.kept.chi,
        ..before
    };
    let d = mps.chain.max_bond_dim;
    let store = &mut *mps.store;
    let work = &mut *mps.work;
    store_pair(store, work, &cut.pair, side, d, k, after);
    record_cut(mps.chain, k, cut.kept);
}

// The site of the pair that carries the weight.
fn weight_site(side: WeightSide, k: usize) -> usize
    requires { k < 63 }
    ensures { result ≡ weight_site side k }
{
    match side {
        WeightSide::Left => k,
        WeightSide::Right => k + 1,
    }
}

// The cut of a pair that the centre is on, which is left on the given side.
#[tactic(auto, using(crate::specs::Attempts::prepared_nan, std::proofs::lemmas::Result::err_from_is_err_and))]
fn cut_prepared(mps: &mut Mps, gate: [[Complex; 4]; 4], k: usize, side: WeightSide) -> Applied
    requires { k + 1 < mps.old.chain.now.num_qubits }
    ensures value { answered result (state mps.new) ≡ prepared_by gate k (prepared side (state mps.old)) }
    ensures place { Same mps.old mps.new }
{
    let cut = cut_pair(mps, gate, k)?;
    store_cut(mps, &cut, k, side);
    mps.chain.center = Some(weight_site(side, k));
    Ok(cut.kept.reason)
}

// The cut with the centre brought onto the pair first, which can narrow its bonds.
fn cut_centered(mps: &mut Mps, gate: [[Complex; 4]; 4], k: usize) -> Applied
    requires { (k + 1 < mps.old.chain.now.num_qubits) × (keeps_centre k (state mps.old) ≡ true) }
    ensures value { answered result (state mps.new) ≡ prepared_by gate k (prepared_on k mps.old.chain.now.center (state mps.old)) }
    ensures place { Same mps.old mps.new }
{
    let side = mps.prepare_center(k);
    cut_prepared(mps, gate, k, side)
}

// A gate on the sites k and k + 1: refused by 6 above the workspace; else the cut, with a centre where one is kept. Where
// weight would be lost without one, a centre is established and the cut made again; no bond is wider then, so 6 is not
// asked again.
#[tactic(auto, using(crate::specs::Attempts::adjacent_above, crate::specs::Attempts::centered_once, crate::specs::Attempts::bare_nan, crate::specs::Attempts::twice, std::proofs::lemmas::Result::err_from_is_err_and))]
pub fn apply_adjacent_two_qubit(mps: &mut Mps, gate: [[Complex; 4]; 4], k: usize) -> Applied
    requires { k + 1 < mps.old.chain.now.num_qubits }
    ensures value { let s = state mps.old in answered result (state mps.new) ≡ answered_by (adjacent_reason gate k s) (adjacent gate k s) }
    ensures place { Same mps.old mps.new }
{
    let bonds = pair_bonds(mps.chain, k);
    if workspace_exceeded(mps.chain.workspace_exponent, bonds) {
        return Err(6);
    }
    if keeps_center(mps.chain, bonds) {
        return cut_centered(mps, gate, k);
    }
    let cut = cut_pair(mps, gate, k)?;
    let loses = cut.kept.resolvable;
    if loses {
        mps.establish_center(k);
        return cut_prepared(mps, gate, k, WeightSide::Right);
    }
    store_cut(mps, &cut, k, WeightSide::Right);
    Ok(cut.kept.reason)
}
