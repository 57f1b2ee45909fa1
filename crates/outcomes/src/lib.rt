// Projection, measurement and reset of the qubit at a site. The centre is brought to the site first, so
// that the site's own amplitudes give the weights.
#![tactic(auto, using(born::specs::Draw::drawn_weights))]

ghost use Rattle.std.specs.Prelude.{◌≡◌, true, false, cond, ◌<◌};
ghost use Rattle.std.specs.Float.Ieee as ieee;
ghost use Rattle.std.specs.Float.{binary64};
ghost use Rattle.model.specs.declared.Projected.TheVariants as projected;
ghost use Rattle.model.specs.Born.{weight_at, drawn_at, projected_at, reset_at, readied};
ghost use Rattle.model.specs.Calls.{project_answer, flagged};
ghost use Rattle.moves.specs.Mps.{state, Becomes};

use born::{collapse, drawn, weight};
use model::Projected;
use moves::Mps;

// The weights of both outcomes at a site, not divided by their total.
#[derive(Clone, Copy)]
struct Weights {
    zero: f64,
    one: f64,
}

impl Weights {
    // The weight of outcome o.
    fn of(self, o: bool) -> f64
        ensures { result ≡ cond o self.one self.zero }
    {
        if o { self.one } else { self.zero }
    }

    // The share of the total that an outcome of weight w has; nothing where w is at most the clamp.
    fn share(self, w: f64, clamp_min: f64) -> Projected
        ensures { result ≡ cond (ieee.le w clamp_min) projected.Nothing (projected.Kept (ieee.div binary64 w (ieee.add binary64 self.zero self.one))) }
    {
        if w <= clamp_min {
            Projected::Nothing
        } else {
            Projected::Kept(w / (self.zero + self.one))
        }
    }
}

// The weights of both outcomes at site k, the centre being there.
fn born_weights(mps: &Mps, k: usize) -> Weights
    requires { k < mps.now.chain.now.num_qubits }
    ensures zero_value { result.zero ≡ weight_at k false (state mps.now) }
    ensures one_value { result.one ≡ weight_at k true (state mps.now) }
{
    let chain = &*mps.chain;
    let store = &*mps.store;
    let bl = usize::from(chain.bond_left[k]);
    let br = usize::from(chain.bond_right[k]);
    let slot = 4 * chain.max_bond_dim * chain.max_bond_dim;
    let a = k * slot;
    let e = a + slot;
    let zero = weight(&store[a..e], bl, br, false);
    let one = weight(&store[a..e], bl, br, true);
    Weights { zero, one }
}

// The centre brought to site k, and the weights of both outcomes there.
fn centered_weights(mps: &mut Mps, k: usize) -> Weights
    requires { k < mps.old.chain.now.num_qubits }
    ensures state_after { Becomes (readied k (state mps.old)) mps.old mps.new }
    ensures zero_value { result.zero ≡ weight_at k false (readied k (state mps.old)) }
    ensures one_value { result.one ≡ weight_at k true (readied k (state mps.old)) }
{
    mps.center_on(k);
    born_weights(mps, k)
}

// Projected on outcome o of weight w, unless that is at most the clamp. TO_ZERO: reset from it.
#[tactic(auto, using(crate::specs::Slot::clamped))]
fn collapse_site<const TO_ZERO: bool>(mps: &mut Mps, k: usize, o: bool, w: f64)
    requires k_bound { k < mps.old.chain.now.num_qubits }
    requires w_value { w ≡ weight_at k o (state mps.old) }
    ensures { Becomes (cond TO_ZERO (reset_at k o (state mps.old)) (projected_at k o (state mps.old))) mps.old mps.new }
{
    if w <= mps.chain.norm_clamp_min {
        return;
    }
    let bl = usize::from(mps.chain.bond_left[k]);
    let br = usize::from(mps.chain.bond_right[k]);
    let slot = 4 * mps.chain.max_bond_dim * mps.chain.max_bond_dim;
    let a = k * slot;
    let e = a + slot;
    let store = &mut *mps.store;
    collapse::<TO_ZERO>(&mut store[a..e], bl, br, o, w);
}

// ---- the qubit at site k, the centre brought there first

// Projected on outcome o.
pub fn project_z_outcome(mps: &mut Mps, k: usize, o: bool) -> Projected
    requires { k < mps.old.chain.now.num_qubits }
    ensures answer_value { result ≡ project_answer k o (readied k (state mps.old)) }
    ensures state_after { Becomes (projected_at k o (readied k (state mps.old))) mps.old mps.new }
{
    let both = centered_weights(mps, k);
    let w = both.of(o);
    let answer = both.share(w, mps.chain.norm_clamp_min);
    collapse_site::<false>(mps, k, o, w);
    answer
}

// Measured by a draw, into a flag.
pub fn apply_measure(mps: &mut Mps, k: usize, flag: usize, draw: f64) -> bool
    requires { (k < mps.old.chain.now.num_qubits) × (flag < 64) }
    ensures bit { result ≡ drawn_at k draw (readied k (state mps.old)) }
    ensures state_after { let s = readied k (state mps.old) in Becomes (flagged flag (drawn_at k draw s) (projected_at k (drawn_at k draw s) s)) mps.old mps.new }
{
    let both = centered_weights(mps, k);
    let b = drawn(draw, both.zero, both.one);
    collapse_site::<false>(mps, k, b, both.of(b));
    mps.chain.classical_bits[flag] = b;
    b
}

// Reset, by a draw.
pub fn apply_reset(mps: &mut Mps, k: usize, draw: f64)
    requires { k < mps.old.chain.now.num_qubits }
    ensures { let s = readied k (state mps.old) in Becomes (reset_at k (drawn_at k draw s) s) mps.old mps.new }
{
    let both = centered_weights(mps, k);
    let b = drawn(draw, both.zero, both.one);
    collapse_site::<true>(mps, k, b, both.of(b));
}
