// The environments of a site, by a walk over the chain's sites from one end. The environment stands at
// the front of the work slice, as many complex numbers as its dimension squared. Left and right are
// mirror images and no twins: their steps are other sums (see `walks`), and go over the sites in
// opposite orders.
#![tactic(auto)]

ghost use Rattle.std.specs.Prelude.{◌≡◌, ◌++◌, ◌+◌, ◌*◌, ◌<◌, ◌≤◌, length, take, drop};
ghost use Rattle.model.specs.Chain.{bond_left, bond_right};
ghost use Rattle.model.specs.Slots.{held, slot_of, slot_room, store_room};
ghost use Rattle.model.specs.Environment.{identity_env, left_env, right_env};
ghost use Rattle.model.specs.Statements.Soundness.{Sound};
ghost use Rattle.moves.specs.Ready.{Ready};

use model::Chain;
use walks::{Site, identity, left_across, right_across};

// The identity of a dimension, at the front of the work slice.
fn identity_at_front(work: &mut [f64], dim: usize)
    requires { (1 ≤ dim) × (dim ≤ 128) × (2 * (dim * dim) ≤ length work.old) }
    ensures { take (2 * (dim * dim)) work.new ≡ (identity_env dim).entries }
{
    let e = 2 * (dim * dim);
    identity(&mut work[..e], dim);
}

// Site k with its bonds.
fn site_at<'a>(chain: &Chain, store: &'a [f64], k: usize) -> Site<'a>
    requires sound { Sound chain.now }
    requires store_room_lem { store_room chain.now.num_qubits chain.now.max_bond_dim ≤ length store.now }
    requires k_bound { k < chain.now.num_qubits }
    ensures numbers { result.numbers.now ≡ slot_of chain.now.max_bond_dim k store.now }
    ensures bonds { (result.left ≡ bond_left chain.now k) × (result.right ≡ bond_right chain.now k) }
    ensures room { result.left * result.left + 2 * (result.left * result.right) + result.right * result.right ≤ slot_room chain.now.max_bond_dim }
{
    let left = usize::from(chain.bond_left[k]);
    let right = usize::from(chain.bond_right[k]);
    let slot = 4 * chain.max_bond_dim * chain.max_bond_dim;
    let a = k * slot;
    let e = a + slot;
    Site {
        numbers: &store[a..e],
        left,
        right,
    }
}

// The left environment of a site, the sites from `from` on contracted: its dimension.
#[tactic(auto, using(crate::specs::Walk::left_start, crate::specs::Walk::left_turn, crate::specs::Walk::left_done))]
pub fn compute_left_env(
    chain: &Chain,
    store: &[f64],
    work: &mut [f64],
    from: usize,
    site: usize,
) -> usize
    requires ready { Ready chain.now store.now work.old }
    requires from_bound { (from < chain.now.num_qubits) × (site ≤ chain.now.num_qubits) }
    ensures value { result ≡ (left_env from site (held chain.now store.now)).dim }
    ensures work_after { take (2 * (result * result)) work.new ≡ (left_env from site (held chain.now store.now)).entries }
{
    let mut dim = usize::from(chain.bond_left[from]);
    identity_at_front(work, dim);
    for k in from..site {
        let crossed = site_at(chain, store, k);
        left_across(crossed, work);
        dim = crossed.right;
    }
    dim
}

// The right environment of a site, the sites from `to` back to the next one contracted: its dimension.
#[tactic(auto, using(crate::specs::Walk::right_start, crate::specs::Walk::right_turn, crate::specs::Walk::right_done))]
pub fn compute_right_env(
    chain: &Chain,
    store: &[f64],
    work: &mut [f64],
    site: usize,
    to: usize,
) -> usize
    requires ready { Ready chain.now store.now work.old }
    requires to_bound { to < chain.now.num_qubits }
    ensures value { result ≡ (right_env site to (held chain.now store.now)).dim }
    ensures work_after { take (2 * (result * result)) work.new ≡ (right_env site to (held chain.now store.now)).entries }
{
    let mut dim = usize::from(chain.bond_right[to]);
    identity_at_front(work, dim);
    // across the sites to, to - 1, .., site + 1
    for k in (site..to).rev() {
        let crossed = site_at(chain, store, k + 1);
        right_across(crossed, work);
        dim = crossed.left;
    }
    dim
}

// ---- the result

// The environment from the front of the work slice, to the front of the result slice.
pub fn write_environment(out: &mut [f64], work: &[f64], dim: usize)
    requires { (dim ≤ 128) × (2 * (dim * dim) ≤ length out.old) × (2 * (dim * dim) ≤ length work.now) }
    ensures { out.new ≡ take (2 * (dim * dim)) work.now ++ drop (2 * (dim * dim)) out.old }
{
    let n = 2 * (dim * dim);
    out[..n].copy_from_slice(&work[..n]);
}
