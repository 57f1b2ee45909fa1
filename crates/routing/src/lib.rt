// A gate routed to its two qubits: swaps of neighbouring sites with their labels, then the gate. And the gates of a layer
// in turn.
#![tactic(auto)]

ghost use Rattle.std.specs.Prelude.{◌≡◌, ◌≢◌, true, cond, ◌+◌, ◌-◌, ◌*◌, ◌<◌, ◌≤◌, ltb, length};
ghost use Rattle.gates.specs.Gate.{swap_gate_qubits};
ghost use Rattle.model.specs.Layers.{pair_count, layer_of};
ghost use Rattle.model.specs.Routing.{relabelled, swap_step, stepped, gate_run, gate_reason, layer_ran, layer_run};
ghost use Rattle.model.specs.Calls.{pairs_fit};
ghost use Rattle.model.specs.Statements.Soundness.{Sound};
ghost use Rattle.moves.specs.Mps.{state, Same};
ghost use Rattle.cuts.specs.Answered.{answered, answered_by};
ghost use Rattle.routing.specs.Runs.{passed, passed_by, swaps_down, routed_gate, routed_reason};
ghost use Rattle.routing.specs.Pairs.{pair_run, pair_reason};

use complex::Complex;
use cuts::apply_adjacent_two_qubit;
use gates::{NamedGate, swap_gate_qubits};
use layers::{gate_at, qubits_at};
use model::{Answer, Applied, Chain, Layered};
use moves::Mps;

// ---- swaps

// The qubits at sites left_site and left_site + 1 exchanged, in both maps.
fn swap_layout_labels(chain: &mut Chain, left_site: usize)
    requires sound { Sound chain.old }
    requires left_site_bound { left_site + 1 < chain.old.num_qubits }
    ensures { chain.new ≡ relabelled left_site chain.old }
{
    let a = chain.site_to_logical[left_site];
    let b = chain.site_to_logical[left_site + 1];
    chain.site_to_logical[left_site] = b;
    chain.site_to_logical[left_site + 1] = a;
    chain.logical_to_site[usize::from(a)] = (left_site + 1) as u8;
    chain.logical_to_site[usize::from(b)] = left_site as u8;
}

// One swap of the route: the cut, then the labels.
fn swap_step(mps: &mut Mps, k: usize) -> Answer
    requires { k + 1 < mps.old.chain.now.num_qubits }
    ensures value { passed result (state mps.new) ≡ passed_by (stepped (swap_step k) (state mps.old)) }
    ensures place { Same mps.old mps.new }
{
    let gate = NamedGate::Swap.matrix_4x4();
    apply_adjacent_two_qubit(mps, gate, k)?;
    swap_layout_labels(mps.chain, k);
    Ok(())
}

// The swaps at far - 1, .., near + 1, up to the first that is refused.
#[tactic(auto, using(moves::specs::Mps::and_then, crate::specs::Runs::passed_refused, crate::specs::Runs::passed_on, crate::specs::Runs::refused_passed, crate::specs::Runs::on_passed, crate::specs::Runs::swaps_on, crate::specs::Runs::swaps_out, crate::specs::Runs::swaps_done, std::proofs::lemmas::Result::err_from_is_err_and))]
fn route_swaps(mps: &mut Mps, near: usize, far: usize) -> Answer
    requires { (near < far) × (far < mps.old.chain.now.num_qubits) }
    ensures value { passed result (state mps.new) ≡ passed_by (swaps_down near (far - (near + 1)) (state mps.old)) }
    ensures place { Same mps.old mps.new }
{
    for at in (near + 1..far).rev() {
        swap_step(mps, at)?;
    }
    Ok(())
}

// The swaps, then the gate at the near site.
#[tactic(auto, using(crate::specs::Runs::passed_refused, crate::specs::Runs::passed_on, crate::specs::Runs::gate_on_lem, crate::specs::Runs::gate_out, std::proofs::lemmas::Result::err_from_is_err_and))]
fn route_gate(mps: &mut Mps, gate: [[Complex; 4]; 4], near: usize, far: usize) -> Applied
    requires { (near < far) × (far < mps.old.chain.now.num_qubits) }
    ensures value { let s = state mps.old in answered result (state mps.new) ≡ answered_by (routed_reason gate near (far - (near + 1)) s) (routed_gate gate near (far - (near + 1)) s) }
    ensures place { Same mps.old mps.new }
{
    route_swaps(mps, near, far)?;
    apply_adjacent_two_qubit(mps, gate, near)
}

// ---- the gate between its qubits

// The gate for qubits at the sites p and q, the left one first.
fn gate_between(gate: [[Complex; 4]; 4], p: usize, q: usize) -> [[Complex; 4]; 4]
    ensures { result ≡ cond (ltb p q) gate (swap_gate_qubits gate) }
{
    if p < q { gate } else { swap_gate_qubits(gate) }
}

// The gate on the qubits q0 and q1.
#[tactic(auto, using(crate::specs::Runs::run_between))]
pub fn apply_two_qubit_gate(mps: &mut Mps, gate: [[Complex; 4]; 4], q0: usize, q1: usize) -> Applied
    requires { (q0 < mps.old.chain.now.num_qubits) × (q1 < mps.old.chain.now.num_qubits) × (q0 ≢ q1) }
    ensures value { let s = state mps.old in answered result (state mps.new) ≡ answered_by (gate_reason gate q0 q1 s) (gate_run gate q0 q1 s) }
    ensures place { Same mps.old mps.new }
{
    let p = usize::from(mps.chain.logical_to_site[q0]);
    let q = usize::from(mps.chain.logical_to_site[q1]);
    let turned = gate_between(gate, p, q);
    route_gate(mps, turned, p.min(q), p.max(q))
}

// ---- the gates of a layer

// Pair p of a layer.
#[tactic(auto, using(model::proofs::Laws::LayerRuns::fits_at_lem))]
fn apply_pair(mps: &mut Mps, pairs: &[u8], gates: &[f64], p: usize) -> Applied
    requires { (pairs_fit mps.old.chain.now.num_qubits pairs.now ≡ true) × (32 * pair_count pairs.now ≤ length gates.now) × (p < pair_count pairs.now) }
    ensures value { let s = state mps.old in answered result (state mps.new) ≡ answered_by (pair_reason pairs.now gates.now p s) (pair_run pairs.now gates.now p s) }
    ensures place { Same mps.old mps.new }
{
    let (q0, q1) = qubits_at(pairs, p);
    let gate = gate_at(gates, p);
    apply_two_qubit_gate(mps, gate, q0, q1)
}

// All pairs in turn, up to the first that is refused.
#[tactic(auto, using(cuts::specs::Answered::ran_refused, cuts::specs::Answered::ran_done, crate::specs::Pairs::rest_all, crate::specs::Pairs::rest_on, crate::specs::Pairs::rest_out, crate::specs::Pairs::rest_done))]
pub fn apply_layer(mps: &mut Mps, pairs: &[u8], gates: &[f64]) -> Layered
    requires { (pairs_fit mps.old.chain.now.num_qubits pairs.now ≡ true) × (32 * pair_count pairs.now ≤ length gates.now) }
    ensures value { layer_ran result (state mps.new) ≡ layer_run 0 (layer_of pairs.now gates.now) (state mps.old) }
    ensures place { Same mps.old mps.new }
{
    for p in 0..pairs.len() / 2 {
        if let Err(number) = apply_pair(mps, pairs, gates, p) {
            return Layered::Stopped(number, p);
        }
    }
    Layered::Done
}
