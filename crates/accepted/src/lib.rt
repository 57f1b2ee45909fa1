// What a call does that is not refused: its run at the front of the work slice, which is +0 afterwards. Reached through
// `chain` alone. Each function lends that front and has it cleared: one for all, over a closure that makes the run, was
// tried, and the proof didn't close, since a caller learns nothing of what the closure changes in `chain` and `store`.
#![tactic(auto, using(std::proofs::lemmas::Bool::Decides::nat_tests, crate::specs::Accepted::sound_told, crate::specs::Accepted::ready_part, crate::specs::Accepted::cleared_front, layers::specs::Room::gates_room), unfolding(model::specs::Calls::gate_call, model::specs::Calls::layer_call, model::specs::Calls::project_call, model::specs::Calls::measure_call, model::specs::Calls::reset_call))]

ghost use Rattle.std.specs.Prelude.{◌≡◌, ◌++◌, ◌≤◌, Ok, length, drop, replicate};
ghost use Rattle.complex.specs.Complex.{zero_f};
ghost use Rattle.model.specs.Slots.{held};
ghost use Rattle.model.specs.Calls.{after, walked, gate_refusal, gate_call, layer_refusal, layer_call, project_refusal, project_call, measure_refusal, measure_call, reset_refusal, reset_call, env_refusal, left_environment_call, right_environment_call};

use complex::Complex;
use environments::{compute_left_env, compute_right_env, write_environment};
use model::{Applied, Chain, Layered, Projected};
use moves::Mps;
use outcomes::{apply_measure, apply_reset, project_z_outcome};
use refusals::work_room;
use routing::{apply_layer, apply_two_qubit_gate};

// The first numbers of the work slice become +0.
fn clear_front(work: &mut [f64], room: usize)
    requires { room ≤ length work.old }
    ensures { work.new ≡ replicate room zero_f ++ drop room work.old }
{
    work[..room].fill(0.0);
}

// ---- gates

// A gate on the qubits q0 and q1, routed to them by swaps.
pub fn run_gate(
    chain: &mut Chain,
    store: &mut [f64],
    work: &mut [f64],
    q0: usize,
    q1: usize,
    gate: [[Complex; 4]; 4],
) -> Applied
    requires { gate_refusal (held chain.old store.old) work.old q0 q1 gate ≡ 0 }
    ensures { after result (held chain.new store.new) work.new ≡ gate_call (held chain.old store.old) work.old q0 q1 gate }
{
    let room = work_room(chain.max_bond_dim);
    let mut mps = Mps {
        chain,
        store,
        work: &mut work[..room],
    };
    let out = apply_two_qubit_gate(&mut mps, gate, q0, q1);
    clear_front(work, room);
    out
}

// A layer of pairs, one after the other.
pub fn run_layer(
    chain: &mut Chain,
    store: &mut [f64],
    work: &mut [f64],
    pairs: &[u8],
    gates: &[f64],
) -> Layered
    requires { layer_refusal (held chain.old store.old) work.old pairs.now gates.now ≡ 0 }
    ensures { after result (held chain.new store.new) work.new ≡ layer_call (held chain.old store.old) work.old pairs.now gates.now }
{
    let room = work_room(chain.max_bond_dim);
    let mut mps = Mps {
        chain,
        store,
        work: &mut work[..room],
    };
    let out = apply_layer(&mut mps, pairs, gates);
    clear_front(work, room);
    out
}

// ---- outcomes

// Qubit q projected on the outcome `bit`.
pub fn run_project(
    chain: &mut Chain,
    store: &mut [f64],
    work: &mut [f64],
    q: usize,
    bit: bool,
) -> Projected
    requires { project_refusal (held chain.old store.old) work.old q ≡ 0 }
    ensures { after result (held chain.new store.new) work.new ≡ project_call (held chain.old store.old) work.old q bit }
{
    let room = work_room(chain.max_bond_dim);
    let site = usize::from(chain.logical_to_site[q]);
    let mut mps = Mps {
        chain,
        store,
        work: &mut work[..room],
    };
    let out = project_z_outcome(&mut mps, site, bit);
    clear_front(work, room);
    out
}

// Qubit q measured by a draw, into a flag.
pub fn run_measure(
    chain: &mut Chain,
    store: &mut [f64],
    work: &mut [f64],
    q: usize,
    flag: usize,
    draw: f64,
) -> bool
    requires { measure_refusal (held chain.old store.old) work.old q flag draw ≡ 0 }
    ensures { after (Ok result) (held chain.new store.new) work.new ≡ measure_call (held chain.old store.old) work.old q flag draw }
{
    let room = work_room(chain.max_bond_dim);
    let site = usize::from(chain.logical_to_site[q]);
    let mut mps = Mps {
        chain,
        store,
        work: &mut work[..room],
    };
    let seen = apply_measure(&mut mps, site, flag, draw);
    clear_front(work, room);
    seen
}

// Qubit q reset to 0, by a draw.
pub fn run_reset(chain: &mut Chain, store: &mut [f64], work: &mut [f64], q: usize, draw: f64)
    requires { reset_refusal (held chain.old store.old) work.old q draw ≡ 0 }
    ensures { after (Ok tt) (held chain.new store.new) work.new ≡ reset_call (held chain.old store.old) work.old q draw }
{
    let room = work_room(chain.max_bond_dim);
    let site = usize::from(chain.logical_to_site[q]);
    let mut mps = Mps {
        chain,
        store,
        work: &mut work[..room],
    };
    apply_reset(&mut mps, site, draw);
    clear_front(work, room);
}

// ---- environments: the record and the store are only read. Left and right are mirror images and no twins, as the walks
// that they run (see `environments`)

// The left environment of a site, the sites from `from` on contracted, into the result slice.
#[tactic(auto, using(std::proofs::lemmas::Bool::Decides::nat_tests, crate::specs::Accepted::sound_told, crate::specs::Accepted::ready_part, crate::specs::Accepted::cleared_front, crate::specs::Accepted::left_few, crate::specs::Accepted::written), unfolding(model::specs::Calls::left_environment_call))]
pub fn run_left_environment(
    chain: &Chain,
    store: &[f64],
    work: &mut [f64],
    out: &mut [f64],
    from: usize,
    site: usize,
) -> usize
    requires { env_refusal (held chain.now store.now) work.old out.old from site ≡ 0 }
    ensures { walked (Ok result) work.new out.new ≡ left_environment_call (held chain.now store.now) work.old out.old from site }
{
    let room = work_room(chain.max_bond_dim);
    let left_dim = compute_left_env(chain, store, &mut work[..room], from, site);
    write_environment(out, work, left_dim);
    clear_front(work, room);
    left_dim
}

// The right environment of a site, the sites from `to` back to the next one contracted, into the result slice.
#[tactic(auto, using(std::proofs::lemmas::Bool::Decides::nat_tests, crate::specs::Accepted::sound_told, crate::specs::Accepted::ready_part, crate::specs::Accepted::cleared_front, crate::specs::Accepted::right_few, crate::specs::Accepted::written), unfolding(model::specs::Calls::right_environment_call))]
pub fn run_right_environment(
    chain: &Chain,
    store: &[f64],
    work: &mut [f64],
    out: &mut [f64],
    site: usize,
    to: usize,
) -> usize
    requires { env_refusal (held chain.now store.now) work.old out.old to site ≡ 0 }
    ensures { walked (Ok result) work.new out.new ≡ right_environment_call (held chain.now store.now) work.old out.old site to }
{
    let room = work_room(chain.max_bond_dim);
    let right_dim = compute_right_env(chain, store, &mut work[..room], site, to);
    write_environment(out, work, right_dim);
    clear_front(work, room);
    right_dim
}
