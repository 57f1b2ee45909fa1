// The public calls on a chain of qubits. Each takes the chain record by value and hands it back beside its answer; the
// amplitudes lie in a lent store, and a lent work slice is used meanwhile. Every call is defined on all inputs: what is
// refused, under which number, and what is left, stands in `model`, specs/Calls.antt. Record, store and work slice come in by
// themselves, as the buyer asks: nothing is known of the three before the tests.
#![tactic(auto)]

ghost use Rattle.std.specs.Prelude.{◌≡◌};
ghost use Rattle.model.specs.Slots.{held};
ghost use Rattle.model.specs.Calls.{after, started, walked, start_call, gate_call, named_gate_call, layer_call, project_call, measure_call, reset_call, left_environment_call, right_environment_call};

use accepted::{
    run_gate, run_layer, run_left_environment, run_measure, run_project, run_reset,
    run_right_environment,
};
use complex::Complex;
use fresh::{fresh_chain, fresh_store, zero_chain};
use gates::{NamedGate, is_finite};
use model::{
    After, Answer, Applied, Chain, Contracted, Gated, LayerRun, Layered, Measured, Measurement,
    Projected, Projection, Reset, Start,
};
use refusals::{call_refusal, layer_refusal, start_refusal, walk_refusal};
use sound::is_share;

// ---- the fresh chain

// A fresh chain of n qubits under the cap d. One record is made, and the all-zero one only where the start is refused.
#[tactic(auto, using(crate::specs::Ends::start_ends, crate::specs::Ends::start_refused))]
pub fn start(n: usize, d: usize, epsilon: f64, clamp: f64, exponent: u8, store: &mut [f64]) -> Start
    ensures { started result.answer result.chain store.new ≡ start_call n d epsilon clamp exponent store.old }
{
    let fresh = fresh_chain(n, d, epsilon, clamp, exponent);
    match start_refusal(&fresh, store.len()) {
        Ok(()) => {
            fresh_store(store, n, d);
            After {
                answer: Ok(()),
                chain: fresh,
            }
        }
        Err(number) => After {
            answer: Err(number),
            chain: zero_chain(),
        },
    }
}

// ---- gates

// What a gate call answers and leaves.
#[tactic(auto, using(crate::specs::Ends::gate_refused, std::proofs::lemmas::Result::err_from_is_err_and))]
fn try_gate(
    chain: &mut Chain,
    store: &mut [f64],
    work: &mut [f64],
    q0: usize,
    q1: usize,
    gate: [[Complex; 4]; 4],
) -> Applied
    ensures { after result (held chain.new store.new) work.new ≡ gate_call (held chain.old store.old) work.old q0 q1 gate }
{
    let n = chain.num_qubits;
    let outside = (n <= q0) | (n <= q1) | (q0 == q1);
    call_refusal(chain, store.len(), work.len(), outside, !is_finite(gate))?;
    run_gate(chain, store, work, q0, q1, gate)
}

// A gate on the qubits q0 and q1, routed to them by swaps.
pub fn apply_gate(
    chain: Chain,
    store: &mut [f64],
    work: &mut [f64],
    q0: usize,
    q1: usize,
    gate: [[Complex; 4]; 4],
) -> Gated
    ensures { after result.answer (held result.chain store.new) work.new ≡ gate_call (held chain store.old) work.old q0 q1 gate }
{
    let mut chain = chain;
    let answer = try_gate(&mut chain, store, work, q0, q1, gate);
    After { answer, chain }
}

// A gate by its name.
#[tactic(auto, using(crate::specs::Ends::named_ends))]
pub fn apply_named_gate(
    chain: Chain,
    store: &mut [f64],
    work: &mut [f64],
    q0: usize,
    q1: usize,
    name: NamedGate,
) -> Gated
    ensures { after result.answer (held result.chain store.new) work.new ≡ named_gate_call (held chain store.old) work.old q0 q1 name }
{
    let gate = name.matrix_4x4();
    apply_gate(chain, store, work, q0, q1, gate)
}

// Gates on pairs of qubits, no qubit in two of them, one after the other: two bytes a pair in `pairs`, 32 numbers a pair
// in `gates`, rows in order. As in a projection, a refusal is one of three answers that stand side by side.
#[tactic(auto, using(crate::specs::Ends::layer_refused))]
pub fn apply_layer(
    chain: Chain,
    store: &mut [f64],
    work: &mut [f64],
    pairs: &[u8],
    gates: &[f64],
) -> LayerRun
    ensures { after result.answer (held result.chain store.new) work.new ≡ layer_call (held chain store.old) work.old pairs.now gates.now }
{
    let mut chain = chain;
    let answer = match layer_refusal(&chain, store.len(), work.len(), pairs, gates) {
        Ok(()) => run_layer(&mut chain, store, work, pairs, gates),
        Err(number) => Layered::Refused(number),
    };
    After { answer, chain }
}

// ---- outcomes

// Qubit q projected on the outcome `bit`. A refusal is one of three answers that stand side by side, so that it is matched
// and not handed on by the question mark.
#[tactic(auto, using(crate::specs::Ends::project_refused))]
pub fn project(chain: Chain, store: &mut [f64], work: &mut [f64], q: usize, bit: bool) -> Projection
    ensures { after result.answer (held result.chain store.new) work.new ≡ project_call (held chain store.old) work.old q bit }
{
    let mut chain = chain;
    let n = chain.num_qubits;
    let answer = match call_refusal(&chain, store.len(), work.len(), n <= q, false) {
        Ok(()) => run_project(&mut chain, store, work, q, bit),
        Err(number) => Projected::Refused(number),
    };
    After { answer, chain }
}

// What a measurement answers and leaves.
#[tactic(auto, using(crate::specs::Ends::measure_refused, std::proofs::lemmas::Result::err_from_is_err_and))]
fn try_measure(
    chain: &mut Chain,
    store: &mut [f64],
    work: &mut [f64],
    q: usize,
    flag: usize,
    draw: f64,
) -> Measured
    ensures { after result (held chain.new store.new) work.new ≡ measure_call (held chain.old store.old) work.old q flag draw }
{
    let outside = (chain.num_qubits <= q) | (64 <= flag);
    call_refusal(chain, store.len(), work.len(), outside, !is_share(draw))?;
    Ok(run_measure(chain, store, work, q, flag, draw))
}

// Qubit q measured by a draw, into a flag.
pub fn measure(
    chain: Chain,
    store: &mut [f64],
    work: &mut [f64],
    q: usize,
    flag: usize,
    draw: f64,
) -> Measurement
    ensures { after result.answer (held result.chain store.new) work.new ≡ measure_call (held chain store.old) work.old q flag draw }
{
    let mut chain = chain;
    let answer = try_measure(&mut chain, store, work, q, flag, draw);
    After { answer, chain }
}

// What a reset answers and leaves.
#[tactic(auto, using(crate::specs::Ends::reset_refused, std::proofs::lemmas::Result::err_from_is_err_and))]
fn try_reset(chain: &mut Chain, store: &mut [f64], work: &mut [f64], q: usize, draw: f64) -> Answer
    ensures { after result (held chain.new store.new) work.new ≡ reset_call (held chain.old store.old) work.old q draw }
{
    let outside = chain.num_qubits <= q;
    call_refusal(chain, store.len(), work.len(), outside, !is_share(draw))?;
    run_reset(chain, store, work, q, draw);
    Ok(())
}

// Qubit q reset to 0, by a draw.
pub fn reset(chain: Chain, store: &mut [f64], work: &mut [f64], q: usize, draw: f64) -> Reset
    ensures { after result.answer (held result.chain store.new) work.new ≡ reset_call (held chain store.old) work.old q draw }
{
    let mut chain = chain;
    let answer = try_reset(&mut chain, store, work, q, draw);
    After { answer, chain }
}

// ---- environments: the record and the store are only read. Two calls, named by the buyer, for the walks from either end

// The left environment of a site, the sites from `from` on contracted, into the result slice.
pub fn left_environment(
    chain: Chain,
    store: &[f64],
    work: &mut [f64],
    out: &mut [f64],
    from: usize,
    site: usize,
) -> Contracted
    ensures { walked result work.new out.new ≡ left_environment_call (held chain store.now) work.old out.old from site }
{
    let n = chain.num_qubits;
    let outside = (n <= from) | (n < site);
    walk_refusal(&chain, store.len(), work.len(), out.len(), outside)?;
    Ok(run_left_environment(&chain, store, work, out, from, site))
}

// The right environment of a site, the sites from `to` back to the next one contracted, into the result slice.
pub fn right_environment(
    chain: Chain,
    store: &[f64],
    work: &mut [f64],
    out: &mut [f64],
    site: usize,
    to: usize,
) -> Contracted
    ensures { walked result work.new out.new ≡ right_environment_call (held chain store.now) work.old out.old site to }
{
    let n = chain.num_qubits;
    let outside = (n <= to) | (n < site);
    walk_refusal(&chain, store.len(), work.len(), out.len(), outside)?;
    Ok(run_right_environment(&chain, store, work, out, site, to))
}
