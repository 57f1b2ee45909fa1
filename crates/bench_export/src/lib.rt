// A fresh chain, and a list of gate records and one of layers run on it in one call, for a benchmark to link beside the Rust.
#![tactic(auto)]

ghost use Rattle.std.specs.Prelude.{◌≡◌, ◌/◌, ◌<◌, length};
ghost use Rattle.complex.specs.Loops.{each};
ghost use Rattle.record.specs.GateBytes.{gate_read};
ghost use Rattle.bench_export.specs.Gates.{left, gate_on, record_step, layer_step, gates_from};

use chain::{apply_gate, apply_layer, start};
use model::Chain;
use record::read_gate;

// The gate in the bytes of a record, on the qubits q0 and q1.
#[tactic(auto, unfolding(crate::specs::Gates::gate_on))]
fn apply_record(
    chain: Chain,
    store: &mut [f64],
    work: &mut [f64],
    bytes: &[u8],
    q0: usize,
    q1: usize,
) -> Chain
    ensures { left result store.new work.new ≡ gate_on q0 q1 (gate_read bytes.now) (left chain store.old work.old) }
{
    let gate = read_gate(bytes);
    apply_gate(chain, store, work, q0, q1, gate).chain
}

// Record k of the bytes.
fn apply_at(chain: Chain, store: &mut [f64], work: &mut [f64], gates: &[u8], k: usize) -> Chain
    requires { k < length gates.now / 262 }
    ensures { left result store.new work.new ≡ record_step gates.now k (left chain store.old work.old) }
{
    let a = 262 * k;
    let b = a + 262;
    let q0 = usize::from(gates[a + 4]);
    let q1 = usize::from(gates[a + 5]);
    apply_record(chain, store, work, &gates[a..b], q0, q1)
}

// All whole records of 262 bytes, in order. By index: record k is what the promise counts, and a loop over chunks would
// need the same count in its invariant.
#[tactic(auto, using(complex::specs::Loops::each_none, complex::specs::Loops::each_more))]
fn apply_records(chain: Chain, store: &mut [f64], work: &mut [f64], gates: &[u8]) -> Chain
    ensures { left result store.new work.new ≡ each (length gates.now / 262) (record_step gates.now) (left chain store.old work.old) }
{
    let n = gates.len() / 262;
    let mut out = chain;
    for k in 0..n {
        out = apply_at(out, store, work, gates, k);
    }
    out
}

// Layer k of `count` that share both slices evenly.
#[tactic(auto, using(crate::specs::Gates::share_fits))]
fn apply_layer_at(
    chain: Chain,
    store: &mut [f64],
    work: &mut [f64],
    pairs: &[u8],
    numbers: &[f64],
    count: usize,
    k: usize,
) -> Chain
    requires { k < count }
    ensures { left result store.new work.new ≡ layer_step pairs.now numbers.now count k (left chain store.old work.old) }
{
    let p = pairs.len() / count;
    let g = numbers.len() / count;
    let a = p * k;
    let b = g * k;
    apply_layer(chain, store, work, &pairs[a..a + p], &numbers[b..b + g]).chain
}

// All of them, in order.
#[tactic(auto, using(complex::specs::Loops::each_none, complex::specs::Loops::each_more))]
fn apply_layers(
    chain: Chain,
    store: &mut [f64],
    work: &mut [f64],
    pairs: &[u8],
    numbers: &[f64],
    count: usize,
) -> Chain
    ensures { left result store.new work.new ≡ each count (layer_step pairs.now numbers.now count) (left chain store.old work.old) }
{
    let mut out = chain;
    for k in 0..count {
        out = apply_layer_at(out, store, work, pairs, numbers, count, k);
    }
    out
}

// A chain started, then the gates, then the layers: the weight that the cuts discarded.
#[tactic(auto, unfolding(crate::specs::Gates::gates_from))]
#[unsafe(no_mangle)]
pub extern "C" fn jondwave_gates(
    n: usize,
    d: usize,
    epsilon: f64,
    clamp: f64,
    gates: &[u8],
    pairs: &[u8],
    numbers: &[f64],
    layers: usize,
    store: &mut [f64],
    work: &mut [f64],
) -> f64
    ensures value { result ≡ (gates_from n d epsilon clamp gates.now pairs.now numbers.now layers store.old work.old).chain.truncation_discarded }
    ensures store_after { store.new ≡ (gates_from n d epsilon clamp gates.now pairs.now numbers.now layers store.old work.old).store }
    ensures work_after { work.new ≡ (gates_from n d epsilon clamp gates.now pairs.now numbers.now layers store.old work.old).work }
{
    let first = start(n, d, epsilon, clamp, 63, store);
    let then = apply_records(first.chain, store, work, gates);
    let out = apply_layers(then, store, work, pairs, numbers, layers);
    out.truncation_discarded
}
