// One refused call for each row of the table in docs/REFUSALS.md, in its order, and a layer that stops at its second pair:
// the call's name, the number, and the pair.
#![tactic(auto)]

use chain::{apply_layer, apply_named_gate, measure, start};
use gates::NamedGate;
use model::{Chain, Layered};
use record::read_record;
use std::io;
use std::io::Write;

// The number that an answer refuses under, 0 where it is of an accepted call.
fn number<T: Copy>(answer: Result<T, u8>) -> u8 {
    match answer {
        Ok(_) => 0,
        Err(k) => k,
    }
}

// Two qubits under the cap 2.
fn two_qubits(store: &mut [f64], exponent: u8) -> Chain {
    start(2, 2, 0.0, 0.0, exponent, store).chain
}

fn cx(chain: Chain, store: &mut [f64], work: &mut [f64], q0: usize, q1: usize) -> u8 {
    number(apply_named_gate(chain, store, work, q0, q1, NamedGate::Cx).answer)
}

// 1: a cap of 0.
fn setting_out_of_range(store: &mut [f64]) -> u8 {
    number(start(2, 0, 0.0, 0.0, 5, store).answer)
}

// 2: two qubits under the cap 1, in a store of 7 numbers.
fn short_store() -> u8 {
    let mut store = [0.0; 7];
    number(start(2, 1, 0.0, 0.0, 5, &mut store).answer)
}

// 3: both qubits at site 0.
fn unsound_record(store: &mut [f64], work: &mut [f64]) -> u8 {
    let mut chain = two_qubits(store, 5);
    chain.logical_to_site[1] = 0;
    cx(chain, store, work, 0, 1)
}

// 4: the pair (1, 1).
fn doubled_qubit(store: &mut [f64], work: &mut [f64]) -> u8 {
    let chain = two_qubits(store, 5);
    cx(chain, store, work, 1, 1)
}

// 5: a draw of 1.
fn draw_of_one(store: &mut [f64], work: &mut [f64]) -> u8 {
    let chain = two_qubits(store, 5);
    number(measure(chain, store, work, 0, 0, 1.0).answer)
}

// 6: exponent 4 under bonds of 1, 1 and 1, which need 22 numbers.
fn above_workspace(store: &mut [f64], work: &mut [f64]) -> u8 {
    let chain = two_qubits(store, 4);
    cx(chain, store, work, 0, 1)
}

// The first amplitude becomes a NaN.
fn spoil(store: &mut [f64]) {
    if let Some(first) = store.first_mut() {
        *first = f64::NAN;
    }
}

// 7: a stored amplitude that is a NaN.
fn stored_nan(store: &mut [f64], work: &mut [f64]) -> u8 {
    let chain = two_qubits(store, 5);
    spoil(store);
    cx(chain, store, work, 0, 1)
}

// 8: kind 9.
fn unknown_kind() -> u8 {
    let bytes = [2u8, 0, 9, 0];
    number(read_record(&bytes))
}

// A layer of two pairs on a fresh chain of four qubits, exponent 5. Both gates have ones at (0, 0) and (3, 0) alone, and
// make a bond of 2.
fn two_pairs(store: &mut [f64], work: &mut [f64], pairs: [u8; 4]) -> Layered {
    let mut gates = [0.0; 64];
    gates[0] = 1.0;
    gates[24] = 1.0;
    gates[32] = 1.0;
    gates[56] = 1.0;
    let fresh = start(4, 2, 0.0, 0.0, 5, store);
    apply_layer(fresh.chain, store, work, &pairs, &gates).answer
}

// 9: qubit 1 in both pairs.
fn named_twice(store: &mut [f64], work: &mut [f64]) -> Layered {
    two_pairs(store, work, [0, 1, 2, 1])
}

// 6 at pair 1: qubit 3 is swapped across the bond of 2 that pair 0 makes, which needs 42 numbers.
fn stopped_at_a_pair(store: &mut [f64], work: &mut [f64]) -> Layered {
    two_pairs(store, work, [1, 2, 0, 3])
}

// ---- the lines

fn show<W: Write>(writer: &mut W, call: &str, number: u8) -> io::Result<()> {
    writeln!(writer, "{call} {number}")
}

fn show_layer<W: Write>(writer: &mut W, answer: Layered) -> io::Result<()> {
    match answer {
        Layered::Done => show(writer, "apply_layer", 0),
        Layered::Refused(number) => show(writer, "apply_layer", number),
        Layered::Stopped(number, pair) => writeln!(writer, "apply_layer {number} at pair {pair}"),
    }
}

fn main(rt: HostRuntime) -> io::Result<()> {
    let mut writer = rt.stdout();
    let mut store = [0.0; 512];
    let mut work = [0.0; 1344];
    show(&mut writer, "start", setting_out_of_range(&mut store))?;
    show(&mut writer, "start", short_store())?;
    show(
        &mut writer,
        "apply_named_gate",
        unsound_record(&mut store, &mut work),
    )?;
    show(
        &mut writer,
        "apply_named_gate",
        doubled_qubit(&mut store, &mut work),
    )?;
    show(&mut writer, "measure", draw_of_one(&mut store, &mut work))?;
    show(
        &mut writer,
        "apply_named_gate",
        above_workspace(&mut store, &mut work),
    )?;
    show(
        &mut writer,
        "apply_named_gate",
        stored_nan(&mut store, &mut work),
    )?;
    show(&mut writer, "read_record", unknown_kind())?;
    show_layer(&mut writer, named_twice(&mut store, &mut work))?;
    show_layer(&mut writer, stopped_at_a_pair(&mut store, &mut work))
}
