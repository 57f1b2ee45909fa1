// The worked call of docs/CALLS.md: two qubits made into a Bell pair, the reason of its bond, and the second of them
// projected on 1.
#![tactic(auto)]

use chain::{apply_gate, apply_named_gate, project, start};
use complex::Complex;
use gates::NamedGate;
use lines::{Detail, Line, print_line};
use model::{Applied, Gated, Projected};
use std::io;
use std::io::Write;

// A Hadamard gate on the first of two qubits, the second left alone.
fn hadamard_first() -> [[Complex; 4]; 4] {
    let z = Complex::ZERO;
    let h = Complex::from(0.7071067811865476);
    let m = Complex::from(-0.7071067811865476);
    [[h, z, h, z], [z, h, z, h], [h, z, m, z], [z, h, z, m]]
}

// The Bell pair, from a fresh chain of two qubits under the cap 2.
fn bell_pair(store: &mut [f64], work: &mut [f64]) -> Gated {
    let fresh = start(2, 2, 1e-12, 1e-30, 20, store);
    let turned = apply_gate(fresh.chain, store, work, 0, 1, hadamard_first());
    apply_named_gate(turned.chain, store, work, 0, 1, NamedGate::Cx)
}

// Why the bond that a gate left is as wide as it is.
fn show_reason<W: Write>(writer: &mut W, answer: Applied) -> io::Result<()> {
    match answer {
        Ok(reason) => writeln!(writer, "{reason}"),
        Err(_) => writer.write_all(b"refused\n"),
    }
}

// What the projection answered, as a line.
fn show<W: Write>(writer: &mut W, answer: Projected) -> io::Result<()> {
    let (number, detail) = match answer {
        Projected::Kept(weight) => (0, Detail::Kept(weight)),
        Projected::Nothing => (0, Detail::Nothing),
        Projected::Refused(number) => (number, Detail::Empty),
    };
    print_line(
        writer,
        Line {
            kind: 4,
            number,
            detail,
        },
    )
}

fn main(rt: HostRuntime) -> io::Result<()> {
    let mut writer = rt.stdout();
    let mut store = [0.0; 32];
    let mut work = [0.0; 352];
    let bell = bell_pair(&mut store, &mut work);
    show_reason(&mut writer, bell.answer)?;
    let seen = project(bell.chain, &mut store, &mut work, 1, true);
    show(&mut writer, seen.answer)
}
