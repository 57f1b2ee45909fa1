// Writes a whole state, a line each: the record, the labels, the weights discarded by bond, the sites, and the
// environments of every site from both ends. What is written is held against the Rust by `replay`'s list, and stated by
// no contract.
#![tactic(auto)]

ghost use Rattle.std.specs.Prelude.{◌≤◌};

use bytes_le::to_bits;
use chain::{left_environment, right_environment};
use model::Chain;
use std::io;
use std::io::Write;

// How many numbers are written at once: on standard output each write is a call of the system.
const AT_ONCE: usize = 16;

// The bits of a few numbers, a space before each.
fn write_few<W: Write>(writer: &mut W, numbers: &[f64]) -> io::Result<()> {
    let mut text = [0u8; 17 * AT_ONCE];
    let mut rest = &mut text[..];
    for x in numbers {
        let bits = to_bits(*x);
        write!(rest, " {bits:016X}")?;
    }
    let left = rest.len();
    let end = text.len().saturating_sub(left);
    writer.write_all(&text[..end])
}

// The bits of numbers, and the line's end.
fn write_numbers<W: Write>(writer: &mut W, numbers: &[f64]) -> io::Result<()> {
    for few in numbers.chunks(AT_ONCE) {
        write_few(writer, few)?;
    }
    writer.write_all(b"\n")
}

// ---- the chain record

// The flags as one number, flag 0 lowest.
fn flags(bits: &[bool; 64]) -> u64 {
    let mut x = 0;
    for bit in bits.iter().rev() {
        x = (x << 1) | u64::from(*bit);
    }
    x
}

fn write_record<W: Write>(writer: &mut W, chain: &Chain) -> io::Result<()> {
    let (n, d) = (chain.num_qubits, chain.max_bond_dim);
    write!(writer, "# n {n} D {d} center ")?;
    match chain.center {
        None => write!(writer, "-")?,
        Some(site) => write!(writer, "{site}")?,
    }
    let high = chain.bond_high_water;
    let discarded = to_bits(chain.truncation_discarded);
    let flags = flags(&chain.classical_bits);
    writeln!(
        writer,
        " high {high} discarded {discarded:016X} flags {flags:016X}"
    )
}

fn write_labels<W: Write>(writer: &mut W, chain: &Chain) -> io::Result<()> {
    write!(writer, "# qubits by site")?;
    for qubit in chain.site_to_logical.iter().take(chain.num_qubits) {
        write!(writer, " {qubit}")?;
    }
    writer.write_all(b"\n")
}

// The weight discarded at each bond, of which there is one fewer than sites.
fn write_discarded<W: Write>(writer: &mut W, chain: &Chain) -> io::Result<()> {
    let bonds = chain.num_qubits.saturating_sub(1).min(63);
    write!(writer, "# discarded by bond")?;
    write_numbers(writer, &chain.bond_discarded[..bonds])
}

// ---- the sites

// The part of the slice from one index to another, as far as it goes.
fn part(numbers: &[f64], from: usize, to: usize) -> &[f64] {
    let end = to.min(numbers.len());
    &numbers[from.min(end)..end]
}

// k * k, of what a bond can be.
fn square(k: usize) -> usize
    ensures { result ≤ 16384 }
{
    if k <= 128 { k * k } else { 0 }
}

fn write_sites<W: Write>(writer: &mut W, chain: &Chain, store: &[f64]) -> io::Result<()> {
    let slot = 4 * square(chain.max_bond_dim);
    for site in 0..chain.num_qubits.min(64) {
        let left = chain.bond_left[site];
        let right = chain.bond_right[site];
        let start = site * slot;
        let end = start + 4 * usize::from(left) * usize::from(right);
        write!(writer, "# site {site} bonds {left} {right} :")?;
        write_numbers(writer, part(store, start, end))?;
    }
    Ok(())
}

// ---- the environments

// The environments of every site from both ends. A work slice too short for them writes nothing.
fn write_environments<W: Write>(
    writer: &mut W,
    chain: &Chain,
    store: &[f64],
    work: &mut [f64],
    out: &mut [f64],
) -> io::Result<()> {
    let n = chain.num_qubits;
    if n == 0 {
        return Ok(());
    }
    for site in 0..=n.min(64) {
        if let Ok(dim) = left_environment(*chain, store, work, out, 0, site) {
            write!(writer, "# left 0 {site} :")?;
            write_numbers(writer, part(out, 0, 2 * square(dim)))?;
        }
        if let Ok(dim) = right_environment(*chain, store, work, out, site, n - 1) {
            let last = n - 1;
            write!(writer, "# right {site} {last} :")?;
            write_numbers(writer, part(out, 0, 2 * square(dim)))?;
        }
    }
    Ok(())
}

pub fn write_state<W: Write>(
    writer: &mut W,
    chain: &Chain,
    store: &[f64],
    work: &mut [f64],
    out: &mut [f64],
) -> io::Result<()> {
    write_record(writer, chain)?;
    write_labels(writer, chain)?;
    write_discarded(writer, chain)?;
    write_sites(writer, chain, store)?;
    write_environments(writer, chain, store, work, out)
}
