// Replays a list of run records and layers of pairs. It writes each record's line, and for each layer its answer, how many
// numbers at the front of a work slice of 1s are +0 after it, the whole state and the environments. The list on standard
// input and the text that it must give were made with the Rust (tests/oracle/make_layers.py).
//
// The list begins with the number of its items, 2 bytes least first. A run record stands as it is, and a start begins a
// new session. A layer is 0, where a record has its length; how many bytes its pairs take, how many numbers its gates
// have, and how long a store and a work slice are lent, each in 2 bytes; then those bytes, and the numbers' bits.
#![tactic(auto)]

ghost use Rattle.std.specs.Prelude.{◌≤◌, IfOk};

use bytes_le::{from_bits, to_bits};
use chain::apply_layer;
use lines::print_line;
use model::Layered;
use session::{Session, new_session, step};
use state_text::write_state;
use std::io;
use std::io::{Read, Write};

// ---- what the list has

fn read_u16<R: Read>(reader: &mut R) -> io::Result<u16> {
    let mut bytes = [0u8; 2];
    reader.read_exact(&mut bytes)?;
    Ok(u16::from_le_bytes(bytes))
}

// A length, as far as there is room for it.
fn read_length<R: Read>(reader: &mut R, room: usize) -> io::Result<usize>
    ensures { IfOk result (λ n. n ≤ room) }
{
    Ok(usize::from(read_u16(reader)?).min(room))
}

fn read_numbers<R: Read>(reader: &mut R, numbers: &mut [f64]) -> io::Result<()> {
    for x in numbers.iter_mut() {
        let mut bytes = [0u8; 8];
        reader.read_exact(&mut bytes)?;
        *x = from_bits(u64::from_le_bytes(bytes));
    }
    Ok(())
}

// ---- records and layers. Each answers the session after it

// A record of a length that was read; one that is longer than any is cut off.
fn replay_record<R: Read, W: Write>(
    reader: &mut R,
    writer: &mut W,
    session: Session,
    store: &mut [f64],
    work: &mut [f64],
    size: u16,
) -> io::Result<Session> {
    let mut bytes = [0u8; 262];
    let [low, high] = size.to_le_bytes();
    bytes[0] = low;
    bytes[1] = high;
    let end = 2 + usize::from(size).min(260);
    reader.read_exact(&mut bytes[2..end])?;
    let session = if bytes[2] == 1 {
        new_session()
    } else {
        session
    };
    let stepped = step(session, store, work, &bytes[..end]);
    print_line(writer, stepped.line)?;
    Ok(stepped.session)
}

fn write_answer<W: Write>(writer: &mut W, answer: Layered) -> io::Result<()> {
    match answer {
        Layered::Done => writeln!(writer, "layer 0"),
        Layered::Refused(number) => writeln!(writer, "layer {number}"),
        Layered::Stopped(number, pair) => writeln!(writer, "layer {number} {pair}"),
    }
}

fn replay_layer<R: Read, W: Write>(
    reader: &mut R,
    writer: &mut W,
    session: Session,
    store: &mut [f64],
    work: &mut [f64],
) -> io::Result<Session> {
    let (mut pairs, mut gates, mut out) = ([0u8; 68], [0.0; 1120], [0.0; 512]);
    let bytes = read_length(reader, 68)?;
    let numbers = read_length(reader, 1120)?;
    let lent_store = read_length(reader, store.len())?;
    let lent_work = read_length(reader, work.len())?;
    reader.read_exact(&mut pairs[..bytes])?;
    read_numbers(reader, &mut gates[..numbers])?;
    work.fill(1.0);
    let layer = apply_layer(
        session.chain,
        &mut store[..lent_store],
        &mut work[..lent_work],
        &pairs[..bytes],
        &gates[..numbers],
    );
    write_answer(writer, layer.answer)?;
    let cleared = work.iter().take_while(|x| to_bits(**x) == 0).count();
    writeln!(writer, "# cleared {cleared}")?;
    let chain = layer.chain;
    write_state(writer, &chain, store, work, &mut out)?;
    Ok(Session { chain, ..session })
}

fn main(rt: HostRuntime) -> io::Result<()> {
    let (mut reader, mut writer) = (rt.stdin(), rt.stdout());
    let mut session = new_session();
    let mut store = [0.0; 512];
    let mut work = [0.0; 1344];
    for _ in 0..read_u16(&mut reader)? {
        session = match read_u16(&mut reader)? {
            0 => replay_layer(&mut reader, &mut writer, session, &mut store, &mut work)?,
            size => replay_record(
                &mut reader,
                &mut writer,
                session,
                &mut store,
                &mut work,
                size,
            )?,
        };
    }
    Ok(())
}
