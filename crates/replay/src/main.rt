// Replays a list of streams of run records and writes, after each record's line, the whole state and the environments.
// The list on standard input and the text that it must give were made with the Rust (tests/oracle/make_list.py).
// A stream in the list is its length in bytes, 4 bytes least first, and its records.
#![tactic(auto)]

ghost use Rattle.std.specs.Prelude.{◌≤◌, ◌<◌, length};

use lines::print_line;
use record::more_bytes;
use session::{Session, new_session, step};
use state_text::write_state;
use std::io;
use std::io::{ErrorKind, Read, Write};

// ---- records

// Where the record behind the one at an index begins, or the stream's end.
fn next(bytes: &[u8], at: usize) -> usize
    requires { at < length bytes.now }
    ensures lower_bound { at < result }
    ensures upper_bound { result ≤ length bytes.now }
{
    let left = bytes.len() - at;
    if left < 2 {
        return bytes.len();
    }
    let more = more_bytes(bytes[at], bytes[at + 1]);
    at + 2 + more.min(left - 2)
}

// One record: its line, then the state if there is a chain. The session after it, unless reading stops.
fn replay_record<W: Write>(
    writer: &mut W,
    session: Session,
    store: &mut [f64],
    work: &mut [f64],
    out: &mut [f64],
    bytes: &[u8],
) -> io::Result<Option<Session>> {
    let stepped = step(session, store, work, bytes);
    let session = stepped.session;
    print_line(writer, stepped.line)?;
    if stepped.line.stops() {
        return Ok(None);
    }
    if session.started {
        write_state(writer, &session.chain, store, work, out)?;
    }
    Ok(Some(session))
}

// Each record says by its length where the next one begins, so that an index and no iterator goes over them.
fn replay_records<W: Write>(
    writer: &mut W,
    store: &mut [f64],
    work: &mut [f64],
    out: &mut [f64],
    bytes: &[u8],
) -> io::Result<()> {
    let mut session = new_session();
    let mut at: usize = 0;
    while at < bytes.len() {
        match replay_record(writer, session, store, work, out, &bytes[at..])? {
            None => break,
            Some(after) => session = after,
        }
        at = next(bytes, at);
    }
    Ok(())
}

// A stream from a session before any start. The store and the work slice are as long as those that `chainrun` lends.
fn replay_stream<W: Write>(writer: &mut W, bytes: &[u8]) -> io::Result<()> {
    let mut store = [0.0; 512];
    let mut work = [0.0; 1344];
    let mut out = [0.0; 512];
    replay_records(writer, &mut store, &mut work, &mut out, bytes)
}

// ---- the list

// Fills the slice, if the input does not end before it is full.
fn read_whole<R: Read>(reader: &mut R, bytes: &mut [u8]) -> io::Result<bool> {
    match reader.read_exact(bytes) {
        Ok(()) => Ok(true),
        Err(error) if error.kind() == ErrorKind::UnexpectedEof => Ok(false),
        Err(error) => Err(error),
    }
}

// The length of the next stream; none at the list's end.
fn read_length<R: Read>(reader: &mut R) -> io::Result<Option<usize>> {
    let mut bytes = [0u8; 4];
    if !read_whole(reader, &mut bytes)? {
        return Ok(None);
    }
    Ok(Some(u32::from_le_bytes(bytes) as usize))
}

// The next stream under its number, and whether there was one. One that is longer than the buffer is refused, and ends
// the list.
fn replay_next<R: Read, W: Write>(reader: &mut R, writer: &mut W, number: u64) -> io::Result<bool> {
    let mut buffer = [0u8; 4096];
    let Some(size) = read_length(reader)? else {
        return Ok(false);
    };
    let Some(bytes) = buffer.get_mut(..size) else {
        writeln!(writer, "stream {number} refused: longer than 4096 bytes")?;
        return Ok(false);
    };
    if !read_whole(reader, bytes)? {
        return Ok(false);
    }
    writeln!(writer, "stream {number}")?;
    replay_stream(writer, bytes)?;
    Ok(true)
}

fn main(rt: HostRuntime) -> io::Result<()> {
    let mut reader = rt.stdin();
    let mut writer = rt.stdout();
    for number in 0..u64::MAX {
        if !replay_next(&mut reader, &mut writer, number)? {
            break;
        }
    }
    Ok(())
}
