// Reads run records from standard input and prints a line for each. What is printed for an input is `stream`'s; here are
// the reads and writes. It stops at the input's end, after the line `0 8`, and where a read or a write fails.
#![tactic(auto)]

ghost use Rattle.std.specs.Prelude.{◌≤◌, ◌≡◌, length, take, IfOk, OnOk, IfSome, option_map};
ghost use Rattle.std.specs.Io.KnownBytes.{ReadConsumes, Appends};
ghost use Rattle.stream.specs.Output.{new_store, new_work};
ghost use Rattle.stream.specs.Feeding.{Underway, ended};
ghost use Rattle.chainrun.specs.Program.{in_memory, Turn, Prints};

mod memory;

use memory::Memory;
use std::io;
use std::io::{Read, Write};
use stream::{Run, end, feed, new_run};

// Reads what is there, as far as the slice goes, and answers how many bytes came; 0 at the input's end.
fn read_piece<R: Read>(reader: &mut R, piece: &mut [u8]) -> io::Result<usize>
    ensures in_bounds { IfOk result (λ n. n ≤ length piece.new) }
    ensures bytes { ReadConsumes (R.remaining reader.old) (R.remaining reader.new) result piece.new }
{
    reader.read(piece)
}

// Writes the first n bytes at once.
fn print_front<W: Write>(writer: &mut W, text: &[u8], n: usize) -> io::Result<()>
    requires { n ≤ length text.now }
    ensures { OnOk result (Appends (W.contents writer.old) (W.contents writer.new) (take n text.now)) }
{
    writer.write_all(&text[..n])?;
    writer.flush()
}

// The input has ended.
#[tactic(auto, using(stream::proofs::Laws::Turns::ended_within))]
fn print_end<W: Write>(writer: &mut W, run: Run, text: &mut [u8]) -> io::Result<()>
    ensures { OnOk result (Appends (W.contents writer.old) (W.contents writer.new) (take (ended run text.old).written (ended run text.old).text)) }
{
    let n = end(run, text);
    print_front(writer, text, n)
}

// One piece: read, fed, and its lines printed. The answer is the run that goes on; none where the input has ended or
// reading stops. Each slice is borrowed once and lent on by itself: lending on from the fields was tried, and the proof
// didn't close.
fn turn<R: Read, W: Write>(
    reader: &mut R,
    writer: &mut W,
    run: Run,
    memory: &mut Memory,
) -> io::Result<Option<Run>>
    ensures { IfOk result (λ next. Underway (in_memory run memory.old) → IfSome (R.remaining reader.old) (λ input. Turn (in_memory run memory.old) (option_map (λ after. in_memory after memory.new) next) input (R.remaining reader.new) (W.contents writer.old) (W.contents writer.new))) }
{
    let store = &mut *memory.store;
    let work = &mut *memory.work;
    let bytes = &mut *memory.bytes;
    let piece = &mut *memory.piece;
    let text = &mut *memory.text;
    let got = read_piece(reader, piece)?;
    if got == 0 {
        print_end(writer, run, text)?;
        return Ok(None);
    }
    let fed = feed(run, store, work, bytes, &piece[..got], text);
    print_front(writer, text, fed.written)?;
    Ok((!fed.run.stopped).then_some(fed.run))
}

// The whole run: what it prints is the text of its input, however that comes in pieces. A proved loop has to end, and
// nothing says that the input does. So the turns are counted, up to a number that no run uses up. The store and the work
// slice are those of which `lines_of` of stream speaks; that the memory is long enough is in its type.
fn run_all<R: Read, W: Write>(reader: &mut R, writer: &mut W, memory: &mut Memory) -> io::Result<()>
    requires store_value { memory.old.store.now ≡ new_store }
    requires work_value { memory.old.work.now ≡ new_work }
    ensures { OnOk result (Prints (R.remaining reader.old) (W.contents writer.old) (W.contents writer.new)) }
{
    let mut run = new_run();
    for _ in 0..u64::MAX {
        let Some(after) = turn(reader, writer, run, memory)? else {
            return Ok(());
        };
        run = after;
    }
    Ok(())
}

// The text has room for a line for each byte of a piece, so that every byte is taken (`Promised.taken` of stream).
fn main(rt: HostRuntime) -> io::Result<()> {
    let mut reader = rt.stdin();
    let mut writer = rt.stdout();
    let mut store = [0.0f64; 512];
    let mut work = [0.0f64; 1344];
    let mut bytes = [0u8; 262];
    let mut piece = [0u8; 1024];
    let mut text = [0u8; 25600];
    let mut memory = Memory {
        store: &mut store,
        work: &mut work,
        bytes: &mut bytes,
        piece: &mut piece,
        text: &mut text,
    };
    run_all(&mut reader, &mut writer, &mut memory)
}
