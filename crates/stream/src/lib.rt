// The program's output: run records that come in pieces of any size, and the text of their lines. What is printed for a
// whole input is defined in specs/Output.antt, what one piece does in specs/Feeding.antt.
#![tactic(auto)]

ghost use Rattle.std.specs.Prelude.{◌+◌, ◌≤◌, ◌<◌, true, ◌≡◌, length, take};
ghost use Rattle.record.specs.Frames.{whole};
ghost use Rattle.stream.specs.Feeding.{can_take, if_whole, before, after, fed, new_run, ending, ended};

use lines::{Line, write_line};
use record::more_bytes;
use session::{Session, new_session, step};

// A run between two pieces: the session, how many bytes of a record are there, and whether reading has stopped. A flag
// and not an Option: a session stands after the stop too, and what is promised speaks of it.
#[derive(Clone, Copy)]
pub struct Run {
    pub session: Session,
    pub pending: usize,
    pub stopped: bool,
}

// What a piece did: the run after it, how many of its bytes were taken, and how many bytes of text were written. The
// bytes and the text themselves are fixed memory that the host lends, so that a slice has its count here.
#[derive(Clone, Copy)]
pub struct Fed {
    pub run: Run,
    pub used: usize,
    pub written: usize,
}

impl Fed {
    // Whether a byte more can be taken: reading has not stopped, the byte has a place, and a line has room.
    #[tactic(auto, unfolding(crate::specs::Feeding::can_take))]
    fn can_take(&self, places: usize, room: usize) -> bool
        requires { self.now.written ≤ room }
        ensures as_defined { result ≡ can_take self.now.run.stopped self.now.run.pending places self.now.written room }
        ensures has_room { result ≡ true → (self.now.run.pending < places) × (self.now.written + 25 ≤ room) }
    {
        !self.run.stopped && self.run.pending < places && 25 <= room - self.written
    }

    // The record that is there, which is whole: its step, and its line behind the text that is there.
    #[tactic(auto, using(crate::proofs::Laws::Turns::line_long, lines::specs::Writing::length_line))]
    fn do_record(&mut self, store: &mut [f64], work: &mut [f64], bytes: &[u8], text: &mut [u8])
        requires in_bytes { self.old.run.pending ≤ length bytes.now }
        requires is_whole { whole (take self.old.run.pending bytes.now) ≡ true }
        requires has_room { self.old.written + 25 ≤ length text.old }
        ensures { after self.new store.new work.new bytes.now text.new ≡ if_whole (after self.old store.old work.old bytes.now text.old) }
    {
        let out = step(self.run.session, store, work, &bytes[..self.run.pending]);
        self.written += write_line(&mut text[self.written..], out.line);
        self.run.session = out.session;
        self.run.stopped = out.line.stops();
        self.run.pending = 0;
    }

    // A record that is whole is done. Its step is a function of its own: what a step holds in passing would be laid out anew
    // for each byte here.
    #[tactic(auto, using(crate::proofs::Laws::Turns::waits))]
    fn do_if_whole(&mut self, store: &mut [f64], work: &mut [f64], bytes: &[u8], text: &mut [u8])
        requires in_bytes { self.old.run.pending ≤ length bytes.now }
        requires has_room { self.old.written + 25 ≤ length text.old }
        ensures { after self.new store.new work.new bytes.now text.new ≡ if_whole (after self.old store.old work.old bytes.now text.old) }
    {
        if is_whole(&bytes[..self.run.pending]) {
            self.do_record(store, work, bytes, text);
        }
    }
}

pub fn new_run() -> Run
    ensures { result ≡ new_run }
{
    Run {
        session: new_session(),
        pending: 0,
        stopped: false,
    }
}

// Whether the bytes hold a whole record: the two of its length, and as many as that says.
#[tactic(auto, using(crate::proofs::Laws::Turns::half_a_length, crate::proofs::Laws::Turns::as_its_length_says))]
fn is_whole(bytes: &[u8]) -> bool
    ensures { result ≡ whole bytes.now }
{
    let [low, high, rest @ ..] = bytes else {
        return false;
    };
    more_bytes(*low, *high) <= rest.len()
}

// Takes the bytes of a piece, does every record that they complete, and writes the records' lines to the text. `bytes`
// holds the record in progress, and needs 262. A byte is taken only while the text has room for a line, 25 bytes: if
// fewer bytes were used than the piece has, and reading has not stopped, room is what is lacking.
#[tactic(auto, using(crate::proofs::Laws::Turns::all_taken, crate::proofs::Laws::Turns::shut))]
pub fn feed(
    run: Run,
    store: &mut [f64],
    work: &mut [f64],
    bytes: &mut [u8],
    piece: &[u8],
    text: &mut [u8],
) -> Fed
    ensures { after result store.new work.new bytes.new text.new ≡ fed (before run store.old work.old bytes.old text.old) piece.now }
{
    let mut fed = Fed {
        run,
        used: 0,
        written: 0,
    };
    for byte in piece {
        if !fed.can_take(bytes.len(), text.len()) {
            break;
        }
        bytes[fed.run.pending] = *byte;
        fed.run.pending += 1;
        fed.used += 1;
        fed.do_if_whole(store, work, bytes, text);
    }
    fed
}

// The input's end: a record that is cut off gives the line `0 8`. The answer is a count, and so no Option: how many bytes of
// text were written, 0 where the text has less room than 25.
#[tactic(auto, using(crate::proofs::Laws::Turns::nothing_more, crate::proofs::Laws::Turns::cut_off))]
pub fn end(run: Run, text: &mut [u8]) -> usize
    ensures { ending text.new result ≡ ended run text.old }
{
    if run.stopped || run.pending == 0 {
        return 0;
    }
    write_line(text, Line::STOP)
}
