// One run record against a session: the record's call, and the line to print for it. What is left of the session, the
// store and the work slice, and which line is printed, is defined in specs/Session.antt.
#![tactic(auto)]

ghost use Rattle.std.specs.Prelude.{◌≡◌, ℕ};
ghost use Rattle.model.specs.Answers.{view_answer, view_applied, view_projected, view_measured};
ghost use Rattle.session.specs.Session.{left, session, new_session, line_of, line_said, stop_line, in_turn, start_step, kind_step, step_of};

use chain::{apply_gate, apply_named_gate, measure, project, reset, start};
use lines::{Detail, Line};
use model::{Answer, Applied, Chain, Measured, Projected};
use record::{Record, read_record};

// A run so far: whether a start was accepted, and the chain. Its amplitudes lie in the store that is lent to each step.
// A flag and not an Option: a session has a chain before any start too, the all-zero record that `new_session` promises.
#[derive(Clone, Copy)]
pub struct Session {
    pub started: bool,
    pub chain: Chain,
}

// The session after a record, and the record's line. The line `0 8` says that reading stops.
#[derive(Clone, Copy)]
pub struct Stepped {
    pub session: Session,
    pub line: Line,
}

// Before any start: the chain is the all-zero record, as a refused start hands it back.
#[tactic(auto, unfolding(model::specs::Calls::start_call, model::specs::Sound::settings_fit))]
pub fn new_session() -> Session
    ensures { result ≡ new_session }
{
    let mut none = [0.0];
    let refused = start(0, 0, 0.0, 0.0, 0, &mut none);
    let chain = refused.chain;
    Session {
        started: false,
        chain,
    }
}

// ---- what each call answers, as a line says it: what follows the two numbers, or the number that refused it

// Of a start or a reset.
fn said_answer(answer: Answer) -> Result<Detail, u8>
    ensures { (kind : ℕ) → line_said kind result ≡ line_of kind (view_answer answer) }
{
    answer.map(|()| Detail::Empty)
}

// Of a gate, by matrix or by name. Its reason is not printed.
fn said_applied(answer: Applied) -> Result<Detail, u8>
    ensures { (kind : ℕ) → line_said kind result ≡ line_of kind (view_applied answer) }
{
    answer.map(|_| Detail::Empty)
}

fn said_projected(answer: Projected) -> Result<Detail, u8>
    ensures { (kind : ℕ) → line_said kind result ≡ line_of kind (view_projected answer) }
{
    match answer {
        Projected::Kept(weight) => Ok(Detail::Kept(weight)),
        Projected::Nothing => Ok(Detail::Nothing),
        Projected::Refused(number) => Err(number),
    }
}

fn said_measured(answer: Measured) -> Result<Detail, u8>
    ensures { (kind : ℕ) → line_said kind result ≡ line_of kind (view_measured answer) }
{
    answer.map(Detail::Bit)
}

// ---- each kind of record

// The session and the line that a call leaves.
fn left_by(kind: u8, started: bool, chain: Chain, said: Result<Detail, u8>) -> Stepped
    ensures session_value { result.session ≡ session started chain }
    ensures line_value { result.line ≡ line_said kind said }
{
    let (number, detail) = match said {
        Ok(detail) => (0, detail),
        Err(number) => (number, Detail::Empty),
    };
    Stepped {
        session: Session { started, chain },
        line: Line {
            kind,
            number,
            detail,
        },
    }
}

// A refused start counts for nothing.
#[tactic(auto, unfolding(crate::specs::Session::start_step))]
fn start_record(store: &mut [f64], n: u8, d: u8, exponent: u8, epsilon: f64, clamp: f64) -> Stepped
    ensures { left result.session result.line store.new ≡ start_step store.old n d exponent epsilon clamp }
{
    let (n, d) = (usize::from(n), usize::from(d));
    let out = start(n, d, epsilon, clamp, exponent, store);
    left_by(1, out.answer.is_ok(), out.chain, said_answer(out.answer))
}

// A record that may come now.
#[tactic(auto, unfolding(crate::specs::Session::kind_step, crate::specs::Session::gate_step, crate::specs::Session::named_gate_step, crate::specs::Session::projection_step, crate::specs::Session::measure_step, crate::specs::Session::reset_step))]
fn kind_record(session: Session, store: &mut [f64], work: &mut [f64], read: Record) -> Stepped
    ensures { left result.session result.line store.new work.new ≡ kind_step session store.old work.old read }
{
    let chain = session.chain;
    match read {
        Record::Start {
            n,
            d,
            exponent,
            epsilon,
            clamp,
        } => start_record(store, n, d, exponent, epsilon, clamp),
        Record::Gate { q0, q1, gate } => {
            let out = apply_gate(chain, store, work, usize::from(q0), usize::from(q1), gate);
            left_by(2, true, out.chain, said_applied(out.answer))
        }
        Record::NamedGate { q0, q1, name } => {
            let out = apply_named_gate(chain, store, work, usize::from(q0), usize::from(q1), name);
            left_by(3, true, out.chain, said_applied(out.answer))
        }
        Record::Projection { qubit, bit } => {
            let out = project(chain, store, work, usize::from(qubit), bit);
            left_by(4, true, out.chain, said_projected(out.answer))
        }
        Record::Measure { qubit, flag, draw } => {
            let flag = usize::from(flag);
            let out = measure(chain, store, work, usize::from(qubit), flag, draw);
            left_by(5, true, out.chain, said_measured(out.answer))
        }
        Record::Reset { qubit, draw } => {
            let out = reset(chain, store, work, usize::from(qubit), draw);
            left_by(6, true, out.chain, said_answer(out.answer))
        }
    }
}

// ---- the step

fn turned_away(session: Session) -> Stepped
    ensures session_value { result.session ≡ session }
    ensures line_value { result.line ≡ stop_line }
{
    Stepped {
        session,
        line: Line::STOP,
    }
}

// Whether a record may come now: a start as long as none was accepted, and anything else once one was.
#[tactic(auto, unfolding(crate::specs::Session::in_turn))]
fn in_turn(started: bool, read: Record) -> bool
    ensures { result ≡ in_turn started read }
{
    match read {
        Record::Start { .. } => !started,
        _ => started,
    }
}

// What stands of one record, from its length on; it may be cut off.
#[tactic(auto, unfolding(crate::specs::Session::step_of))]
pub fn step(session: Session, store: &mut [f64], work: &mut [f64], bytes: &[u8]) -> Stepped
    ensures { left result.session result.line store.new work.new ≡ step_of session store.old work.old bytes.now }
{
    match read_record(bytes) {
        Ok(read) if in_turn(session.started, read) => kind_record(session, store, work, read),
        _ => turned_away(session),
    }
}
