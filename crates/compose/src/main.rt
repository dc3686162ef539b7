// The compose program: reads a text from standard input and writes the recording that it makes to standard output.
#![tactic(auto)]

ghost use Rattle.std.specs.Prelude.{◌≡◌, ◌≤◌, length, Some};
ghost use Rattle.limits.specs.Refusals.{event_of};
ghost use Rattle.composing.specs.Texts.{text_bytes, lines};
ghost use Rattle.compose.specs.Composed.{line_about, Composes, WritesParts, in_words};
ghost use Rattle.compose.specs.declared.Failure.TheVariants.{BadLine as Bad};

use composing::{BadLine, TEXT_BYTES};
use limits::{Recording, Refusal};
use std::fmt;
use std::io::ErrorKind;

// One byte more than a text may have is enough to refuse it.
const INPUT_BYTES: usize = TEXT_BYTES + 1;

// Why a text makes no recording: its first bad line; or the refusal of its recording, with the line of the event that it speaks of, if it speaks of one.
#[derive(Clone, Copy, PartialEq, Eq, Debug)]
pub enum Failure {
    BadLine(BadLine),
    Refused {
        refusal: Refusal,
        line: Option<usize>,
    },
}

impl From<BadLine> for Failure {
    ghost from_gives = { λ b f. f ≡ Bad b };

    fn from(bad: BadLine) -> Failure {
        Failure::BadLine(bad)
    }
}

// A refusal that speaks of an event is told by its line too.
impl fmt::Display for Failure {
    ghost output = { λ f. Some (in_words f) };

    fn fmt<W: fmt::Write>(&self, f: &mut fmt::Formatter<W>) -> fmt::Result {
        match self {
            Failure::BadLine(bad) => write!(f, "bad line {}: {}", bad.number, bad.reason),
            Failure::Refused {
                refusal,
                line: Some(n),
            } => write!(f, "bad line {n}: {refusal}"),
            Failure::Refused {
                refusal,
                line: None,
            } => write!(f, "{refusal}"),
        }
    }
}

// Says a message on standard error. There is no one to tell where that fails. Each program has this for itself, and `put` too: a public function
// for all could promise nothing.
fn say<R: Eprint, M: fmt::Display + Drop>(rt: &R, message: M) {
    let _ = eprintln!(rt; "compose: {message}");
}

// Writes all of it. A reader who has left has had what it wanted, so nothing is said of that.
fn put<R: Print + Eprint>(rt: &R, file: &[u8]) {
    if let Err(e) = rt.write_all(file) {
        if e.kind() != ErrorKind::BrokenPipe {
            say(rt, "cannot write the recording");
        }
    }
}

// The line of the event that a refusal speaks of, if it speaks of one; so many note lines are before the events.
fn line_about(text: &[u8], notes: usize, r: Refusal) -> Option<usize>
    requires { notes ≤ text_bytes }
    ensures { result ≡ line_about notes (lines text.now) (event_of r) }
{
    let k = r.event()?;
    composing::line_of(text, notes + k as usize)
}

// The recording of a preamble and events that a text has, with so many note lines.
fn write_parts(
    text: &[u8],
    notes: usize,
    preamble: &[u8],
    threads: &[u8],
    kinds: &[u8],
    objects: &[u16],
    file: &mut [u8],
) -> Result<usize, Failure>
    requires { notes ≤ text_bytes }
    ensures { WritesParts text.now notes preamble.now threads.now kinds.now objects.now file.old file.new result }
{
    // A `match`, since the closure of a `map_err` would have to require what `line_about` does.
    match writing::write_file(preamble, threads, kinds, objects, file) {
        Ok(n) => Ok(n),
        Err(refusal) => Err(Failure::Refused {
            refusal,
            line: line_about(text, notes, refusal),
        }),
    }
}

// The recording that a text makes, in the front of a lent file: how many bytes it has.
fn compose_text(text: &[u8], file: &mut [u8]) -> Result<usize, Failure>
    requires { length text.now ≤ text_bytes }
    ensures { Composes text.now file.old file.new result }
{
    let mut preamble = [0u8; TEXT_BYTES];
    let mut threads = [0u8; TEXT_BYTES];
    let mut kinds = [0u8; TEXT_BYTES];
    let mut objects = [0u16; TEXT_BYTES];
    let parts = composing::read_text(text, &mut preamble, &mut threads, &mut kinds, &mut objects)?;
    write_parts(
        text,
        parts.notes,
        &preamble[..parts.preamble],
        &threads[..parts.events],
        &kinds[..parts.events],
        &objects[..parts.events],
        file,
    )
}

// Writes the recording that a text makes, or says why there is none.
fn answer<R: Print + Eprint>(rt: &R, text: &[u8])
    requires { length text.now ≤ text_bytes }
{
    let mut file = [0u8; Recording::MAX_BYTES];
    match compose_text(text, &mut file) {
        Ok(n) => put(rt, &file[..n]),
        Err(failure) => say(rt, failure),
    }
}

fn main(rt: HostRuntime) {
    let mut text = [0u8; INPUT_BYTES];
    match input::read(&mut rt.stdin(), &mut text) {
        Ok(n) if n <= TEXT_BYTES => answer(&rt, &text[..n]),
        Ok(_) => say(&rt, "the text is too long"),
        Err(_) => say(&rt, "cannot read the text"),
    }
}
