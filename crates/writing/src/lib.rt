// The writer: the file of a preamble and events, in the front of a lent buffer, or the refusal that reading it would give.
#![tactic(auto)]

ghost use Rattle.std.specs.Prelude.{◌≡◌, ◌+◌, ◌*◌, ◌≤◌, ◌<◌, length};
ghost use Rattle.limits.specs.Limits.{event_bytes, is_file_size, trailer_bytes};
ghost use Rattle.writing.specs.Written.{written_bytes, Fitting, bytes16, bytes32, written_event, written_events, written_trailer, trace_from, Even, file_with};
ghost use Rattle.writing.specs.Writing.{file_from, is_even, handed, answer_write};
ghost use Rattle.appending.specs.Appended.{Appends};

use appending::{put_byte, put_word};
use limits::{Event, Recording, Refusal};

fn put16(out: &mut [u8], at: usize, n: u16) -> usize
    requires { at + 2 ≤ length out.old }
    ensures { Appends (bytes16 n) at out.old out.new result }
{
    put_word(out, at, &n.to_le_bytes())
}

fn put32(out: &mut [u8], at: usize, n: u32) -> usize
    requires { at + 4 ≤ length out.old }
    ensures { Appends (bytes32 n) at out.old out.new result }
{
    put_word(out, at, &n.to_le_bytes())
}

fn put_event(out: &mut [u8], at: usize, thread: u8, kind: u8, object: u16) -> usize
    requires { at + event_bytes ≤ length out.old }
    ensures { Appends (written_event event_bytes (record { thread = thread; kind = kind; object = object })) at out.old out.new result }
{
    let second = put_byte(out, at, thread);
    let third = put_byte(out, second, kind);
    put16(out, third, object)
}

// Event k is what the three lists have at place k - 1. They stand side by side as the C interface lends them.
fn put_events(out: &mut [u8], at: usize, threads: &[u8], kinds: &[u8], objects: &[u16]) -> usize
    requires even { Even threads.now kinds.now objects.now }
    requires threads_in_bounds { at + event_bytes * length threads.now ≤ length out.old }
    ensures { Appends (written_events event_bytes (trace_from threads.now kinds.now objects.now)) at out.old out.new result }
{
    let mut end = at;
    for ((thread, kind), object) in threads.iter().zip(kinds).zip(objects) {
        end = put_event(out, end, *thread, *kind, *object);
    }
    end
}

// The trailer of n events.
fn put_trailer(out: &mut [u8], at: usize, n: u16) -> usize
    requires { at + trailer_bytes ≤ length out.old }
    ensures { Appends (written_trailer event_bytes n) at out.old out.new result }
{
    let distance = Recording::TRAILER_BYTES as u32 + Event::BYTES as u32 * n as u32;
    let count = put32(out, at, distance);
    let mark = put16(out, count, n);
    put_word(out, mark, &[Recording::MARK_FIRST, Recording::MARK_SECOND])
}

// The file of a preamble and of the events that the three lists have, in the front of the buffer.
pub fn put_file(
    out: &mut [u8; Recording::MAX_BYTES],
    preamble: &[u8],
    threads: &[u8],
    kinds: &[u8],
    objects: &[u16],
) -> usize
    requires { Fitting preamble.now threads.now kinds.now objects.now }
    ensures { Appends (file_with preamble.now (trace_from threads.now kinds.now objects.now)) 0 out.old out.new result }
{
    let events = put_word(out, 0, preamble);
    let trailer = put_events(out, events, threads, kinds, objects);
    put_trailer(out, trailer, threads.len() as u16)
}

// Have the lists one length?
#[tactic(auto, unfolding(crate::specs::Writing::is_even))]
fn even(threads: &[u8], kinds: &[u8], objects: &[u16]) -> bool
    ensures { result ≡ is_even threads.now kinds.now objects.now }
{
    kinds.len() == threads.len() && objects.len() == threads.len()
}

// Is the file of so many bytes of preamble and so many events not too long?
#[tactic(auto, unfolding(crate::specs::Written::written_bytes))]
fn fits(preamble: usize, events: usize) -> bool
    ensures { result ≡ is_file_size (written_bytes event_bytes preamble events) }
{
    preamble <= Recording::MAX_BYTES
        && events <= Recording::MAX_BYTES
        && Recording::bytes_in_limit(preamble + Event::BYTES * events + Recording::TRAILER_BYTES)
}

// Hands a file to a buffer, if reading it refuses nothing and the buffer is long enough: how many bytes it has.
fn hand(file: &[u8], buffer: &mut [u8]) -> Result<usize, Refusal>
    ensures { (result, buffer.new) ≡ handed file.now buffer.old }
{
    judging::judge(file)?;
    if buffer.len() < file.len() {
        return Err(Refusal::ListShort);
    }
    Ok(put_word(buffer, 0, file))
}

// Makes the file, and hands it to the buffer.
fn write_fitting(
    preamble: &[u8],
    threads: &[u8],
    kinds: &[u8],
    objects: &[u16],
    buffer: &mut [u8],
) -> Result<usize, Refusal>
    requires { Fitting preamble.now threads.now kinds.now objects.now }
    ensures { (result, buffer.new) ≡ handed (file_from preamble.now threads.now kinds.now objects.now) buffer.old }
{
    let mut file = [0u8; Recording::MAX_BYTES];
    let size = put_file(&mut file, preamble, threads, kinds, objects);
    hand(&file[..size], buffer)
}

// Writes the file of a preamble and of the events whose threads, kinds and objects the three lists have. Lists of different lengths are
// refusal 10, judged first; then comes what reading the file would give; a buffer too short is refusal 10, judged last.
pub fn write_file(
    preamble: &[u8],
    threads: &[u8],
    kinds: &[u8],
    objects: &[u16],
    buffer: &mut [u8],
) -> Result<usize, Refusal>
    ensures { (result, buffer.new) ≡ answer_write preamble.now threads.now kinds.now objects.now buffer.old }
{
    if !even(threads, kinds, objects) {
        return Err(Refusal::ListShort);
    }
    if !fits(preamble.len(), threads.len()) {
        return Err(Refusal::FileSize);
    }
    write_fitting(preamble, threads, kinds, objects, buffer)
}
