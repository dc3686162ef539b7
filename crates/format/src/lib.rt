// The format of a recording's file: the layout, and events out of bytes. No other crate reads an event's bytes or the trailer's.
#![tactic(auto)]

ghost use Rattle.std.specs.Prelude.{◌≡◌, ◌+◌, ◌≤◌, ◌<◌, length};
ghost use Rattle.model.specs.Trace.{Valid, at, thread_of, kind_of, object_of};
ghost use Rattle.limits.specs.Limits.{event_bytes};
ghost use Rattle.format.specs.Bytes.{number16, number32, trace_in, plain};
ghost use Rattle.format.specs.Layout.{Sized, Counted, is_marked, layout_refusal, file_of, Placed, part_of};
ghost use Rattle.format.specs.Readable.{is_readable_byte, is_readable};

use limits::{Event, Recording, Refusal, Thread};

// A byte of a preamble.
#[derive(Clone, Copy)]
pub struct NoteByte {
    pub value: u8,
}

impl NoteByte {
    pub const LINE_FEED: u8 = 0x0A;

    // The lowest and the highest of the others.
    pub const LOWEST: u8 = 0x20;

    pub const HIGHEST: u8 = 0x7E;

    // May a preamble hold it?
    #[tactic(auto, unfolding(crate::specs::Readable::is_readable_byte))]
    pub fn is_readable(self) -> bool
        ensures { result ≡ is_readable_byte self.value }
    {
        self.value == NoteByte::LINE_FEED
            || (NoteByte::LOWEST..=NoteByte::HIGHEST).contains(&self.value)
    }
}

// May a preamble be these bytes?
#[tactic(auto, unfolding(crate::specs::Readable::is_readable))]
pub fn readable(s: &[u8]) -> bool
    ensures { result ≡ is_readable s.now }
{
    s.iter().all(|b| NoteByte { value: *b }.is_readable())
}

fn read16(s: &[u8], at: usize) -> usize
    requires { at + 2 ≤ length s.now }
    ensures value { result ≡ number16 s.now at }
    ensures upper_bound { result < 65536 }
{
    u16::from_le_bytes([s[at], s[at + 1]]) as usize
}

fn read32(s: &[u8], at: usize) -> usize
    requires { at + 4 ≤ length s.now }
    ensures { result ≡ number32 s.now at }
{
    u32::from_le_bytes([s[at], s[at + 1], s[at + 2], s[at + 3]]) as usize
}

// Has the file the mark?
#[tactic(auto, unfolding(crate::specs::Layout::is_marked))]
fn marked(file: &[u8]) -> bool
    requires { Sized file.now }
    ensures { result ≡ is_marked file.now }
{
    let len = file.len();
    file[len - 2] == Recording::MARK_FIRST && file[len - 1] == Recording::MARK_SECOND
}

// Refusals 4 and 13, in their order, where the trailer counts so many events.
#[tactic(auto, unfolding(crate::specs::Layout::layout_refusal, crate::specs::Layout::is_pointed, crate::specs::Layout::is_marked, crate::specs::Layout::distance, crate::specs::Layout::count, crate::specs::Layout::start, crate::specs::Layout::preamble))]
fn read_distance(file: &[u8], events: usize) -> Result<Recording, Refusal>
    requires { Counted file.now events }
    ensures { result ≡ file_of file.now (layout_refusal event_bytes file.now) }
{
    let len = file.len();
    let distance = read32(file, len - Recording::TRAILER_BYTES);
    if len < distance || distance != Recording::TRAILER_BYTES + Event::BYTES * events {
        return Err(Refusal::Distance);
    }
    let start = len - distance;
    if !readable(&file[..start]) {
        return Err(Refusal::Preamble);
    }
    Ok(Recording { start })
}

// Refusals 1 to 4 and 13, in their order.
#[tactic(auto, unfolding(crate::specs::Layout::layout_refusal, crate::specs::Layout::count))]
pub fn read(file: &[u8]) -> Result<Recording, Refusal>
    ensures { result ≡ file_of file.now (layout_refusal event_bytes file.now) }
{
    if !Recording::bytes_in_limit(file.len()) {
        return Err(Refusal::FileSize);
    }
    if !marked(file) {
        return Err(Refusal::Mark);
    }
    let events = read16(file, file.len() - 4);
    if !Recording::events_in_limit(events) {
        return Err(Refusal::EventCount);
    }
    read_distance(file, events)
}

// The bytes of the events of a file that has been read.
#[tactic(auto, using(crate::proofs::PartLaws::span_low, crate::proofs::PartLaws::event_part_lem))]
pub fn events(file: &[u8], t: Recording) -> &[u8]
    requires { Placed file.now t }
    ensures { result.now ≡ part_of file.now }
{
    let start = t.start;
    let end = file.len() - Recording::TRAILER_BYTES;
    &file[start..end]
}

// How many events there are.
#[tactic(auto, using(crate::proofs::EventLaws::count_is))]
pub fn count(ev: &[u8]) -> usize
    ensures { result ≡ length (trace_in ev.now) }
{
    ev.len() / Event::BYTES
}

// The thread of event k. Events are counted from 1.
#[tactic(auto, using(crate::proofs::EventLaws::bytes_there, crate::proofs::EventLaws::thread_is))]
pub fn thread_at(ev: &[u8], k: usize) -> u8
    requires { Valid (trace_in ev.now) k }
    ensures { result ≡ thread_of (trace_in ev.now) k }
{
    ev[Event::BYTES * (k - 1)]
}

// The kind of event k.
#[tactic(auto, using(crate::proofs::EventLaws::bytes_there, crate::proofs::EventLaws::kind_is))]
pub fn kind_at(ev: &[u8], k: usize) -> u8
    requires { Valid (trace_in ev.now) k }
    ensures { result ≡ kind_of (trace_in ev.now) k }
{
    ev[Event::BYTES * (k - 1) + 1]
}

// The object of event k.
#[tactic(auto, using(crate::proofs::EventLaws::bytes_there, crate::proofs::EventLaws::object_is))]
pub fn object_at(ev: &[u8], k: usize) -> usize
    requires { Valid (trace_in ev.now) k }
    ensures { result ≡ object_of (trace_in ev.now) k }
{
    read16(ev, Event::BYTES * (k - 1) + 2)
}

// Event k.
#[tactic(auto, using(crate::proofs::EventLaws::event_is))]
pub fn event_at(ev: &[u8], k: usize) -> Event
    requires { Valid (trace_in ev.now) k }
    ensures { plain result ≡ at (trace_in ev.now) k }
{
    Event {
        thread: Thread {
            number: thread_at(ev, k),
        },
        kind: kind_at(ev, k),
        object: object_at(ev, k),
    }
}
