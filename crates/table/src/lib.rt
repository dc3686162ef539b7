// A judged recording as one table: a row of words for each event, its own and its links. Only this crate knows the layout, and `opening`, which fills it.
#![tactic(auto)]

ghost use Rattle.std.specs.Prelude.{◌≡◌, ◌≤◌, ◌<◌, length};
ghost use Rattle.model.specs.Trace.{Valid, fork, thread_of, kind_of, object_of, does};
ghost use Rattle.model.specs.Good.{Good, max_thread, max_object};
ghost use Rattle.limits.specs.Kinds.{kind_number};
ghost use Rattle.model.specs.Lists.{threads};
ghost use Rattle.decision.specs.Decision.{is_conflicting};
ghost use Rattle.table.specs.Conflicts.{Lower, IsEvent, accesses, in_conflict};
ghost use Rattle.table.specs.Table.{words, word, trace, Place, with_word};

mod judged;

pub use judged::Table;
use limits::{Event, Kind, Recording, Thread};

// The words of a row.
pub const WORDS: usize = 8;

// The words of the longest table.
pub const ROOM: usize = WORDS * Recording::MAX_EVENTS;

// The columns: which word of a row has what. The first two are the event's own: its thread and its kind, a byte each; its object.
pub const OWN: usize = 0;

pub const OBJECT: usize = 1;

// The links: the event before it in its thread,
pub const PREVIOUS: usize = 2;

// what it waits for: its observed write, or the last event of the thread that it joins,
pub const WAITS: usize = 3;

// how deep its thread holds its lock before it,
pub const DEPTH: usize = 4;

// the end of its section,
pub const RELEASED: usize = 5;

// where its interval begins,
pub const BEGAN: usize = 6;

// the fork of its thread.
pub const FORKED: usize = 7;

// A word as a number to reckon with.
pub fn wide(x: u16) -> usize
    ensures value { result ≡ x }
    ensures upper_bound { result < 65536 }
{
    usize::from(x)
}

// Word c of event k's row.
#[tactic(auto, using(crate::proofs::TableLaws::row_there))]
pub fn word(table: &[u16], k: usize, c: usize) -> usize
    requires { Valid (trace table.now) k × (c < words) }
    ensures value { result ≡ word table.now k c }
    ensures upper_bound { result < 65536 }
{
    wide(table[WORDS * (k - 1) + c])
}

// How many events there are.
#[tactic(auto, using(crate::proofs::TableLaws::count_is))]
pub fn count(table: &[u16]) -> usize
    ensures { result ≡ length (trace table.now) }
{
    table.len() / WORDS
}

// The thread of event k. Events are counted from 1.
#[tactic(auto, using(crate::proofs::TableLaws::thread_is))]
pub fn thread_at(table: &[u16], k: usize) -> u8
    requires { Valid (trace table.now) k }
    ensures { result ≡ thread_of (trace table.now) k }
{
    (word(table, k, OWN) % 256) as u8
}

// The number of event k's kind.
#[tactic(auto, using(crate::proofs::TableLaws::kind_is))]
pub fn kind_at(table: &[u16], k: usize) -> u8
    requires { Valid (trace table.now) k }
    ensures { result ≡ kind_of (trace table.now) k }
{
    (word(table, k, OWN) / 256) as u8
}

// The kind of event k.
pub fn kind_of(table: &[u16], k: usize) -> Kind
    requires { Good (trace table.now) × Valid (trace table.now) k }
    ensures { kind_number result ≡ kind_of (trace table.now) k }
{
    Kind::try_from(kind_at(table, k)).unwrap()
}

// The object of event k: a cell, a lock, or the thread that is forked or joined.
#[tactic(auto, using(crate::proofs::TableLaws::object_is))]
pub fn object_at(table: &[u16], k: usize) -> usize
    requires { Valid (trace table.now) k }
    ensures { result ≡ object_of (trace table.now) k }
{
    word(table, k, OBJECT)
}

// The thread of event k, as a place of a list by thread.
#[tactic(auto, using(crate::proofs::TableLaws::thread_place))]
pub fn thread_place(table: &[u16], k: usize) -> usize
    requires { Good (trace table.now) × Valid (trace table.now) k }
    ensures value { result ≡ thread_of (trace table.now) k }
    ensures upper_bound { result ≤ max_thread }
{
    usize::from(thread_at(table, k))
}

// The object of event k, as a place of a list by object.
#[tactic(auto, using(crate::proofs::TableLaws::object_place))]
pub fn object_place(table: &[u16], k: usize) -> usize
    requires { Good (trace table.now) × Valid (trace table.now) k }
    ensures value { result ≡ object_of (trace table.now) k }
    ensures upper_bound { result ≤ max_object }
{
    object_at(table, k)
}

// The thread that event k forks or joins, as a place of a list by thread.
#[tactic(auto, using(crate::proofs::TableLaws::child_place))]
pub fn child_place(table: &[u16], k: usize) -> usize
    requires { Good (trace table.now) × (Valid (trace table.now) k × (fork ≤ kind_of (trace table.now) k)) }
    ensures value { result ≡ object_of (trace table.now) k }
    ensures upper_bound { result ≤ max_thread }
{
    object_at(table, k)
}

// Is event k of this kind, on this object?
#[tactic(auto, unfolding(model::specs::Trace::does))]
pub fn is_event(table: &[u16], k: usize, kind: u8, object: usize) -> bool
    requires { Valid (trace table.now) k }
    ensures { result ≡ does (trace table.now) kind object k }
{
    kind_at(table, k) == kind && object_at(table, k) == object
}

// Are events of these kinds accesses, at least one a write? A read is 1 and a write 2, so their sum tells. That is quicker than a case for each, and a
// report asks it of each pair on one object.
#[tactic(auto, unfolding(crate::specs::Conflicts::accesses))]
fn accesses(c: u8, d: u8) -> bool
    ensures { result ≡ accesses c d }
{
    let write = Kind::Write.number();
    c <= write && d <= write && write < c + d
}

// Event k, as a file has it.
fn event_at(table: &[u16], k: usize) -> Event
    requires { Valid (trace table.now) k }
    ensures { IsEvent (trace table.now) k result }
{
    Event {
        thread: Thread {
            number: thread_at(table, k),
        },
        kind: kind_at(table, k),
        object: object_at(table, k),
    }
}

// Are two events in conflict: of one cell, of different threads, both accesses, at least one a write? They are handed in, so that whoever goes over
// the pairs of an event reads that one once.
#[tactic(auto, unfolding(crate::specs::Conflicts::in_conflict))]
pub fn in_conflict(e: Event, f: Event) -> bool
    ensures { result ≡ in_conflict e f }
{
    e.object == f.object && e.thread.number != f.thread.number && accesses(e.kind, f.kind)
}

// Are two events of the trace, lower first, a conflicting pair?
#[tactic(auto, using(crate::proofs::ConflictLaws::conflict_is))]
fn conflicting_in(table: &[u16], a: usize, b: usize) -> bool
    requires { Lower (trace table.now) a b }
    ensures { result ≡ is_conflicting (trace table.now) a b }
{
    in_conflict(event_at(table, a), event_at(table, b))
}

// Are a and b a conflicting pair? Any two numbers may be asked.
#[tactic(auto, using(crate::proofs::ConflictLaws::below, crate::proofs::ConflictLaws::not_lower, crate::proofs::ConflictLaws::above))]
pub fn conflicting(table: &[u16], a: u16, b: u16) -> bool
    ensures { result ≡ is_conflicting (trace table.now) a b }
{
    let lower = usize::from(a);
    let higher = usize::from(b);
    0 < lower && lower < higher && higher <= count(table) && conflicting_in(table, lower, higher)
}

// Sets word c of event k's row.
pub fn set_word(table: &mut [u16], k: usize, c: usize, x: u16)
    requires { Place k c table.old }
    ensures { table.new ≡ with_word table.old k c x }
{
    table[WORDS * (k - 1) + c] = x;
}

// How many different threads have an event: the ones of a mask. (From the last event back, as the definition of a trace's threads goes.)
#[tactic(auto, using(crate::proofs::ThreadLaws::seen_start, crate::proofs::ThreadLaws::seen_valid, crate::proofs::ThreadLaws::seen_small, crate::proofs::ThreadLaws::seen_more, crate::proofs::ThreadLaws::seen_end))]
pub fn threads(table: &[u16]) -> u32
    requires { Good (trace table.now) }
    ensures { result ≡ length (threads (trace table.now)) }
{
    let mut seen = 0u16;
    for k in (1..count(table) + 1).rev() {
        seen = bits::include(seen, thread_at(table, k));
    }
    u16::count_ones(seen)
}
