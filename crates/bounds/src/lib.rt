// What bounds the staircase of two lists of events, p of the moved thread and q of the others: where the intervals of p end, and how far
// the moved thread must have passed at least before each event of q.
#![tactic(auto)]

ghost use Rattle.std.specs.Prelude.{◌≡◌, ◌+◌, ◌≤◌, ◌<◌, length, replicate};
ghost use Rattle.model.specs.Trace.{Valid};
ghost use Rattle.table.specs.Judged.{events};
ghost use Rattle.table.specs.Entries.{with_write};
ghost use Rattle.model.specs.Good.{max_object};
ghost use Rattle.bounds.specs.Bounds.{is_own, Given, Ended, Needed, Bound, Covers};
ghost use Rattle.bounds.specs.Steps.{with_end, raised_to, is_outside, with_read, Reading, Read, own_event, action_bound, first_bound, First, is_other, with_over, FirstTwo, with_section, Sections, is_open_in, with_open};

use limits::{Event, Kind, Thread};
use table::Table;

// Is w, which may be 0, an event of thread m?
#[tactic(auto, unfolding(crate::specs::Bounds::is_own, model::specs::Lists::just))]
fn is_own(table: &Table, m: u8, w: usize) -> bool
    requires { w ≤ length (events table.now) }
    ensures { result ≡ is_own (events table.now) m w }
{
    w != 0 && table.thread_at(w) == m
}

// Event e of p is the last so far of its interval, where that begins in p.
#[tactic(auto, using(crate::proofs::EndLaws::began_few, crate::proofs::EndLaws::end_room), unfolding(crate::specs::Steps::with_end))]
fn add_end(table: &Table, m: u8, e: usize, ends: &mut [u16])
    requires { Valid (events table.now) e × (length (events table.now) < length ends.old) }
    ensures { ends.new ≡ with_end (events table.now) m e ends.old }
{
    ends[e] = 0;
    let v = table.began_at(e);
    if is_own(table, m, v) {
        ends[v] = e as u16;
    }
}

// Where the interval ends that each event of p begins.
fn add_ends(table: &Table, m: u8, p: &[u16], q: &[u16], ends: &mut [u16])
    requires { Given table.now m p.now q.now ends.old }
    ensures { Ended table.now m p.now q.now ends.new }
{
    for e in p {
        add_end(table, m, usize::from(*e), ends);
    }
}

// Is event e a read that saw no write of thread m?
#[tactic(auto, using(crate::proofs::FirstLaws::waits_few, table::proofs::LinkFacts::reads_observed), unfolding(crate::specs::Steps::is_outside))]
fn outside(table: &Table, m: u8, e: usize) -> bool
    requires { Valid (events table.now) e }
    ensures { result ≡ is_outside (events table.now) m e }
{
    table.kind_at(e) == Kind::Read && !is_own(table, m, table.waits_at(e))
}

// Event e of p, where it is such a read, is the last of its cell so far.
#[tactic(auto, unfolding(crate::specs::Steps::with_read))]
fn note_read(table: &Table, m: u8, e: usize, seen: &mut [u16; Event::OBJECTS])
    requires { Valid (events table.now) e }
    ensures { seen.new ≡ with_read (events table.now) m e seen.old }
{
    if outside(table, m, e) {
        let x = table.object_place(e);
        seen[x] = e as u16;
    }
}

// The events of p from place `from` on that are below event k pass. Gives the place of the first that is not.
fn note_reads(
    table: &Table,
    m: u8,
    p: &[u16],
    seen: &mut [u16; Event::OBJECTS],
    from: usize,
    k: usize,
) -> usize
    requires { Reading table.now m p.now k from seen.old }
    ensures { Read table.now m p.now k result seen.new }
{
    for i in from..p.len() {
        let e = usize::from(p[i]);
        if k <= e {
            return i;
        }
        note_read(table, m, e, seen);
    }
    p.len()
}

// w, where it is an event of thread m; 0 otherwise: it becomes an entry of the table of needs, where 0 is none.
#[tactic(auto, unfolding(crate::specs::Steps::own_event))]
fn own_event(table: &Table, m: u8, w: usize) -> u16
    requires { (w ≤ length (events table.now)) × (w < 65536) }
    ensures { result ≡ own_event (events table.now) m w }
{
    if is_own(table, m, w) { w as u16 } else { 0 }
}

// What event k of q needs by what it does: the write of p that it observed, the last event of p where it joins the moved thread, or the last read of p
// before it that it overwrote.
#[tactic(auto, using(crate::proofs::FirstLaws::waits_few), unfolding(crate::specs::Steps::action_bound))]
fn action_bound(table: &Table, m: u8, k: usize, seen: &[u16; Event::OBJECTS]) -> u16
    requires { Valid (events table.now) k }
    ensures { result ≡ action_bound (events table.now) m k seen.now }
{
    if table.kind_at(k) == Kind::Write {
        let x = table.object_place(k);
        return seen[x];
    }
    own_event(table, m, table.waits_at(k))
}

// And where its thread was forked by p, the fork.
#[tactic(auto, using(crate::proofs::FirstLaws::fork_few), unfolding(crate::specs::Steps::first_bound))]
fn first_bound(table: &Table, m: u8, k: usize, seen: &[u16; Event::OBJECTS]) -> u16
    requires { Valid (events table.now) k }
    ensures { result ≡ first_bound (events table.now) m k seen.now }
{
    let bound = action_bound(table, m, k, seen);
    bound.max(own_event(table, m, table.forked_at(k)))
}

// What each event of q needs by what it waits for, observed or overwrote. The two lists are walked in the trace's order.
fn add_first(table: &Table, m: u8, p: &[u16], q: &[u16], need: &mut [u16])
    requires { Given table.now m p.now q.now need.old }
    ensures { Needed table.now m p.now q.now (First (events table.now) p.now) need.new }
{
    let mut seen = [0u16; Event::OBJECTS];
    let mut i = 0;
    for event in q {
        let k = usize::from(*event);
        i = note_reads(table, m, p, &mut seen, i, k);
        need[k] = first_bound(table, m, k, &seen);
    }
}

// Entry k of a table is at least v.
#[tactic(auto, unfolding(crate::specs::Steps::raised_to))]
fn raise(list: &mut [u16], k: usize, v: u16)
    requires { k < length list.old }
    ensures { list.new ≡ raised_to list.old k v }
{
    list[k] = list[k].max(v);
}

// Event e of p, where it is a write, is the last of its cell so far.
#[tactic(auto, unfolding(table::specs::Entries::with_write))]
fn note_write(table: &Table, e: usize, last: &mut [u16; Event::OBJECTS])
    requires { Valid (events table.now) e }
    ensures { last.new ≡ with_write (events table.now) e last.old }
{
    if table.kind_at(e) == Kind::Write {
        let x = table.object_place(e);
        last[x] = e as u16;
    }
}

// Is w, which may be 0, an event of another thread than m?
#[tactic(auto, unfolding(crate::specs::Steps::is_other))]
fn is_other(table: &Table, m: u8, w: usize) -> bool
    requires { w ≤ length (events table.now) }
    ensures { result ≡ is_other (events table.now) m w }
{
    w != 0 && !is_own(table, m, w)
}

// Where event e of p observed a write of q, that write needs the last write of p before e.
#[tactic(auto, using(crate::proofs::FirstLaws::waits_few, table::proofs::LinkFacts::reads_observed), unfolding(crate::specs::Steps::with_over))]
fn read_over(table: &Table, m: u8, e: usize, last: &[u16; Event::OBJECTS], need: &mut [u16])
    requires { Valid (events table.now) e × (length (events table.now) < length need.old) }
    ensures { need.new ≡ with_over (events table.now) m e last.now need.old }
{
    if table.kind_at(e) != Kind::Read {
        return;
    }
    let w = table.waits_at(e);
    if is_other(table, m, w) {
        let x = table.object_place(e);
        raise(need, w, last[x]);
    }
}

// What each write of q needs by the reads of p that observed it.
fn add_over(table: &Table, m: u8, p: &[u16], q: &[u16], need: &mut [u16])
    requires { Needed table.now m p.now q.now (First (events table.now) p.now) need.old }
    ensures { Needed table.now m p.now q.now (FirstTwo (events table.now) p.now) need.new }
{
    let mut last = [0u16; Event::OBJECTS];
    for event in p {
        let e = usize::from(*event);
        read_over(table, m, e, &last, need);
        note_write(table, e, &mut last);
    }
}

// A section that event v of p begins ends at `ends[v]`: that is the last end on its lock so far.
#[tactic(auto, unfolding(crate::specs::Steps::with_section))]
fn note_section(table: &Table, v: usize, ends: &[u16], last: &mut [u16; Event::OBJECTS])
    requires { Valid (events table.now) v × (length (events table.now) < length ends.now) }
    ensures { last.new ≡ with_section (events table.now) v ends.now last.old }
{
    if table.kind_at(v) != Kind::Acquire {
        return;
    }
    let x = table.object_place(v);
    raise(last, x, ends[v]);
}

// The last end of p's sections on each lock.
fn note_sections(
    table: &Table,
    m: u8,
    p: &[u16],
    q: &[u16],
    ends: &[u16],
    last: &mut [u16; Event::OBJECTS],
)
    requires ended { Ended table.now m p.now q.now ends.now }
    requires last_value { last.old ≡ replicate (max_object + 1) 0 }
    ensures { Sections (events table.now) p.now last.new }
{
    for v in p {
        note_section(table, usize::from(*v), ends, last);
    }
}

// Does event k begin a section that does not end up to the tops?
#[tactic(auto, using(crate::proofs::OpenLaws::inner, crate::proofs::OpenLaws::outermost, crate::proofs::OpenLaws::no_section, table::proofs::LinkFacts::acquires_release), unfolding(crate::specs::Steps::is_open_in))]
fn unended(table: &Table, tops: &[u16; Thread::COUNT], k: usize) -> bool
    requires { Valid (events table.now) k }
    ensures { result ≡ is_open_in (events table.now) tops.now k }
{
    if table.kind_at(k) != Kind::Acquire || table.began_at(k) != k {
        return false;
    }
    let r = table.released_at(k);
    let c = table.thread_place(k);
    r == 0 || usize::from(tops[c]) < r
}

// Where event k of q begins such a section, it needs the last end of p's sections on its lock.
#[tactic(auto, unfolding(crate::specs::Steps::with_open))]
fn add_open(
    table: &Table,
    tops: &[u16; Thread::COUNT],
    k: usize,
    last: &[u16; Event::OBJECTS],
    need: &mut [u16],
)
    requires { Valid (events table.now) k × (length (events table.now) < length need.old) }
    ensures { need.new ≡ with_open (events table.now) tops.now k last.now need.old }
{
    if unended(table, tops, k) {
        let x = table.object_place(k);
        raise(need, k, last[x]);
    }
}

// What each section of q that does not end up to the tops needs.
fn add_opens(
    table: &Table,
    m: u8,
    tops: &[u16; Thread::COUNT],
    p: &[u16],
    q: &[u16],
    last: &[u16; Event::OBJECTS],
    need: &mut [u16],
)
    requires covers { Covers (events table.now) m q.now tops.now × Sections (events table.now) p.now last.now }
    requires needed { Needed table.now m p.now q.now (FirstTwo (events table.now) p.now) need.old }
    ensures { Needed table.now m p.now q.now (Bound (events table.now) p.now q.now) need.new }
{
    for k in q {
        add_open(table, tops, usize::from(*k), last, need);
    }
}

// What each section of q that has no end needs: the last end of p's sections on its lock.
fn add_unended(
    table: &Table,
    m: u8,
    tops: &[u16; Thread::COUNT],
    p: &[u16],
    q: &[u16],
    ends: &[u16],
    need: &mut [u16],
)
    requires ended { Ended table.now m p.now q.now ends.now }
    requires needed { Needed table.now m p.now q.now (FirstTwo (events table.now) p.now) need.old }
    requires covers { Covers (events table.now) m q.now tops.now }
    ensures { Needed table.now m p.now q.now (Bound (events table.now) p.now q.now) need.new }
{
    let mut last = [0u16; Event::OBJECTS];
    note_sections(table, m, p, q, ends, &mut last);
    add_opens(table, m, tops, p, q, &last, need);
}

// The tables of the staircase of p and q: where the intervals of p end, and what each event of q needs at least.
pub fn fill(
    table: &Table,
    m: u8,
    tops: &[u16; Thread::COUNT],
    p: &[u16],
    q: &[u16],
    ends: &mut [u16],
    need: &mut [u16],
)
    requires { Given table.now m p.now q.now ends.old × (Given table.now m p.now q.now need.old × Covers (events table.now) m q.now tops.now) }
    ensures ended { Ended table.now m p.now q.now ends.new }
    ensures needed { Needed table.now m p.now q.now (Bound (events table.now) p.now q.now) need.new }
{
    add_ends(table, m, p, q, ends);
    add_first(table, m, p, q, need);
    add_over(table, m, p, q, need);
    add_unended(table, m, tops, p, q, ends, need);
}
