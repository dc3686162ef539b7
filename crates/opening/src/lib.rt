// From a file's bytes to its table, or its refusal: what every question but the note does first. The table is filled in place, one pass over the events for each
// column. The first two are the events' own, from the bytes; every further pass reads the table alone.
#![tactic(auto)]

ghost use Rattle.std.specs.Prelude.{ℕ, List, ◌≡◌, suc, ◌+◌, ◌-◌, ◌≤◌, ◌<◌, length, ◌≢◌};
ghost use Rattle.std.proofs.Common.{rules};
ghost use Rattle.model.specs.Trace.{Trace, Valid, join, kind_of};
ghost use Rattle.model.specs.Good.{Good};
ghost use Rattle.model.specs.Sections.{is_outermost, is_last};
ghost use Rattle.format.specs.Bytes.{trace_in};
ghost use Rattle.judging.specs.Judged.{events_of, refusal_of};
ghost use Rattle.table.specs.Table.{trace, columns, column, room};
ghost use Rattle.opening.specs.Filling.{Columns, Turn, Stepped, Filled, Built};
ghost use Rattle.opening.specs.Knows.{LastEvents, Tails, LastWrites, Forks, Depths, NextEnds, LastTaken, access_began};
ghost use Rattle.opening.specs.Opening.{Opens};

use limits::{Event, Kind, Refusal, Thread};

// Word c of event k, where it is the event's own: its thread and its kind, a byte each, or its object.
#[tactic(auto, using(crate::proofs::FillLaws::own_first, crate::proofs::FillLaws::own_second, crate::proofs::FillLaws::own_object))]
fn own_word(ev: &[u8], k: usize, c: usize) -> u16
    requires { Good (trace_in ev.now) × (Valid (trace_in ev.now) k × (c < 2)) }
    ensures { result ≡ column c (trace_in ev.now) k }
{
    if c == table::OWN {
        return format::thread_at(ev, k) as u16 + 256 * (format::kind_at(ev, k) as u16);
    }
    format::object_at(ev, k) as u16
}

// Column c, where it is the events' own. It reads the bytes and keeps no list, so it is no `Pass`.
#[tactic(auto, using(crate::proofs::PassLaws::forward_start, crate::proofs::PassLaws::forward_more, crate::proofs::PassLaws::forward_end))]
fn add_own(ev: &[u8], c: usize, table: &mut [u16])
    requires { Columns (trace_in ev.now) c table.old × (c < 2) }
    ensures { Columns (trace_in ev.now) (suc c) table.new }
{
    let n = format::count(ev);
    for k in 1..n + 1 {
        table::set_word(table, k, c, own_word(ev, k, c));
    }
}

// A pass over the events that fills one column, with a list of what it has seen.
trait Pass {
    // The column.
    ghost column: { ℕ };

    // Its list, and what the list knows before each event.
    ghost list: { Self → List ℕ };

    ghost knows: { Trace → ℕ → List ℕ → Type 0 };

    // What else it stands on, which no step changes.
    ghost uses: { Trace → Self → Type 0 } = { λ _ _. Unit {0} };

    // Event k has its turn.
    fn put(&mut self, table: &mut [u16], k: usize)
        requires { Turn knows column k table.old (list self.old) × uses (trace table.old) self.old }
        ensures { Stepped knows column k (k + 1) table.old table.new (list self.new) × uses (trace table.old) self.new };

    // It reads the table alone: the first two columns, the events' own, are there.
    ghost is_link: { (2 ≤ column) × (column < columns) };
}

// Fills a pass's column. The list then knows what it has to behind the last event.
fn add<P: Pass>(table: &mut [u16], pass: &mut P)
    requires { Columns (trace table.old) P.column table.old × P.knows (trace table.old) 1 (P.list pass.old) × P.uses (trace table.old) pass.old }
    ensures { Columns (trace table.old) (suc P.column) table.new × P.knows (trace table.old) (suc (length (trace table.old))) (P.list pass.new) }
{
    let n = table::count(table);
    for k in 1..n + 1 {
        pass.put(table, k);
    }
}

// The event before each in its thread, by the last event of each thread so far.
#[derive(Drop)]
struct Previous {
    last: [u16; Thread::COUNT],
}

impl Pass for Previous {
    ghost column = { 2 };

    ghost list = { λ s. s.last };

    ghost knows = { LastEvents };

    ghost is_link = { Prim.search rules };

    fn put(&mut self, table: &mut [u16], k: usize) {
        let thread = table::thread_place(table, k);
        table::set_word(table, k, table::PREVIOUS, self.last[thread]);
        self.last[thread] = k as u16;
    }
}

// An event that is no join: a read is linked to the last write of its cell; a write is the last from then on.
fn put_observed(table: &mut [u16], k: usize, last: &mut [u16; Event::OBJECTS])
    requires { Turn LastWrites 3 k table.old last.old × (kind_of (trace table.old) k ≢ join) }
    ensures { Stepped LastWrites 3 k (k + 1) table.old table.new last.new }
{
    let cell = table::object_place(table, k);
    match table::kind_of(table, k) {
        Kind::Read => table::set_word(table, k, table::WAITS, last[cell]),
        Kind::Write => {
            table::set_word(table, k, table::WAITS, 0);
            last[cell] = k as u16;
        }
        _ => table::set_word(table, k, table::WAITS, 0),
    }
}

// What each read and each join waits for, by the last write of each cell so far, and by the last event of each thread.
#[derive(Drop)]
struct Waits<'a> {
    last: [u16; Event::OBJECTS],
    tails: &'a [u16; Thread::COUNT],
}

impl<'a> Pass for Waits<'a> {
    ghost column = { 3 };

    ghost list = { λ s. s.last };

    ghost knows = { LastWrites };

    ghost uses = { λ t s. Tails t s.tails.now };

    ghost is_link = { Prim.search rules };

    // A join is linked to the last event of the joined thread.
    fn put(&mut self, table: &mut [u16], k: usize) {
        match table::kind_of(table, k) {
            Kind::Join => {
                let child = table::child_place(table, k);
                table::set_word(table, k, table::WAITS, self.tails[child]);
            }
            _ => put_observed(table, k, &mut self.last),
        }
    }
}

// How deep each thread holds its lock before its acquires and releases. The count is by lock: in a good trace it is the thread's own.
#[derive(Drop)]
struct Depth {
    depth: [u16; Event::OBJECTS],
}

impl Pass for Depth {
    ghost column = { 4 };

    ghost list = { λ s. s.depth };

    ghost knows = { Depths };

    ghost is_link = { Prim.search rules };

    // An acquire or release has how deep its lock is held before it. An acquire deepens the hold, a release undoes one level.
    fn put(&mut self, table: &mut [u16], k: usize) {
        let lock = table::object_place(table, k);
        let deep = self.depth[lock];
        match table::kind_of(table, k) {
            Kind::Acquire => {
                table::set_word(table, k, table::DEPTH, deep);
                self.depth[lock] = deep + 1;
            }
            Kind::Release => {
                table::set_word(table, k, table::DEPTH, deep);
                self.depth[lock] = deep - 1;
            }
            _ => table::set_word(table, k, table::DEPTH, 0),
        }
    }
}

// Does event k begin a section: is it an outermost acquire?
#[tactic(auto, using(crate::proofs::StepLaws::begins_not, crate::proofs::StepLaws::begins_test))]
fn begins(table: &[u16], k: usize) -> bool
    requires { Columns (trace table.now) 5 table.now × Valid (trace table.now) k }
    ensures { result ≡ is_outermost (trace table.now) k }
{
    table::kind_of(table, k) == Kind::Acquire && table::word(table, k, table::DEPTH) == 0
}

// Does it end one: is it a last release?
#[tactic(auto, using(crate::proofs::StepLaws::ends_not, crate::proofs::StepLaws::ends_test))]
fn ends(table: &[u16], k: usize) -> bool
    requires { Columns (trace table.now) 5 table.now × Valid (trace table.now) k }
    ensures { result ≡ is_last (trace table.now) k }
{
    table::kind_of(table, k) == Kind::Release && table::word(table, k, table::DEPTH) <= 1
}

// Backwards: a last release is linked to itself, and is the next end of its lock's sections from then on; an outermost acquire is linked to the next end.
fn put_released(table: &mut [u16], k: usize, next: &mut [u16; Event::OBJECTS])
    requires { Turn NextEnds 5 k table.old next.old }
    ensures { Stepped NextEnds 5 k (k - 1) table.old table.new next.new }
{
    let lock = table::object_place(table, k);
    if ends(table, k) {
        table::set_word(table, k, table::RELEASED, k as u16);
        next[lock] = k as u16;
        return;
    }
    if begins(table, k) {
        table::set_word(table, k, table::RELEASED, next[lock]);
        return;
    }
    table::set_word(table, k, table::RELEASED, 0);
}

// Where each section ends. The next last release of a lock is by the outermost acquire's thread: before it nobody else can take the lock or release it.
// It goes backwards, so it is no `Pass`.
fn add_released(table: &mut [u16])
    requires { Columns (trace table.old) 5 table.old }
    ensures { Columns (trace table.old) 6 table.new }
{
    let mut next = [0u16; Event::OBJECTS];
    let n = table::count(table);
    for k in (1..n + 1).rev() {
        put_released(table, k, &mut next);
    }
}

// Where the interval of an access begins: a write begins its own, a read is in that of its observed write. 0 for every other event.
fn access_began(table: &[u16], k: usize) -> u16
    requires { Columns (trace table.now) 6 table.now × Valid (trace table.now) k }
    ensures { result ≡ access_began (trace table.now) k }
{
    match table::kind_of(table, k) {
        Kind::Write => k as u16,
        Kind::Read => table::word(table, k, table::WAITS) as u16,
        _ => 0,
    }
}

// Where each event's interval begins.
#[derive(Drop)]
struct Began {
    taken: [u16; Event::OBJECTS],
}

impl Pass for Began {
    ghost column = { 6 };

    ghost list = { λ s. s.taken };

    ghost knows = { LastTaken };

    ghost is_link = { Prim.search rules };

    // An outermost acquire begins a section, and is the last of its lock from then on; a last release is linked to the last one.
    fn put(&mut self, table: &mut [u16], k: usize) {
        let lock = table::object_place(table, k);
        if ends(table, k) {
            table::set_word(table, k, table::BEGAN, self.taken[lock]);
            return;
        }
        if begins(table, k) {
            table::set_word(table, k, table::BEGAN, k as u16);
            self.taken[lock] = k as u16;
            return;
        }
        table::set_word(table, k, table::BEGAN, access_began(table, k));
    }
}

// The fork of each event's thread.
#[derive(Drop)]
struct Forked {
    forks: [u16; Thread::COUNT],
}

impl Pass for Forked {
    ghost column = { 7 };

    ghost list = { λ s. s.forks };

    ghost knows = { Forks };

    ghost is_link = { Prim.search rules };

    // Event k is linked to the fork of its thread; a fork is that of the forked thread from then on.
    fn put(&mut self, table: &mut [u16], k: usize) {
        let thread = table::thread_place(table, k);
        match table::kind_of(table, k) {
            Kind::Fork => {
                let child = table::child_place(table, k);
                table::set_word(table, k, table::FORKED, self.forks[thread]);
                self.forks[child] = k as u16;
            }
            _ => table::set_word(table, k, table::FORKED, self.forks[thread]),
        }
    }
}

// All columns, from the first on.
fn fill(ev: &[u8], table: &mut [u16])
    requires { Columns (trace_in ev.now) 0 table.old }
    ensures { Filled (trace_in ev.now) table.new }
{
    add_own(ev, table::OWN, table);
    add_own(ev, table::OBJECT, table);
    let mut previous = Previous {
        last: [0; Thread::COUNT],
    };
    add(table, &mut previous);
    add(
        table,
        &mut Waits {
            last: [0; Event::OBJECTS],
            tails: &previous.last,
        },
    );
    add(
        table,
        &mut Depth {
            depth: [0; Event::OBJECTS],
        },
    );
    add_released(table);
    add(
        table,
        &mut Began {
            taken: [0; Event::OBJECTS],
        },
    );
    add(
        table,
        &mut Forked {
            forks: [0; Thread::COUNT],
        },
    );
}

// The table of a good trace, in the front of the lent area. Gives its length.
#[tactic(auto, using(crate::proofs::FillLaws::build_long, crate::proofs::FillLaws::build_start, crate::proofs::FillLaws::build_end))]
fn build(ev: &[u8], area: &mut [u16]) -> usize
    requires { Good (trace_in ev.now) × (room ≤ length area.old) }
    ensures { Built (trace_in ev.now) result area.new }
{
    let n = table::WORDS * format::count(ev);
    fill(ev, &mut area[..n]);
    n
}

// Judges a file; the table of a good one is put in the front of the lent area.
pub fn table_of(file: &[u8], area: &mut [u16; table::ROOM]) -> Result<usize, Refusal>
    ensures { Opens (refusal_of file.now) (events_of file.now) area.old area.new result }
{
    let t = judging::judge(file)?;
    Ok(build(format::events(file, t), area))
}
