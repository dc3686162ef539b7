// The table of a judged recording.

ghost use Rattle.table.specs.Table.{Linked};
ghost use Rattle.table.specs.Facts.{Linked_prop};

use limits::{Event, Kind};

// The words of a table that has the links of all its events, and so those of a good recording.
// A link is 0 where there is none, as the definitions `previous`, `waits_for`, `release_of`, `began` and `fork_of` have it.
#[derive(Clone, Copy)]
pub struct Table<'a> {
    pub words: &'a [u16],
    pub ghost links: { Linked words.now } by { Linked_prop words.now },
}

// Some methods do what a function of the same name does for a list of words: a table in the making is such a list, and has no links yet.
// The methods for links differ in the column alone, and have the names of the links.
impl Table<'_> {
    ghost use Rattle.std.specs.Prelude.{◌≡◌, ◌≤◌, ◌<◌, length};
    ghost use Rattle.model.specs.Trace.{Valid, thread_of, kind_of, object_of};
    ghost use Rattle.model.specs.Lists.{threads};
    ghost use Rattle.model.specs.Good.{max_thread, max_object};
    ghost use Rattle.limits.specs.Kinds.{kind_number};
    ghost use Rattle.decision.specs.Decision.{is_conflicting};
    ghost use Rattle.table.specs.Links.{previous, waits_for, release_of, began, fork_of};
    ghost use Rattle.table.specs.Table.{columns, column};
    ghost use Rattle.table.specs.Conflicts.{IsEvent};
    ghost use Rattle.table.specs.Judged.{events};

    // How many events there are.
    pub fn count(&self) -> usize
        ensures { result ≡ length (events self.now) }
    {
        crate::count(self.words)
    }

    // The thread of event k. Events are counted from 1.
    pub fn thread_at(&self, k: usize) -> u8
        requires { Valid (events self.now) k }
        ensures value { result ≡ thread_of (events self.now) k }
        ensures upper_bound { result ≤ max_thread }
    {
        crate::thread_at(self.words, k)
    }

    // The same, as a place of a list by thread.
    pub fn thread_place(&self, k: usize) -> usize
        requires { Valid (events self.now) k }
        ensures value { result ≡ thread_of (events self.now) k }
        ensures upper_bound { result ≤ max_thread }
    {
        crate::thread_place(self.words, k)
    }

    // The kind of event k.
    pub fn kind_at(&self, k: usize) -> Kind
        requires { Valid (events self.now) k }
        ensures { kind_number result ≡ kind_of (events self.now) k }
    {
        crate::kind_of(self.words, k)
    }

    // The object of event k, a cell, a lock, or the thread that is forked or joined, as a place of a list by object.
    pub fn object_place(&self, k: usize) -> usize
        requires { Valid (events self.now) k }
        ensures value { result ≡ object_of (events self.now) k }
        ensures upper_bound { result ≤ max_object }
    {
        crate::object_place(self.words, k)
    }

    // Event k, as a file has it.
    pub fn event_at(&self, k: usize) -> Event
        requires { Valid (events self.now) k }
        ensures { IsEvent (events self.now) k result }
    {
        crate::event_at(self.words, k)
    }

    // What column c has of event k.
    #[tactic(auto, using(crate::proofs::TableLaws::column_is))]
    fn column_at(&self, k: usize, c: usize) -> usize
        requires { Valid (events self.now) k × (c < columns) }
        ensures value { result ≡ column c (events self.now) k }
        ensures upper_bound { result < 65536 }
    {
        crate::word(self.words, k, c)
    }

    // The event before event k in its thread; 0 where there is none.
    pub fn previous_at(&self, k: usize) -> usize
        requires { Valid (events self.now) k }
        ensures { result ≡ previous (events self.now) k }
    {
        self.column_at(k, crate::PREVIOUS)
    }

    // What event k waits for: the observed write of a read, the last event of the thread that is joined; 0 where there is none.
    pub fn waits_at(&self, k: usize) -> usize
        requires { Valid (events self.now) k }
        ensures value { result ≡ waits_for (events self.now) k }
        ensures upper_bound { result < 65536 }
    {
        self.column_at(k, crate::WAITS)
    }

    // Where the section ends that event k begins or ends; 0 where there is none.
    pub fn released_at(&self, k: usize) -> usize
        requires { Valid (events self.now) k }
        ensures { result ≡ release_of (events self.now) k }
    {
        self.column_at(k, crate::RELEASED)
    }

    // Where the interval begins that event k is in: a write, or a read's observed write; an outermost acquire, or that of a last release; 0 where there is none.
    pub fn began_at(&self, k: usize) -> usize
        requires { Valid (events self.now) k }
        ensures value { result ≡ began (events self.now) k }
        ensures upper_bound { result < 65536 }
    {
        self.column_at(k, crate::BEGAN)
    }

    // The fork of event k's thread; 0 where there is none.
    pub fn forked_at(&self, k: usize) -> usize
        requires { Valid (events self.now) k }
        ensures value { result ≡ fork_of (events self.now) k }
        ensures upper_bound { result < 65536 }
    {
        self.column_at(k, crate::FORKED)
    }

    // Are a and b a conflicting pair? Any two numbers may be asked.
    pub fn conflicting(&self, a: u16, b: u16) -> bool
        ensures { result ≡ is_conflicting (events self.now) a b }
    {
        crate::conflicting(self.words, a, b)
    }

    // How many different threads have an event.
    pub fn threads(&self) -> u32
        ensures { result ≡ length (threads (events self.now)) }
    {
        crate::threads(self.words)
    }
}
