// The causal cone of some events (the roots), by counts: the last event of each thread that is in it, its top. A cone is the beginning of
// each thread, so this is all of it. Then its events in two lists: those of one thread, and those of all others.
// From a top the events of its thread are followed back, and each brings in its own: that raises tops. This stops as soon as a root is in the cone.
#![tactic(auto)]

ghost use Rattle.std.specs.Prelude.{◌≡◌, ◌+◌, ◌≤◌, get_or, replicate, true};
ghost use Rattle.model.specs.Trace.{Valid, thread_of};
ghost use Rattle.model.specs.Lists.{all_but};
ghost use Rattle.model.specs.Good.{max_thread};
ghost use Rattle.table.specs.Judged.{events};
ghost use Rattle.cone.specs.Tops.{Rooted, Told, Beyond};
ghost use Rattle.cone.specs.Following.{no_root, has_root, Bars, Within, Coming, Raising, Answer, Raised, BringsIn, Follows, Going, Caught, Round, Behind, IsRoot, BeforeRoot, Started, Seeded};
ghost use Rattle.cone.specs.Split.{Splits, Moved, Others, is_of, Highest};

use limits::Thread;
use table::Table;

// The bar of a thread that no root is of: no event reaches it. It is a number and no `Option`, so that one comparison tells whether an event reaches a bar.
const NO_ROOT: u16 = 65535;

// The number that a list by thread has for thread c.
fn place(list: &[u16; Thread::COUNT], c: usize) -> usize
    requires { c ≤ max_thread }
    ensures { result ≡ get_or list.now c 0 }
{
    usize::from(list[c])
}

// Each root is the bar of its thread. The bars are lent: an array that is given back is copied, for each pair of a report.
fn set_bars(table: &Table, roots: &[u16], bars: &mut [u16; Thread::COUNT])
    requires { Rooted table.now roots.now × (bars.old ≡ replicate (max_thread + 1) no_root) }
    ensures { Bars (events table.now) roots.now bars.new }
{
    for &r in roots {
        let c = table.thread_place(usize::from(r));
        bars[c] = r;
    }
}

// A root is in the cone: the search ends.
#[derive(Clone, Copy)]
struct RootInside;

// What a search for a cone goes by. It is two references and is handed on by value: with a table in it, and lent, it was put into memory for each
// pair of a report.
#[derive(Clone, Copy)]
struct Search<'a> {
    table: &'a Table<'a>,
    // The root of each thread; NO_ROOT where it has none.
    bars: &'a [u16; Thread::COUNT],
}

impl Search<'_> {
    // Is event k by the thread of a root?
    #[tactic(auto, unfolding(crate::specs::Following::has_root))]
    fn has_root(self, k: usize) -> bool
        requires { Valid (events self.table.now) k }
        ensures { result ≡ has_root self.entry.bars.now (thread_of (events self.entry.table.now) k) }
    {
        let c = self.table.thread_place(k);
        self.bars[c] != NO_ROOT
    }

    // Event k, if it is one, is in the cone: the top of its thread is no lower. A link of the table is 0 where there is no event.
    fn raise(self, k: usize, tops: &mut [u16; Thread::COUNT]) -> Result<(), RootInside>
        requires { Raising self.table.now self.bars.now tops.old × Coming (events self.table.now) self.bars.now k }
        ensures { Answer (events self.entry.table.now) self.entry.bars.now (Raised (events self.entry.table.now) self.entry.bars.now k tops.old tops.new) result }
    {
        if k < 1 {
            return Ok(());
        }
        let c = self.table.thread_place(k);
        if k <= place(tops, c) {
            return Ok(());
        }
        if place(self.bars, c) <= k {
            return Err(RootInside);
        }
        tops[c] = k as u16;
        Ok(())
    }

    // What event k, which is in the cone, brings in: its observed write (rule iii), or the events of the thread that it joins, up to the last; and, unless its
    // thread is a root's (`exempt`), its matching release (iv); a last release is linked to itself.
    fn bring(
        self,
        k: usize,
        exempt: bool,
        tops: &mut [u16; Thread::COUNT],
    ) -> Result<(), RootInside>
        requires { Raising self.table.now self.bars.now tops.old × (Within (events self.table.now) self.bars.now k × (exempt ≡ has_root self.bars.now (thread_of (events self.table.now) k))) }
        ensures { Answer (events self.entry.table.now) self.entry.bars.now (BringsIn (events self.entry.table.now) self.entry.bars.now k tops.old tops.new) result }
    {
        self.raise(self.table.waits_at(k), tops)?;
        if exempt {
            return Ok(());
        }
        self.raise(self.table.released_at(k), tops)
    }

    // The events of a thread from event `from` back to event `to`, which is left out: each brings in its own (rule ii).
    fn follow(
        self,
        from: usize,
        to: usize,
        tops: &mut [u16; Thread::COUNT],
    ) -> Result<(), RootInside>
        requires { Raising self.table.now self.bars.now tops.old × Within (events self.table.now) self.bars.now from }
        ensures { Answer (events self.entry.table.now) self.entry.bars.now (Follows (events self.entry.table.now) self.entry.bars.now from to tops.old tops.new) result }
    {
        let exempt = self.has_root(from);
        let mut k = from;
        // A `while`: each step goes by the link of the event before, so there is no range or list to go over.
        while to < k {
            self.bring(k, exempt, tops)?;
            k = self.table.previous_at(k);
        }
        Ok(())
    }

    // Thread c is followed from its top back to where it was followed before, and its fork is in the cone.
    // (Inlined: with a call here the night's run took longer on a recording of many pairs.)
    #[inline(always)]
    fn catch_up(
        self,
        c: usize,
        done: &mut [u16; Thread::COUNT],
        tops: &mut [u16; Thread::COUNT],
    ) -> Result<(), RootInside>
        requires { Going self.table.now self.bars.now done.old tops.old × (c ≤ max_thread) }
        ensures { Answer (events self.entry.table.now) self.entry.bars.now (Caught (events self.entry.table.now) self.entry.bars.now c done.old done.new tops.old tops.new) result }
    {
        let from = place(tops, c);
        let to = place(done, c);
        if from <= to {
            return Ok(());
        }
        done[c] = tops[c];
        self.raise(self.table.forked_at(from), tops)?;
        self.follow(from, to, tops)
    }

    // Each thread is followed from its top.
    fn round(
        self,
        done: &mut [u16; Thread::COUNT],
        tops: &mut [u16; Thread::COUNT],
    ) -> Result<(), RootInside>
        requires { Going self.table.now self.bars.now done.old tops.old }
        ensures { Answer (events self.entry.table.now) self.entry.bars.now (Round (events self.entry.table.now) self.entry.bars.now (max_thread + 1) done.old done.new tops.old tops.new) result }
    {
        for c in 0..Thread::COUNT {
            self.catch_up(c, done, tops)?;
        }
        Ok(())
    }

    // What must stand before root r is in the cone: the fork of its thread, and the event before it there (rule i).
    fn before_root(self, r: usize, tops: &mut [u16; Thread::COUNT]) -> Result<(), RootInside>
        requires { Raising self.table.now self.bars.now tops.old × IsRoot (events self.table.now) self.bars.now r }
        ensures { Answer (events self.entry.table.now) self.entry.bars.now (BeforeRoot (events self.entry.table.now) self.entry.bars.now r tops.old tops.new) result }
    {
        self.raise(self.table.forked_at(r), tops)?;
        self.raise(self.table.previous_at(r), tops)
    }

    // So it is, and the thread is followed from there.
    fn start(
        self,
        r: usize,
        done: &mut [u16; Thread::COUNT],
        tops: &mut [u16; Thread::COUNT],
    ) -> Result<(), RootInside>
        requires { Going self.table.now self.bars.now done.old tops.old × IsRoot (events self.table.now) self.bars.now r }
        ensures { Answer (events self.entry.table.now) self.entry.bars.now (Started (events self.entry.table.now) self.entry.bars.now r done.new tops.old tops.new) result }
    {
        self.before_root(r, tops)?;
        self.catch_up(self.table.thread_place(r), done, tops)
    }

    // So from each root, the last one first: below the higher event of a pair the lower one is found soonest.
    fn seed(
        self,
        roots: &[u16],
        done: &mut [u16; Thread::COUNT],
        tops: &mut [u16; Thread::COUNT],
    ) -> Result<(), RootInside>
        requires { Going self.table.now self.bars.now done.old tops.old × Bars (events self.table.now) roots.now self.bars.now }
        ensures { Answer (events self.entry.table.now) self.entry.bars.now (Seeded (events self.entry.table.now) self.entry.bars.now roots.now 0 done.new tops.new) result }
    {
        for &r in roots.iter().rev() {
            self.start(usize::from(r), done, tops)?;
        }
        Ok(())
    }

    // The whole cone: from the roots, and then in rounds, until no thread is followed less far than its top.
    fn reach(self, roots: &[u16], tops: &mut [u16; Thread::COUNT]) -> Result<(), RootInside>
        requires { Rooted self.table.now roots.now × (Bars (events self.table.now) roots.now self.bars.now × (tops.old ≡ replicate (max_thread + 1) 0)) }
        ensures { Answer (events self.entry.table.now) self.entry.bars.now (Told (events self.entry.table.now) roots.now tops.new true) result }
    {
        let mut done = [0u16; Thread::COUNT];
        self.seed(roots, &mut done, tops)?;
        // A `while`: how many rounds there are is known only behind the last.
        while behind(&done, tops) {
            self.round(&mut done, tops)?;
        }
        Ok(())
    }
}

// Is a thread followed less far than its top?
fn behind(done: &[u16; Thread::COUNT], tops: &[u16; Thread::COUNT]) -> bool
    ensures { Behind done.now tops.now result }
{
    done.iter().zip(tops.iter()).any(|(d, top)| *d < *top)
}

// Is no root in the causal cone of the roots? Then the tops are how far it reaches into each thread; they are lent as 0.
// (A bool with the tops beside it: arrays are lent here, and not copied.)
#[tactic(auto, using(crate::proofs::OutsideLaws::told))]
pub fn outside(table: &Table, roots: &[u16], tops: &mut [u16; Thread::COUNT]) -> bool
    requires { Rooted table.now roots.now × (tops.old ≡ replicate (max_thread + 1) 0) }
    ensures { Told (events table.now) roots.now tops.new result }
{
    let mut bars = [NO_ROOT; Thread::COUNT];
    set_bars(table, roots, &mut bars);
    let search = Search { table, bars: &bars };
    search.reach(roots, tops).is_ok()
}

// Does it reach into any thread beside m and n?
pub fn beyond(tops: &[u16; Thread::COUNT], m: u8, n: u8) -> bool
    ensures { Beyond tops.now m n result }
{
    let (m, n) = (usize::from(m), usize::from(n));
    tops.iter()
        .enumerate()
        .any(|(c, top)| c != m && c != n && 0 < *top)
}

// Thread m's events up to its top, found from the last one back, so they are put at the end of out, in the trace's order. Gives the place of the first.
pub fn moved(table: &Table, m: u8, tops: &[u16; Thread::COUNT], out: &mut [u16]) -> usize
    requires { Splits table.now tops.now m out.old }
    ensures { Moved (events table.now) m tops.now result out.new }
{
    let mut r = out.len();
    let mut k = place(tops, usize::from(m));
    // A `while`: each step goes by the link of the event before, so there is no range or list to go over.
    while 0 < k {
        r -= 1;
        out[r] = k as u16;
        k = table.previous_at(k);
    }
    r
}

// Is event k up to the top of its thread, and by another thread than m?
#[tactic(auto, unfolding(crate::specs::Split::is_of, crate::specs::Split::is_under, model::specs::Lists::all_but, model::specs::Lists::just))]
fn is_other(table: &Table, m: u8, tops: &[u16; Thread::COUNT], k: usize) -> bool
    requires { Valid (events table.now) k }
    ensures { result ≡ is_of (events table.now) (all_but m) tops.now k }
{
    let c = table.thread_place(k);
    c != usize::from(m) && k <= place(tops, c)
}

// The highest top.
#[tactic(auto, using(crate::proofs::SplitLaws::highest_start, crate::proofs::SplitLaws::highest_more, crate::proofs::SplitLaws::highest_end))]
fn highest(tops: &[u16; Thread::COUNT]) -> usize
    ensures { Highest tops.now (max_thread + 1) result }
{
    let mut n = 0;
    for &top in tops {
        n = usize::from(top).max(n);
    }
    n
}

// The events of all threads but m up to their tops, in the front of out, in the trace's order. Gives how many there are.
pub fn others(table: &Table, m: u8, tops: &[u16; Thread::COUNT], out: &mut [u16]) -> usize
    requires { Splits table.now tops.now m out.old }
    ensures { Others (events table.now) m tops.now result out.new }
{
    let mut r = 0;
    for k in 1..highest(tops) + 1 {
        if is_other(table, m, tops, k) {
            out[r] = k as u16;
            r += 1;
        }
    }
    r
}
