// The least staircase of two lists of events: how far the moved thread's, p, must have passed before each of the others', q; and the merge by a staircase.
// A pass goes along q once, with as much of p passed as its events need; passes repeat until one raises nothing.
#![tactic(auto)]

ghost use Rattle.std.specs.Prelude.{◌≡◌, ◌<◌, length};
ghost use Rattle.model.specs.Trace.{Valid};
ghost use Rattle.model.specs.Lists.{in_front};
ghost use Rattle.decision.specs.Stairs.{climb};
ghost use Rattle.table.specs.Judged.{events};
ghost use Rattle.stairs.specs.Stairs.{at, slot_of, slots, Ready, Solved};
ghost use Rattle.stairs.specs.Passes.{Moved, Noted, Upto, Reached, Met, Begun, asked, Pulled, Passed, is_moved_next, Climbing};

use limits::{Event, Kind};
use table::Table;

// A place for each cell and, behind them, for each lock.
const SLOTS: usize = 2 * Event::OBJECTS;

// The slot of the interval that event k begins.
#[tactic(auto, unfolding(crate::specs::Stairs::slot_of))]
fn slot(table: &Table, k: usize) -> usize
    requires { Valid (events table.now) k }
    ensures value { result ≡ slot_of (events table.now) k }
    ensures upper_bound { result < slots }
{
    let x = table.object_place(k);
    if table.kind_at(k) == Kind::Acquire {
        return Event::OBJECTS + x;
    }
    x
}

// Event v of p passes: its slot is reached up to the end of the interval that it begins.
#[tactic(auto, using(crate::proofs::SlotLaws::note_none, crate::proofs::SlotLaws::note_up))]
fn note(table: &Table, ends: &[u16], reach: &mut [u16; SLOTS], v: usize)
    requires good { Valid (events table.now) v }
    requires v_in_bounds { (v < length ends.now) × (length reach.old ≡ slots) }
    ensures { Noted (events table.now) ends.now v reach.old reach.new }
{
    let end = ends[v];
    if end == 0 {
        return;
    }
    let s = slot(table, v);
    reach[s] = reach[s].max(end);
}

// The events of p from place `from` on that are not above event `to` pass. Gives the place of the first that is.
fn advance(
    table: &Table,
    p: &[u16],
    ends: &[u16],
    reach: &mut [u16; SLOTS],
    from: usize,
    to: u16,
) -> usize
    requires { Moved table.now p.now ends.now × Upto (events table.now) p.now ends.now from to reach.old }
    ensures { Reached (events table.now) p.now ends.now result to reach.new }
{
    for i in from..p.len() {
        if to < p[i] {
            return i;
        }
        note(table, ends, reach, usize::from(p[i]));
    }
    p.len()
}

// Event k of q, where p passed up to event n: it needs as much, and p passes as far as it needs.
fn meet(need: &mut [u16], k: usize, n: u16) -> u16
    requires { k < length need.old }
    ensures { Met k n need.old result need.new }
{
    let r = n.max(need[k]);
    need[k] = r;
    r
}

// Where the interval of event k of q begins, if it has one that does not begin in thread m.
#[tactic(auto, using(crate::proofs::RuleLaws::begun_valid, crate::proofs::RuleLaws::begun_none, crate::proofs::RuleLaws::begun_moved, crate::proofs::RuleLaws::begun_outside))]
fn begun(table: &Table, m: u8, k: usize) -> Option<usize>
    requires { Valid (events table.now) k }
    ensures { Begun (events table.now) m k result }
{
    let o = table.began_at(k);
    if o == 0 || table.thread_at(o) == m {
        return None;
    }
    Some(o)
}

// What the slot of event o is reached up to.
#[tactic(auto, unfolding(crate::specs::Passes::asked))]
fn asked(table: &Table, reach: &[u16; SLOTS], o: usize) -> u16
    requires { Valid (events table.now) o }
    ensures { result ≡ asked (events table.now) reach.now o }
{
    reach[slot(table, o)]
}

// Event o needs at least `most`. Was it raised, or anything before?
#[tactic(auto, using(crate::specs::Passes::stands, crate::specs::Passes::lifts))]
fn pull(need: &mut [u16], o: usize, most: u16, raised: bool) -> bool
    requires { o < length need.old }
    ensures { Pulled o most raised need.old result need.new }
{
    if most <= need[o] {
        return raised;
    }
    need[o] = most;
    true
}

// Once along q. An event before which p has to pass further is met again. Was anything raised that has to be walked again?
fn pass(table: &Table, m: u8, p: &[u16], q: &[u16], ends: &[u16], need: &mut [u16]) -> bool
    requires { Ready table.now m p.now q.now ends.now need.old }
    ensures { Passed (events table.now) m p.now q.now ends.now need.old result need.new }
{
    let mut reach = [0u16; SLOTS];
    let mut i = 0;
    let mut n = 0u16;
    let mut raised = false;
    let mut j = 0;
    // A `while`: an event may be met again, so not each turn goes on to the next place.
    while j < q.len() {
        let k = usize::from(q[j]);
        n = meet(need, k, n);
        i = advance(table, p, ends, &mut reach, i, n);
        if let Some(o) = begun(table, m, k) {
            let most = asked(table, &reach, o);
            if n < most {
                n = most;
                continue;
            }
            raised = pull(need, o, most, raised);
        }
        j += 1;
    }
    raised
}

// What is needed at least becomes the least staircase: passes, until one raises nothing.
pub fn solve(table: &Table, m: u8, p: &[u16], q: &[u16], ends: &[u16], need: &mut [u16])
    requires { Ready table.now m p.now q.now ends.now need.old }
    ensures { Solved (events table.now) m p.now q.now ends.now need.old need.new }
{
    // A `while`: how many passes there are is known only behind the last.
    while pass(table, m, p, q, ends, need) {}
}

// At place i of p and j of q, is the event of p next?
#[tactic(auto, unfolding(crate::specs::Passes::is_moved_next))]
fn moved_next(p: &[u16], q: &[u16], need: &[u16], i: usize, j: usize) -> bool
    requires { j < length q.now → at q.now j < length need.now }
    ensures { result ≡ is_moved_next (at need.now) p.now q.now i j }
{
    i < p.len() && (q.len() <= j || p[i] <= need[usize::from(q[j])])
}

// The merge of p and q by the staircase, in front of the lent list; the rest of the list stays.
pub fn climb(p: &[u16], q: &[u16], need: &[u16], out: &mut [u16])
    requires { Climbing p.now q.now need.now out.old }
    ensures { out.new ≡ in_front (climb (at need.now) p.now q.now) out.old }
{
    let mut i = 0;
    let mut j = 0;
    for k in 0..p.len() + q.len() {
        if moved_next(p, q, need, i, j) {
            out[k] = p[i];
            i += 1;
        } else {
            out[k] = q[j];
            j += 1;
        }
    }
}
