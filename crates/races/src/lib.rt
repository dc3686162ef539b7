// The races of a judged recording: the witness of a conflicting pair, and the races in question 4's order, one after the other,
// each with its witness. No pair is asked twice.
#![tactic(auto)]

ghost use Rattle.std.specs.Prelude.{◌≡◌, true, ◌≤◌, length};
ghost use Rattle.model.specs.Lists.{in_front};
ghost use Rattle.model.specs.Good.{max_thread};
ghost use Rattle.decision.specs.Stairs.{least_merge};
ghost use Rattle.decision.specs.Decision.{is_conflicting, witness, next_race};
ghost use Rattle.table.specs.Judged.{events};
ghost use Rattle.table.specs.Conflicts.{Lower, IsEvent};
ghost use Rattle.races.specs.Witness.{WitnessRoom, Shows};
ghost use Rattle.races.specs.Engine.{Joinable, Mergeable, Coned, if_correct, shown_of};
ghost use Rattle.races.specs.Next.{Hands, HandsWith, witness_of};

use limits::{Event, Recording, Thread};
use table::Table;

// A race, with the length of its witness.
#[derive(Clone, Copy)]
pub struct Race {
    pub lower: u16,
    pub higher: u16,
    pub length: u16,
}

// The merge of p, the moved thread's events, and q, the others', by their least staircase: in the front of a list.
fn merge(table: &Table, m: u8, tops: &[u16; Thread::COUNT], p: &[u16], q: &[u16], out: &mut [u16])
    requires { Mergeable table.now m tops.now p.now q.now out.old }
    ensures { out.new ≡ in_front (least_merge (events table.now) p.now q.now) out.old }
{
    let mut ends = [0u16; Recording::PLACES];
    let mut need = [0u16; Recording::PLACES];
    bounds::fill(table, m, tops, p, q, &mut ends, &mut need);
    stairs::solve(table, m, p, q, &ends, &mut need);
    stairs::climb(p, q, &need, out);
}

// The merge is the witness where it is a correct reordering: the least staircase has what must stand before, and this asks for what must not.
#[tactic(auto, unfolding(crate::specs::Engine::if_correct, model::specs::Lists::in_front))]
fn show(table: &Table, merged: &[u16], list: &mut [u16]) -> Option<u16>
    requires { WitnessRoom table.now list.old × (length merged.now ≤ length (events table.now)) }
    ensures { Shows (if_correct (events table.now) merged.now) list.old list.new result }
{
    if !checking::is_correct(table, merged) {
        return None;
    }
    list[..merged.len()].copy_from_slice(merged);
    Some(merged.len() as u16)
}

// The witness by the two lists.
fn join(
    table: &Table,
    m: u8,
    tops: &[u16; Thread::COUNT],
    p: &[u16],
    q: &[u16],
    list: &mut [u16],
) -> Option<u16>
    requires { WitnessRoom table.now list.old × Joinable table.now m tops.now p.now q.now }
    ensures { Shows (if_correct (events table.now) (least_merge (events table.now) p.now q.now)) list.old list.new result }
{
    let mut merged = [0u16; Recording::MAX_EVENTS];
    merge(table, m, tops, p, q, &mut merged);
    let n = p.len() + q.len();
    show(table, &merged[..n], list)
}

// The witness by the cone, which reaches up to the tops, with thread m as the moved thread.
fn split(table: &Table, m: u8, tops: &[u16; Thread::COUNT], list: &mut [u16]) -> Option<u16>
    requires { WitnessRoom table.now list.old × (Coned (events table.now) tops.now × (m ≤ max_thread)) }
    ensures { Shows (shown_of (events table.now) m tops.now) list.old list.new result }
{
    let mut moved = [0u16; Recording::MAX_EVENTS];
    let from = cone::moved(table, m, tops, &mut moved);
    let mut others = [0u16; Recording::MAX_EVENTS];
    let n = cone::others(table, m, tops, &mut others);
    join(table, m, tops, &moved[from..], &others[..n], list)
}

// The witness of a conflicting pair, in the front of the lent list. No pair is reported with a or b in its cone.
pub fn witness(table: &Table, a: u16, b: u16, list: &mut [u16]) -> Option<u16>
    requires { WitnessRoom table.now list.old × (is_conflicting (events table.now) a b ≡ true) }
    ensures { Shows (witness (events table.now) a b) list.old list.new result }
{
    let roots = [a, b];
    let mut tops = [0u16; Thread::COUNT];
    if !cone::outside(table, &roots, &mut tops) {
        return None;
    }
    let m = table.thread_at(a as usize);
    split(table, m, &tops, list)
}

// The witness of two events, lower first, where they are a conflicting pair. The lower one is event a, as a file has it.
#[tactic(auto, unfolding(crate::specs::Next::witness_of), using(table::proofs::ConflictLaws::conflict_is))]
fn race_on(table: &Table, event: Event, a: u16, b: usize, list: &mut [u16]) -> Option<u16>
    requires { WitnessRoom table.now list.old × (Lower (events table.now) a b × IsEvent (events table.now) a event) }
    ensures { Shows (witness_of (events table.now) a b) list.old list.new result }
{
    if !table::in_conflict(event, table.event_at(b)) {
        return None;
    }
    witness(table, a, b as u16, list)
}

// The first race with a as its lower event and a higher one above b. Event a is read once for all its pairs: a report goes over them all, and most are
// in no conflict.
fn next_with(table: &Table, a: u16, b: u16, list: &mut [u16]) -> Option<Race>
    requires { WitnessRoom table.now list.old × (a ≤ length (events table.now)) }
    ensures { HandsWith (events table.now) a b list.old list.new result }
{
    if a < 1 {
        return None;
    }
    let event = table.event_at(usize::from(a));
    for y in usize::from(a.max(b)) + 1..table.count() + 1 {
        if let Some(length) = race_on(table, event, a, y, list) {
            return Some(Race {
                lower: a,
                higher: y as u16,
                length,
            });
        }
    }
    None
}

// The first race after (a, b): by lower event, then by higher.
pub fn next_race(table: &Table, a: u16, b: u16, list: &mut [u16]) -> Option<Race>
    requires { WitnessRoom table.now list.old }
    ensures { Hands (next_race (events table.now) a b) list.old list.new result }
{
    let mut after = b;
    for x in a as usize..table.count() + 1 {
        let lower = x as u16;
        if let Some(race) = next_with(table, lower, after, list) {
            return Some(race);
        }
        after = lower + 1;
    }
    None
}
