// Is a list a correct reordering? Question 5: and does it bring both accesses next? One pass over the list tells it: `Passed` is what it keeps of the events passed.
#![tactic(auto)]

ghost use Rattle.std.specs.Prelude.{◌≡◌, [], ◌≤◌, length};
ghost use Rattle.std.proofs.Math.Option.{none};
ghost use Rattle.model.specs.Trace.{Trace, Valid};
ghost use Rattle.decision.specs.Check.{is_correct, check};
ghost use Rattle.table.specs.Judged.{events};
ghost use Rattle.checking.specs.Faults.{number_of, fault_number};
ghost use Rattle.checking.specs.Checking.{check_in};
ghost use Rattle.checking.specs.Passing.{Knows, NextTold, PassedTold, ReadyTold, EnabledTold, AccessTold, FaultTold, KnowsMore, Walked};

use limits::{Event, Kind, Refusal, Thread};
use table::Table;

// A fault of a proposed list. `number` gives each its number in the paper.
#[derive(Clone, Copy, PartialEq, Eq, Debug)]
pub enum Fault {
    // a number of the list is 0 or above n
    NoEvent,
    // it is not the next event of its thread (a repeat included)
    NotNext,
    // it is a read that sees otherwise
    SeesOtherwise,
    // it is an acquire of a lock that another thread holds
    LockHeld,
    // its thread's fork is not in the list before it or, where it is a join, an event of the joined thread is not
    NotReady,
    // after the list a is not enabled
    LowerNotEnabled,
    // b is not
    HigherNotEnabled,
}

impl Fault {
    // The paper's number.
    pub fn number(self) -> u8
        ensures { result ≡ number_of self }
    {
        match self {
            Fault::NoEvent => 21,
            Fault::NotNext => 22,
            Fault::SeesOtherwise => 23,
            Fault::LockHeld => 24,
            Fault::LowerNotEnabled => 25,
            Fault::HigherNotEnabled => 26,
            Fault::NotReady => 27,
        }
    }
}

// What is kept of the events of a proposed list that have been passed.
#[derive(Drop)]
struct Passed {
    // The last event of each thread; 0 for none.
    last: [u16; Thread::COUNT],
    // The last write of each cell; 0 for none.
    writes: [u16; Event::OBJECTS],
    // Who holds each lock: 0 for nobody, c + 1 for thread c.
    locks: [u8; Event::OBJECTS],
}

impl Passed {
    // No event has been passed.
    fn nothing() -> Passed
        ensures { (t : Trace) → Knows t [] result.last result.writes result.locks }
    {
        Passed {
            last: [0u16; Thread::COUNT],
            writes: [0u16; Event::OBJECTS],
            locks: [0u8; Event::OBJECTS],
        }
    }

    // Is event k the next of its thread?
    fn is_next(&self, table: &Table, k: usize) -> bool
        requires { Valid (events table.now) k }
        ensures { NextTold (events table.now) self.now.last k result }
    {
        let c = table.thread_place(k);
        table.previous_at(k) == usize::from(self.last[c])
    }

    // Has event j, if it is one, been passed?
    fn has_passed(&self, table: &Table, j: usize) -> bool
        requires { j ≤ length (events table.now) }
        ensures { PassedTold (events table.now) self.now.last j result }
    {
        if j < 1 {
            return true;
        }
        let c = table.thread_place(j);
        j <= usize::from(self.last[c])
    }

    // Has all been passed that event k waits for: the fork of its thread and, where it is a join, the joined thread up to its last event?
    fn is_ready(&self, table: &Table, k: usize) -> bool
        requires { Valid (events table.now) k }
        ensures { ReadyTold (events table.now) self.now.last k result }
    {
        if !self.has_passed(table, table.forked_at(k)) {
            return false;
        }
        if table.kind_at(k) != Kind::Join {
            return true;
        }
        self.has_passed(table, table.waits_at(k))
    }

    // Is event k enabled?
    fn is_enabled(&self, table: &Table, k: usize) -> bool
        requires { Valid (events table.now) k }
        ensures { EnabledTold (events table.now) self.now.last k result }
    {
        self.is_next(table, k) && self.is_ready(table, k)
    }

    // The access of an event as the next of the list: a read must see what it saw in the trace, an acquire must take a
    // lock that no other thread holds.
    fn access_fault(&self, table: &Table, k: usize) -> Result<(), Fault>
        requires { Valid (events table.now) k }
        ensures { AccessTold (events table.now) self.now.writes self.now.locks k result }
    {
        let x = table.object_place(k);
        match table.kind_at(k) {
            Kind::Read => {
                if usize::from(self.writes[x]) == table.waits_at(k) {
                    return Ok(());
                }
                Err(Fault::SeesOtherwise)
            }
            Kind::Acquire => {
                let c = table.thread_place(k);
                if self.locks[x] == 0 || self.locks[x] == (c + 1) as u8 {
                    return Ok(());
                }
                Err(Fault::LockHeld)
            }
            _ => Ok(()),
        }
    }

    // The number k as the next of the list: its fault, where it has one.
    fn fault_at(&self, table: &Table, k: u16) -> Result<(), Fault>
        ensures { FaultTold (events table.now) self.now.last self.now.writes self.now.locks k result }
    {
        let at = k as usize;
        if at < 1 || table.count() < at {
            return Err(Fault::NoEvent);
        }
        if !self.is_next(table, at) {
            return Err(Fault::NotNext);
        }
        self.access_fault(table, at)?;
        if !self.is_ready(table, at) {
            return Err(Fault::NotReady);
        }
        Ok(())
    }

    // Event k is passed. Of the releases only a last one, which is linked to itself, frees its lock.
    fn add(&mut self, table: &Table, k: u16)
        requires { Valid (events table.now) k }
        ensures { KnowsMore (events table.now) k self.old.last self.old.writes self.old.locks self.new.last self.new.writes self.new.locks }
    {
        let at = k as usize;
        let c = table.thread_place(at);
        let x = table.object_place(at);
        self.last[c] = k;
        match table.kind_at(at) {
            Kind::Write => self.writes[x] = k,
            Kind::Acquire => self.locks[x] = (c + 1) as u8,
            _ => {
                if table.released_at(at) == at {
                    self.locks[x] = 0;
                }
            }
        }
    }

    // Goes through the list, up to its first fault by place. It begins with nothing passed; where there is no fault, it ends with all passed.
    fn walk(&mut self, table: &Table, list: &[u16]) -> Result<(), Fault>
        requires { Knows (events table.now) [] self.old.last self.old.writes self.old.locks }
        ensures { Walked (events table.now) list.now result self.new.last self.new.writes self.new.locks }
    {
        for k in list {
            self.fault_at(table, *k)?;
            self.add(table, *k);
        }
        Ok(())
    }
}

// Is the list a correct reordering?
pub fn is_correct(table: &Table, list: &[u16]) -> bool
    ensures { result ≡ is_correct (events table.now) list.now }
{
    Passed::nothing().walk(table, list).is_ok()
}

// The first fault of the list proposed for (a, b): by place, else that a or b is not enabled after it. Ok where there is none.
fn first_fault(table: &Table, a: u16, b: u16, list: &[u16]) -> Result<(), Fault>
    requires valid { Valid (events table.now) a × Valid (events table.now) b }
    ensures { fault_number result ≡ check (events table.now) a b list.now }
{
    let mut passed = Passed::nothing();
    passed.walk(table, list)?;
    if !passed.is_enabled(table, a as usize) {
        return Err(Fault::LowerNotEnabled);
    }
    if !passed.is_enabled(table, b as usize) {
        return Err(Fault::HigherNotEnabled);
    }
    Ok(())
}

// Question 5: refusal 11, or the first fault of the list, none for yes.
pub fn check_in(table: &Table, a: u16, b: u16, list: &[u16]) -> Result<Option<Fault>, Refusal>
    ensures { result ≡ check_in none (events table.now) a b list.now }
{
    if !table.conflicting(a, b) {
        return Err(Refusal::NotConflicting);
    }
    Ok(first_fault(table, a, b, list).err())
}
