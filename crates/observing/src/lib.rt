// Question 2 on the events of a good file: which write does an event see? Asked for one event, or for all of them at once.
#![tactic(auto)]

ghost use Rattle.std.specs.Prelude.{◌≡◌};
ghost use Rattle.std.proofs.Math.Option.{none};
ghost use Rattle.table.specs.Judged.{events};
ghost use Rattle.observing.specs.Observing.{observed_in};
ghost use Rattle.observing.specs.Entries.{answer_of, entry_at, observations_in};

use limits::{Kind, Refusal};
use table::Table;

// The answer to question 2: the number of the write that the event sees, the start, or that it is not a read.
#[derive(Clone, Copy, PartialEq, Eq, Debug)]
pub enum Observed {
    Write(u16),
    Start,
    NotARead,
}

// The entry of what is not a read; no event has this number.
const NOT_A_READ: u16 = 65535;

// The answer that an entry stands for.
#[tactic(auto, using(crate::proofs::ObservingExact::some_write), unfolding(crate::specs::Entries::answer_of))]
pub fn answer_of(entry: u16) -> Observed
    ensures { result ≡ answer_of entry }
{
    match entry {
        NOT_A_READ => Observed::NotARead,
        0 => Observed::Start,
        _ => Observed::Write(entry),
    }
}

// The entry of number k, whatever k is.
#[tactic(auto, using(model::proofs::Tests::kind_valid, table::proofs::LinkFacts::reads_observed, crate::proofs::EntriesLaws::observed_small), unfolding(crate::specs::Entries::entry_at))]
fn entry_at(table: &Table, k: usize) -> u16
    ensures { result ≡ entry_at (events table.now) k }
{
    if k < 1 || table.count() < k {
        return NOT_A_READ;
    }
    if table.kind_at(k) != Kind::Read {
        return NOT_A_READ;
    }
    table.waits_at(k) as u16
}

// The observed write of event k, whatever k is.
#[tactic(auto, using(crate::proofs::EntriesLaws::entry_answers))]
pub fn observed_in(table: &Table, k: u16) -> Observed
    ensures { result ≡ observed_in (events table.now) k }
{
    answer_of(entry_at(table, k as usize))
}

// The observed writes of all events: entry k of the lent list is the answer for number k, from 0 on. Gives how many events have their entry.
pub fn observations_in(table: &Table, list: &mut [u16]) -> Result<u16, Refusal>
    ensures { (result, list.new) ≡ observations_in none (events table.now) list.old }
{
    let n = table.count();
    if list.len() <= n {
        return Err(Refusal::ListShort);
    }
    for k in 0..n + 1 {
        list[k] = entry_at(table, k);
    }
    Ok(n as u16)
}
