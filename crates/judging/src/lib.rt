// Judging a file: refusals 1 to 4, 13, 5 to 7, 15 to 17, 8 and 9, in this order.
#![tactic(auto)]

ghost use Rattle.std.specs.Prelude.{◌≡◌, ◌||◌, ◌&&◌, ◌∷◌, eqb};
ghost use Rattle.model.specs.Trace.{Valid, fork, thread_of, kind_of, object_of};
ghost use Rattle.model.specs.Lists.{before};
ghost use Rattle.model.specs.Refusals.{InLimits};
ghost use Rattle.decision.specs.Refusals.{is_begun, is_joined, is_self, is_second};
ghost use Rattle.format.specs.Bytes.{trace_in};
ghost use Rattle.format.specs.Layout.{Placed, file_of};
ghost use Rattle.judging.specs.Judged.{refusal_of};
ghost use Rattle.judging.specs.Walk.{ThreadSets, Ready, InPlace, effect_of};

use limits::{Kind, Locks, Recording, Refusal};

// What the events so far say of the threads: which have an event, which are forked, which are joined. Each is a set as in `bits`.
#[derive(Clone, Copy)]
pub struct Threads {
    pub begun: u16,
    pub forked: u16,
    pub joined: u16,
}

// How an event leaves its lock: who holds it (0 for nobody, c + 1 for thread c), and how deep.
#[derive(Clone, Copy)]
pub struct Hold {
    pub holder: u8,
    pub depth: u16,
}

// A file's kinds are numbers until they are judged, so each is compared with the number of a `Kind`.

// Is event k a fork or join of its own thread, or a second fork of one thread?
#[tactic(auto, unfolding(decision::specs::Refusals::is_self, decision::specs::Refusals::is_second))]
fn self_or_second(ev: &[u8], k: usize, threads: Threads) -> bool
    requires { Valid (trace_in ev.now) k × ThreadSets (trace_in ev.now) (before k) threads }
    ensures { result ≡ (is_self (trace_in ev.now) k || is_second (trace_in ev.now) k) }
{
    let e = format::event_at(ev, k);
    let own = e.thread.number as usize;
    if e.kind == Kind::Fork.number() {
        return e.object == own || bits::contains(threads.forked, e.object);
    }
    e.kind == Kind::Join.number() && e.object == own
}

// Is event k a fork of a thread that has an event?
fn already_begun(ev: &[u8], k: usize, threads: Threads) -> bool
    requires { Valid (trace_in ev.now) k × ThreadSets (trace_in ev.now) (before k) threads }
    ensures { result ≡ (eqb (kind_of (trace_in ev.now) k) fork && is_begun (trace_in ev.now) (before k) (object_of (trace_in ev.now) k)) }
{
    let e = format::event_at(ev, k);
    e.kind == Kind::Fork.number() && bits::contains(threads.begun, e.object)
}

// Is event k of a joined thread?
fn already_joined(ev: &[u8], k: usize, threads: Threads) -> bool
    requires { Valid (trace_in ev.now) k × ThreadSets (trace_in ev.now) (before k) threads }
    ensures { result ≡ is_joined (trace_in ev.now) (before k) (thread_of (trace_in ev.now) k) }
{
    let own = format::thread_at(ev, k) as usize;
    bits::contains(threads.joined, own)
}

// The sets after event k too: its thread has an event; what it forks is forked, what it joins is joined.
#[tactic(auto, using(crate::proofs::ThreadLaws::added), unfolding(decision::specs::Refusals::is_begun, decision::specs::Refusals::is_forked, decision::specs::Refusals::is_joined, model::specs::Trace::does, model::specs::Lists::just))]
fn with_event(ev: &[u8], k: usize, threads: Threads) -> Threads
    requires { Valid (trace_in ev.now) k × ThreadSets (trace_in ev.now) (before k) threads × InLimits (trace_in ev.now) k }
    ensures { ThreadSets (trace_in ev.now) (k ∷ before k) result }
{
    let e = format::event_at(ev, k);
    let begun = bits::include(threads.begun, e.thread.number);
    if e.kind == Kind::Fork.number() {
        return Threads {
            begun,
            forked: bits::include(threads.forked, e.object as u8),
            ..threads
        };
    }
    if e.kind == Kind::Join.number() {
        return Threads {
            begun,
            joined: bits::include(threads.joined, e.object as u8),
            ..threads
        };
    }
    Threads { begun, ..threads }
}

// What event k, where refusals 5 to 7 and 15 to 17 have no case, does to its lock after those before it. Refusals 8 and 9.
#[tactic(auto, using(crate::proofs::EffectLaws::for_lock_alone), unfolding(crate::specs::Walk::effect_of, decision::specs::Refusals::event_tests, decision::specs::Check::is_free, model::specs::Trace::does))]
fn lock_effect(ev: &[u8], k: usize, locks: &Locks) -> Result<Option<Hold>, Refusal>
    requires { Ready (trace_in ev.now) k locks.now.holder locks.now.depth × InLimits (trace_in ev.now) k × InPlace (trace_in ev.now) k }
    ensures { result ≡ effect_of (trace_in ev.now) k }
{
    let e = format::event_at(ev, k);
    let number = k as u16;
    let own = e.thread.number + 1;
    let held = locks.holder[e.object];
    let deep = locks.depth[e.object];
    if e.kind == Kind::Acquire.number() {
        // its holder may acquire it again, one level deeper
        if held == 0 || held == own {
            return Ok(Some(Hold {
                holder: own,
                depth: deep + 1,
            }));
        }
        return Err(Refusal::LockHeld(number));
    }
    if e.kind == Kind::Release.number() {
        if held != own {
            return Err(Refusal::NotHolder(number));
        }
        // only the release of the last level frees it
        if deep <= 1 {
            return Ok(Some(Hold {
                holder: 0,
                depth: 0,
            }));
        }
        return Ok(Some(Hold {
            holder: own,
            depth: deep - 1,
        }));
    }
    Ok(None)
}

// What event k, whose kind, thread and object are within their limits, does after those before it. Refusals 15 to 17, then 8 and 9.
#[tactic(auto, unfolding(crate::specs::Walk::effect_of, crate::specs::Judged::event_refusal, decision::specs::Refusals::event_tests))]
fn thread_effect(
    ev: &[u8],
    k: usize,
    threads: Threads,
    locks: &Locks,
) -> Result<Option<Hold>, Refusal>
    requires ready { Ready (trace_in ev.now) k locks.now.holder locks.now.depth }
    requires thread_sets { ThreadSets (trace_in ev.now) (before k) threads × InLimits (trace_in ev.now) k }
    ensures { result ≡ effect_of (trace_in ev.now) k }
{
    let number = k as u16;
    if self_or_second(ev, k, threads) {
        return Err(Refusal::SelfOrSecond(number));
    }
    if already_begun(ev, k, threads) {
        return Err(Refusal::AlreadyBegun(number));
    }
    if already_joined(ev, k, threads) {
        return Err(Refusal::AlreadyJoined(number));
    }
    lock_effect(ev, k, locks)
}

// What event k does after those before it. Refusals 5 to 7, 15 to 17, 8 and 9, in this order.
#[tactic(auto, unfolding(crate::specs::Walk::effect_of, crate::specs::Judged::event_refusal, decision::specs::Refusals::event_tests))]
fn effect_at(ev: &[u8], k: usize, threads: Threads, locks: &Locks) -> Result<Option<Hold>, Refusal>
    requires ready { Ready (trace_in ev.now) k locks.now.holder locks.now.depth }
    requires thread_sets { ThreadSets (trace_in ev.now) (before k) threads }
    ensures { result ≡ effect_of (trace_in ev.now) k }
{
    let e = format::event_at(ev, k);
    let number = k as u16;
    if !e.kind_known() {
        return Err(Refusal::Kind(number));
    }
    if !e.thread.in_limit() {
        return Err(Refusal::Thread(number));
    }
    if !e.object_in_limit() {
        return Err(Refusal::Object(number));
    }
    thread_effect(ev, k, threads, locks)
}

// Refusals 5 to 7, 15 to 17, 8 and 9, event by event, of a file that has been read.
fn judge_events(file: &[u8], t: Recording) -> Result<Recording, Refusal>
    requires { Placed file.now t }
    ensures { result ≡ file_of file.now (refusal_of file.now) }
{
    let ev = format::events(file, t);
    let mut locks = Locks::empty();
    let mut threads = Threads {
        begun: 0,
        forked: 0,
        joined: 0,
    };
    for k in 1..format::count(ev) + 1 {
        let effect = effect_at(ev, k, threads, &locks)?;
        if let Some(hold) = effect {
            let object = format::object_at(ev, k);
            locks.holder[object] = hold.holder;
            locks.depth[object] = hold.depth;
        }
        threads = with_event(ev, k, threads);
    }
    Ok(t)
}

// Refusals 1 to 4, 13, 5 to 7, 15 to 17, 8 and 9: what every question asks of a file first.
pub fn judge(file: &[u8]) -> Result<Recording, Refusal>
    ensures { result ≡ file_of file.now (refusal_of file.now) }
{
    judge_events(file, format::read(file)?)
}
