// What is limited, each kind of thing with its limits, and the refusals.
#![tactic(auto)]

ghost use Rattle.std.specs.Prelude.{◌≡◌, leb, Some};
ghost use Rattle.limits.specs.Kinds.{kind_number, IsKind};
ghost use Rattle.model.specs.Good.{max_events, max_thread, object_limit, is_known_kind};
ghost use Rattle.limits.specs.Limits.{is_file_size, is_area_size, no_locks};
ghost use Rattle.limits.specs.Refusals.{number_of, event_of, text_of};

use std::fmt;

// A thread, by its number.
#[derive(Clone, Copy)]
pub struct Thread {
    pub number: u8,
}

impl Thread {
    // The highest number.
    pub const MAX: u8 = 15;

    // The places of a list by thread.
    pub const COUNT: usize = Thread::MAX as usize + 1;

    pub fn in_limit(self) -> bool
        ensures { result ≡ leb self.number max_thread }
    {
        self.number <= Thread::MAX
    }
}

// What an event does.
#[derive(Clone, Copy, PartialEq, Eq, Debug)]
pub enum Kind {
    Read,
    Write,
    Acquire,
    Release,
    Fork,
    Join,
}

// A number that is no kind's.
#[derive(Clone, Copy, PartialEq, Eq, Debug)]
pub struct UnknownKind(pub u8);

impl Kind {
    // Its number in a file.
    pub fn number(self) -> u8
        ensures { result ≡ kind_number self }
    {
        match self {
            Kind::Read => 1,
            Kind::Write => 2,
            Kind::Acquire => 3,
            Kind::Release => 4,
            Kind::Fork => 5,
            Kind::Join => 6,
        }
    }
}

impl TryFrom<u8> for Kind {
    type Error = UnknownKind;

    ghost try_from_gives = { IsKind };

    fn try_from(number: u8) -> Result<Kind, UnknownKind> {
        match number {
            1 => Ok(Kind::Read),
            2 => Ok(Kind::Write),
            3 => Ok(Kind::Acquire),
            4 => Ok(Kind::Release),
            5 => Ok(Kind::Fork),
            6 => Ok(Kind::Join),
            _ => Err(UnknownKind(number)),
        }
    }
}

// An event as a file has it: its thread, the number of its kind (which may be that of none, so it is no `Kind` yet), and its object: the cell of a read or write, the lock of an acquire or release, or the thread that is forked or joined.
#[derive(Clone, Copy)]
pub struct Event {
    pub thread: Thread,
    pub kind: u8,
    pub object: usize,
}

impl Event {
    // An event's bytes in a file.
    pub const BYTES: usize = 4;

    // The highest number of a cell or lock.
    pub const MAX_OBJECT: usize = 1023;

    // The places of a table by object.
    pub const OBJECTS: usize = Event::MAX_OBJECT + 1;

    // Is its kind's number one of a kind?
    pub fn kind_known(self) -> bool
        ensures { result ≡ is_known_kind self.kind }
    {
        Kind::try_from(self.kind).is_ok()
    }

    // The highest number of an object of a kind of event: that of a fork or join is a thread.
    pub fn object_limit(kind: u8) -> usize
        ensures { result ≡ object_limit kind }
    {
        if kind < Kind::Fork.number() {
            return Event::MAX_OBJECT;
        }
        Thread::MAX as usize
    }

    pub fn object_in_limit(self) -> bool
        ensures { result ≡ leb self.object (object_limit self.kind) }
    {
        self.object <= Event::object_limit(self.kind)
    }
}

// The locks: who holds each (0 for nobody, c + 1 for thread c, as the definition `holder` has it), and how deep. A depth goes up to the number of events, past a u8.
#[derive(Drop)]
pub struct Locks {
    pub holder: [u8; Event::OBJECTS],
    pub depth: [u16; Event::OBJECTS],
}

impl Locks {
    // Nobody holds any.
    #[tactic(auto, unfolding(crate::specs::Limits::no_locks))]
    pub fn empty() -> Locks
        ensures holder_value { result.holder ≡ no_locks }
        ensures depth_value { result.depth ≡ no_locks }
    {
        Locks {
            holder: [0u8; Event::OBJECTS],
            depth: [0u16; Event::OBJECTS],
        }
    }
}

// A recording, by where its events begin in its file.
#[derive(Clone, Copy)]
pub struct Recording {
    pub start: usize,
}

impl Recording {
    pub const MAX_EVENTS: usize = 1000;

    // The places of a table by event number: one for each event, and one for 0.
    pub const PLACES: usize = Recording::MAX_EVENTS + 1;

    // The most bytes of a file.
    pub const MAX_BYTES: usize = 16384;

    // The trailer's bytes, and so the fewest of a file.
    pub const TRAILER_BYTES: usize = 8;

    // The bytes of the work area that questions 3 and 4 borrow.
    pub const AREA_BYTES: usize = 65536;

    // The last two bytes of a file.
    pub const MARK_FIRST: u8 = 0x50;

    pub const MARK_SECOND: u8 = 0x4C;

    // May a file have so many bytes?
    pub fn bytes_in_limit(n: usize) -> bool
        ensures { result ≡ is_file_size n }
    {
        (Recording::TRAILER_BYTES..=Recording::MAX_BYTES).contains(&n)
    }

    // May a recording have so many events?
    pub fn events_in_limit(n: usize) -> bool
        ensures { result ≡ leb n max_events }
    {
        n <= Recording::MAX_EVENTS
    }

    // Is a work area of so many bytes long enough?
    #[tactic(auto, unfolding(crate::specs::Limits::is_area_size))]
    pub fn area_suffices(n: usize) -> bool
        ensures { result ≡ is_area_size n }
    {
        Recording::AREA_BYTES <= n
    }
}

// Why a file or a question is refused; a case has the number of the event that it speaks of. `number_of` gives each its number in the paper.
#[derive(Clone, Copy, PartialEq, Eq, Debug)]
pub enum Refusal {
    FileSize,
    Mark,
    EventCount,
    Distance,
    Kind(u16),
    Thread(u16),
    Object(u16),
    // a fork or join of its own thread, or a second fork of one thread
    SelfOrSecond(u16),
    // a fork of a thread that has an event
    AlreadyBegun(u16),
    // an event of a joined thread
    AlreadyJoined(u16),
    // by another thread
    LockHeld(u16),
    NotHolder(u16),
    // question 3, and question 2 for all events at once: the lent list; the writer: the buffer, or lists of different lengths
    ListShort,
    NotConflicting,
    AreaShort,
    Preamble,
}

impl Refusal {
    // The paper's number.
    pub fn number(self) -> u8
        ensures { result ≡ number_of self }
    {
        match self {
            Refusal::FileSize => 1,
            Refusal::Mark => 2,
            Refusal::EventCount => 3,
            Refusal::Distance => 4,
            Refusal::Kind(_) => 5,
            Refusal::Thread(_) => 6,
            Refusal::Object(_) => 7,
            Refusal::LockHeld(_) => 8,
            Refusal::NotHolder(_) => 9,
            Refusal::ListShort => 10,
            Refusal::NotConflicting => 11,
            Refusal::AreaShort => 12,
            Refusal::Preamble => 13,
            Refusal::SelfOrSecond(_) => 15,
            Refusal::AlreadyBegun(_) => 16,
            Refusal::AlreadyJoined(_) => 17,
        }
    }

    // The event that a refusal speaks of.
    pub fn event(self) -> Option<u16>
        ensures { result ≡ event_of self }
    {
        match self {
            Refusal::Kind(k)
            | Refusal::Thread(k)
            | Refusal::Object(k)
            | Refusal::SelfOrSecond(k)
            | Refusal::AlreadyBegun(k)
            | Refusal::AlreadyJoined(k)
            | Refusal::LockHeld(k)
            | Refusal::NotHolder(k) => Some(k),
            _ => None,
        }
    }
}

impl fmt::Display for Refusal {
    ghost output = { λ r. Some (text_of r) };

    fn fmt<W: fmt::Write>(&self, f: &mut fmt::Formatter<W>) -> fmt::Result {
        let number = self.number();
        match self.event() {
            Some(k) => write!(f, "refused {number} at {k}"),
            None => write!(f, "refused {number}"),
        }
    }
}
