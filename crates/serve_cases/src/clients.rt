//! Clients of a server.

ghost use Rattle.std.specs.Prelude.{None, ◌≡◌, ◌<◌, length};

use outside::Failed;
use outside_serving::{Count, Link};
use std::alloc::Global;
use std::str;
use std::sync::atomic::{AtomicU64, Ordering};
use std::sync::{Arc, Wait};
use std::thread::yield_now;

const ROSTER: &[u8] = b"GET /roster/Master HTTP/1.1\r\nHost: x\r\n\r\n";

const JOIN: &[u8] =
    b"POST /join HTTP/1.1\r\nHost: x\r\nContent-Length: 20\r\n\r\nname=mia&password=pw";

/// How often a client looks again before it gives up.
const MOST_LOOKS: u32 = 10_000_000;

/// How many turns a client leaves to others before it asks again.
const PAUSE: u32 = 1_000;

/// What clients, the port and the sink of a run share.
#[derive(Drop)]
pub(crate) struct Seen {
    /// How many bytes the server wrote.
    pub written: AtomicU64,
    /// How often the first client was answered, and how often the second.
    pub first: AtomicU64,
    pub second: AtomicU64,
    /// How many clients had a response of status 200.
    pub answered: AtomicU64,
    /// How many clients waited for another in vain.
    pub in_vain: AtomicU64,
    /// How often the publication of the site's rows was shown, and how often the one with the client that joined.
    pub shown: AtomicU64,
    pub shown_later: AtomicU64,
}

impl Seen {
    pub fn new() -> Seen {
        Seen {
            written: AtomicU64::new(0),
            first: AtomicU64::new(0),
            second: AtomicU64::new(0),
            answered: AtomicU64::new(0),
            in_vain: AtomicU64::new(0),
            shown: AtomicU64::new(0),
            shown_later: AtomicU64::new(0),
        }
    }

    /// Whether a publication with the client that joined was shown.
    pub fn is_shown_later(&self) -> bool {
        self.shown_later.load(Ordering::SeqCst) > 0
    }

    /// Notes which publication a response shows.
    fn note(&self, response: &str) {
        if response.contains("<p>publication 1 revision 4</p>") {
            self.shown.fetch_add(1, Ordering::SeqCst);
        }
        if response.contains("<p>publication 2 revision 5</p>") {
            self.shown_later.fetch_add(1, Ordering::SeqCst);
        }
    }
}

/// What a client does.
#[derive(Clone, Copy)]
pub(crate) enum Way {
    /// It asks once, and then waits until the second client was answered.
    First,
    /// It asks once, and then waits until the first client was answered.
    Second,
    /// It asks until it is shown the publication of the site's rows, at most so often.
    Asks(u32),
    /// It asks so too, then it joins, and asks until it is shown a publication with its account.
    Joins(u32),
    /// It comes once such a publication was shown, and asks nothing.
    Late,
}

/// A client that asks for a roster.
#[derive(Drop)]
pub(crate) struct Client {
    way: Way,
    asked: u32,
    has_joined: bool,
    is_answered: bool,
    seen: Arc<Seen, Global>,
    faults: Count,
    ends: Count,
}

impl Client {
    pub fn new(way: Way, seen: Arc<Seen, Global>) -> Client {
        Client {
            way,
            asked: 0,
            has_joined: false,
            is_answered: false,
            seen,
            faults: Count::zero(),
            ends: Count::zero(),
        }
    }

    /// Waits until the client may come, or after too many looks.
    pub fn comes(&self) {
        for _ in 0..MOST_LOOKS {
            match self.way {
                Way::Late if !self.seen.is_shown_later() => yield_now(),
                _ => return,
            }
        }
    }

    /// Whether it asks again.
    fn asks(&self) -> bool {
        match self.way {
            Way::First | Way::Second => self.asked == 0,
            Way::Asks(most) => self.asked < most && self.seen.shown.load(Ordering::SeqCst) == 0,
            Way::Joins(most) => self.asked < most && !self.seen.is_shown_later(),
            Way::Late => false,
        }
    }

    /// Whether it joins now.
    fn joins(&self) -> bool {
        match self.way {
            Way::Joins(_) => !self.has_joined && self.seen.shown.load(Ordering::SeqCst) > 0,
            _ => false,
        }
    }

    /// What it asks for next.
    fn request(&mut self) -> &'static [u8]
        ensures same { (self.new.faults ≡ self.old.faults) × (self.new.ends ≡ self.old.ends) }
        ensures some { 0 < length result.now }
    {
        if self.joins() {
            self.has_joined = true;
            return JOIN;
        }
        self.asked = self.asked.saturating_add(1);
        ROSTER
    }

    /// Whether the other client was answered.
    fn other_is_answered(&self) -> bool {
        match self.way {
            Way::First => self.seen.second.load(Ordering::SeqCst) > 0,
            Way::Second => self.seen.first.load(Ordering::SeqCst) > 0,
            Way::Asks(_) | Way::Joins(_) | Way::Late => true,
        }
    }

    /// Waits until the other client was answered; false after too many looks.
    fn waits(&self) -> bool {
        for _ in 0..MOST_LOOKS {
            if self.other_is_answered() {
                return true;
            }
            yield_now();
        }
        false
    }

    /// Whether this is its first response of status 200.
    fn is_first(&self, response: &str) -> bool {
        response.starts_with("HTTP/1.1 200 ") && !self.is_answered
    }

    /// Notes a response, also for whoever waits for it.
    fn note(&mut self, piece: &[u8])
        ensures { (self.new.faults ≡ self.old.faults) × (self.new.ends ≡ self.old.ends) }
    {
        let response = str::from_utf8(piece).unwrap_or("");
        if self.is_first(response) {
            self.is_answered = true;
            self.seen.answered.fetch_add(1, Ordering::SeqCst);
        }
        self.seen.note(response);
        match self.way {
            Way::First => self.seen.first.fetch_add(1, Ordering::SeqCst),
            Way::Second => self.seen.second.fetch_add(1, Ordering::SeqCst),
            Way::Asks(_) | Way::Joins(_) | Way::Late => 0,
        };
    }
}

impl Link for Client {
    ghost line = { λ s. record { left = None; written = None; faults = s.faults; ends = s.ends } };

    fn read<R: Wait>(&mut self, _rt: &R, into: &mut [u8]) -> Result<usize, Failed> {
        if self.asks() {
            for _ in 0..PAUSE {
                yield_now();
            }
            let request = self.request();
            let n = request.len().min(into.len());
            into[..n].copy_from_slice(&request[..n]);
            return Ok(n);
        }
        if self.waits() {
            self.ends.rise();
            Ok(0)
        } else {
            self.seen.in_vain.fetch_add(1, Ordering::SeqCst);
            self.faults.rise();
            Err(Failed)
        }
    }

    fn write<R: Wait>(&mut self, _rt: &R, piece: &[u8]) -> Result<usize, Failed> {
        self.note(piece);
        Ok(piece.len())
    }
}
