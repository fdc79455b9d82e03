// Timestamps of loggers with separate clocks, and their order. The specification has composite timestamps, their join and their comparison.
#![tactic(auto)]

ghost use Rattle.std.specs.Prelude.{◌≡◌, max, min, ltb};
ghost use Rattle.timestamps.specs.Comparison.{order_number};
ghost use Rattle.timestamps.specs.Order.{blank, clearly_earlier, quotient, valid, valid_ratio};

// ---- timestamps

// A tick of a logger's own clock (document 01: local tick).
#[repr(C)]
#[derive(Clone, Copy, PartialEq, Eq, PartialOrd, Ord)]
pub struct LocalTick(pub u64);

// A tick of the clock that all loggers share (document 01: global tick).
#[derive(Clone, Copy, PartialEq, Eq, PartialOrd, Ord)]
pub struct GlobalTick(pub u64);

// Document 01's stamp: the place of a logger and its local tick.
#[repr(C)]
#[derive(Clone, Copy, PartialEq, Eq)]
pub struct Timestamp {
    pub logger: u8,
    pub tick: LocalTick,
}

impl LocalTick {
    // The global tick: the one place where a local tick becomes one. A ratio of 0 gives 0.
    pub fn global(self, ratio: u64) -> GlobalTick
        ensures { result ≡ quotient ratio self }
    {
        if ratio == 0 {
            GlobalTick(0)
        } else {
            GlobalTick(self.0 / ratio)
        }
    }

    // Earlier on one and the same clock.
    pub fn earlier(self, other: LocalTick) -> bool
        ensures { result ≡ ltb self.0 other.0 }
    {
        self < other
    }
}

impl GlobalTick {
    // Earlier by more than one global tick.
    pub fn clearly_earlier(self, other: GlobalTick) -> bool
        ensures { result ≡ clearly_earlier self other }
    {
        other.0 != 0 && self.0 < other.0 - 1
    }

    pub fn earlier(self, other: GlobalTick) -> bool
        ensures { result ≡ ltb self.0 other.0 }
    {
        self < other
    }

    // The earlier of two.
    pub fn earliest(self, other: GlobalTick) -> GlobalTick
        ensures { result.0 ≡ min self.0 other.0 }
    {
        self.min(other)
    }

    // The later of two.
    pub fn latest(self, other: GlobalTick) -> GlobalTick
        ensures { result.0 ≡ max self.0 other.0 }
    {
        self.max(other)
    }
}

impl Timestamp {
    pub const MAX_TICK: u64 = 9223372036854775807;

    pub const MAX_RATIO: u64 = 1000000;

    // What stands where there is no timestamp: no Option, since the C interface shows it.
    pub fn blank() -> Timestamp
        ensures { result ≡ blank }
    {
        Timestamp {
            logger: 255,
            tick: LocalTick(0),
        }
    }

    // A logger place of 0 to 7, and a tick that is not too large.
    pub fn valid(self) -> bool
        ensures { result ≡ valid self }
    {
        self.logger <= 7 && self.tick.0 <= Timestamp::MAX_TICK
    }
}

pub fn valid_ratio(ratio: u64) -> bool
    ensures { result ≡ valid_ratio ratio }
{
    1 <= ratio && ratio <= Timestamp::MAX_RATIO
}

// What is noted of an event: its local tick and its global tick, each plus one; 0 for none.
#[derive(Clone, Copy, PartialEq, Eq)]
pub struct Note {
    pub tick: u64,
    pub global: u64,
}

// ---- composite timestamps

// Document 01's composite stamp: at most one timestamp for each logger place. Where there is none the tick is 0.
#[derive(Clone, Copy)]
pub struct CompositeTimestamp {
    pub present: [bool; 8],
    pub ticks: [LocalTick; 8],
}

// ---- how two composites compare

// The word for how one composite stands to another (specs/Comparison.antt: `says` what each means, `order_number` its number).
#[derive(Clone, Copy, PartialEq, Eq)]
pub enum Order {
    Incomparable = 0,
    Before = 1,
    After = 2,
    Concurrent = 3,
}

impl Order {
    // The word's number, as C has it.
    pub fn number(self) -> u8
        ensures { result ≡ order_number self }
    {
        self as u8
    }
}

// The comparison: one word, and whether the first is weakly before the second.
#[derive(Clone, Copy, PartialEq, Eq)]
pub struct Relation {
    pub order: Order,
    pub weakly_before: bool,
}
