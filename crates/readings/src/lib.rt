// Reading a finding back from its bytes.
#![tactic(auto)]

ghost use Rattle.std.specs.Prelude.{◌≡◌, ◌+◌, ◌≤◌, length, take, IfOk};
ghost use Rattle.forms.specs.Forms.{number};
ghost use Rattle.forms.specs.Sections.{outside, piece, section};
ghost use Rattle.event_sets.specs.Sets.{elements};
ghost use Rattle.detections.specs.Findings.{stamp};
ghost use Rattle.readings.specs.Reader.{stamp_section, event_section, read_finding};
ghost use Rattle.readings.specs.Views.{answer_of};
ghost use Rattle.readings.specs.Steps.{read_as};

pub mod entries;

use detections::Stamp;
use entries::Stamps;
use event_sets::EventSet;
use timestamps::LocalTick;

// A finding that was read, and the place after it.
#[derive(Clone, Copy)]
pub struct FindingRead {
    pub next: usize,
    pub node: u64,
    pub stamps: Stamps,
    pub events: EventSet,
}

// No whole finding within the limits stands there: the place of the number, count or entry that is not in order.
#[derive(Clone, Copy)]
pub struct NoFinding {
    pub place: usize,
}

const MAX_STAMPS: u64 = 8;

const MAX_EVENTS: u64 = 128;

const STAMP_WIDTH: usize = 10;

// A number of two bytes, from low to high, and the place after it.
fn read_u16(bytes: &[u8], at: usize, low: u64, high: u64) -> Result<(u64, usize), NoFinding>
    ensures is { read_as (λ v. v) result ≡ piece (number 2) 1 (outside low high 1) bytes.now at }
    ensures within { IfOk result (λ r. r.0 ≤ high) }
{
    match forms::read_number(bytes, at, 2, low, high) {
        Ok(value) => Ok((value, at + 2)),
        Err(_) => Err(NoFinding { place: at }),
    }
}

// The stamp at a place.
fn stamp_at(bytes: &[u8], at: usize) -> Stamp
    requires { at + 10 ≤ length bytes.now }
    ensures { result ≡ stamp.value bytes.now at }
{
    Stamp {
        logger: forms::number_at(bytes, at, 2),
        tick: LocalTick(forms::number_at(bytes, at + 2, 8)),
    }
}

// The stamps, and the place after them.
fn read_stamps(bytes: &[u8], start: usize) -> Result<(Stamps, usize), NoFinding>
    ensures { read_as (λ s. take s.count s.slots) result ≡ section stamp_section bytes.now start }
{
    let (counted, mut at) = read_u16(bytes, start, 0, MAX_STAMPS)?;
    let count = counted as usize;
    let mut slots = [Stamp {
        logger: 0,
        tick: LocalTick(0),
    }; 8];
    for i in 0..count {
        if forms::left(bytes, at) < STAMP_WIDTH {
            return Err(NoFinding { place: at });
        }
        slots[i] = stamp_at(bytes, at);
        at += STAMP_WIDTH;
    }
    Ok((Stamps { count, slots }, at))
}

// The events, and the place after them. Each event number is above the one before.
fn read_events(bytes: &[u8], start: usize) -> Result<(EventSet, usize), NoFinding>
    ensures { read_as elements result ≡ section event_section bytes.now start }
{
    let (count, mut at) = read_u16(bytes, start, 0, MAX_EVENTS)?;
    let mut events = EventSet::none();
    let mut least = 0;
    for i in 0..count {
        let (n, next) = read_u16(bytes, at, least, MAX_EVENTS - 1)?;
        events = event_sets::marked(events, n as usize);
        least = n + 1;
        at = next;
    }
    Ok((events, at))
}

// The finding at a place.
pub fn read(bytes: &[u8], at: usize) -> Result<FindingRead, NoFinding>
    ensures { answer_of result ≡ read_finding bytes.now at }
{
    if forms::left(bytes, at) < 2 {
        return Err(NoFinding { place: at });
    }
    let node = forms::number_at(bytes, at, 2);
    let (stamps, after) = read_stamps(bytes, at + 2)?;
    let (events, next) = read_events(bytes, after)?;
    Ok(FindingRead {
        next,
        node,
        stamps,
        events,
    })
}
