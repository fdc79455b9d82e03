// Findings as bytes: how many the finding of an occurrence takes, and writing it where exactly that many fit.
#![tactic(auto)]

ghost use Rattle.std.specs.Prelude.{◌≡◌, List, ℕ, ◌+◌, ◌≤◌, ◌<◌, leb, get_or, length};
ghost use Rattle.forms.specs.Bytes.{big_endian};
ghost use Rattle.forms.specs.Forms.{number, each, section_bytes};
ghost use Rattle.timestamps.specs.Composite.{members};
ghost use Rattle.event_sets.specs.Sets.{elements, size_of};
ghost use Rattle.occurrences.specs.Packed.{occurrence_of};
ghost use Rattle.timestamps.specs.Notes.{ticks_of};
ghost use Rattle.occurrences.specs.Steps.{Inside};
ghost use Rattle.detections.specs.Findings.{Finding, stamp, finding_bytes};
ghost use Rattle.detections.specs.Views.{written_bytes, written_stamps};
ghost use Rattle.detections.specs.Writing.{Wrote};
ghost use Rattle.detections.specs.Steps.{bits_from, named_bytes, one_if, stamp_bytes};

use event_sets::EventSet;
use occurrences::Packed;
use timestamps::{LocalTick, Note};

// The plan's logger numbers by logger place, 0 where there is none.
pub type LoggerNumbers = [u64; 8];

// A stamp as it is written: the number of its logger, and its local tick.
#[derive(Clone, Copy)]
pub struct Stamp {
    pub logger: u64,
    pub tick: LocalTick,
}

// ---- sizes in bytes
// A stamp: two for its logger's number, eight for its tick.
const STAMP: usize = 10;
// The number of an event.
const EVENT: usize = 2;
// A finding with neither: its node, and both counts.
const LEAST: usize = 6;
// The largest finding: eight stamps, 128 events.
const MOST: usize = LEAST + 8 * STAMP + 128 * EVENT;

// ---- counts

fn one_if(w: u64) -> usize
    ensures { (result ≡ one_if w) × (result ≤ 1) }
{
    usize::from(0 < w)
}

// How many timestamps an occurrence has.
pub fn timestamp_count(o: &Packed, notes: &[Note]) -> usize
    requires { Inside 8 notes.now (get_or o.now 2 0) }
    ensures { (result ≡ length (members (occurrence_of (ticks_of notes.now) o.now).latest)) × (result ≤ 8) }
{
    let mut n = 0;
    for k in 0..8 {
        n += one_if(occurrences::word_at(o, notes, k));
    }
    n
}

// How many events it has.
pub fn event_count(o: &Packed) -> usize
    ensures { ((ticks : List ℕ) → result ≡ size_of (occurrence_of ticks o.now).events) × (result ≤ 128) }
{
    event_sets::count(occurrences::events_of(o))
}

// How many bytes a finding with so many timestamps and events takes.
pub fn size(timestamps: usize, events: usize) -> usize
    requires { (timestamps ≤ 8) × (events ≤ 128) }
    ensures { (f : Finding) → length f.stamps ≡ timestamps → length f.events ≡ events → result ≡ length (finding_bytes f) }
{
    LEAST + STAMP * timestamps + EVENT * events
}

// Whether the finding of an occurrence fits in so many bytes.
pub fn fits(o: &Packed, notes: &[Note], left: usize) -> bool
    requires { Inside 8 notes.now (get_or o.now 2 0) }
    ensures { (loggers : List ℕ) (node : ℕ)
        → result ≡ leb (length (written_bytes (ticks_of notes.now) loggers node o.now)) left }
{
    MOST <= left || size(timestamp_count(o, notes), event_count(o)) <= left
}

// ---- writing

// Each function here writes from the place `at` on and answers the place after: that is what the contracts of a finding's parts speak of (`Wrote`), and a slice
// of the rest would have to be lent anew for each part.

fn put_bytes(out: &mut [u8], at: usize, bytes: &[u8]) -> usize
    requires { at + length bytes.now ≤ length out.old }
    ensures { Wrote out.old at bytes.now result out.new }
{
    let to = at + bytes.len();
    out[at..to].copy_from_slice(bytes);
    to
}

// The lowest two bytes of v.
fn put_u16(out: &mut [u8], at: usize, v: u64) -> usize
    requires { at + 2 ≤ length out.old }
    ensures { Wrote out.old at (big_endian 2 v) result out.new }
{
    put_bytes(out, at, &((v % 65536) as u16).to_be_bytes())
}

fn put_u64(out: &mut [u8], at: usize, v: u64) -> usize
    requires { at + 8 ≤ length out.old }
    ensures { Wrote out.old at (big_endian 8 v) result out.new }
{
    put_bytes(out, at, &v.to_be_bytes())
}

// The stamp of an event, where the table has its tick. The tick is read when the logger is written: then each is one store.
fn put_stamp(out: &mut [u8], at: usize, logger: u64, event: usize, notes: &[Note]) -> usize
    requires { (event < length notes.now) × (at + length (stamp_bytes logger (get_or (ticks_of notes.now) event 0)) ≤ length out.old) }
    ensures { Wrote out.old at (stamp_bytes logger (get_or (ticks_of notes.now) event 0)) result out.new }
{
    if 0 < notes[event].tick {
        let a = put_u16(out, at, logger);
        put_u64(out, a, notes[event].tick - 1)
    } else {
        at
    }
}

// The stamps of the events that the bytes of a packed number name, from the lowest byte on.
fn put_named(
    out: &mut [u8],
    at: usize,
    packed: u64,
    notes: &[Note],
    loggers: &LoggerNumbers,
) -> usize
    requires { Inside 8 notes.now packed × (get_or (ticks_of notes.now) 0 0 ≡ 0)
        × (at + length (named_bytes (ticks_of notes.now) loggers.now 8 0 packed) ≤ length out.old) }
    ensures { Wrote out.old at (named_bytes (ticks_of notes.now) loggers.now 8 0 packed) result out.new }
{
    let mut to = at;
    let mut rest = packed;
    // A loop over the bytes that are set: an iterator of them would be this loop, with a type and a proof of its own.
    while 0 < rest {
        let k = (rest.trailing_zeros() / 8) as usize;
        let event = (rest >> (8 * k)) % 256;
        to = put_stamp(out, to, loggers[k], event as usize, notes);
        // Without that byte.
        rest -= event << (8 * k);
    }
    to
}

// The stamps, by rising logger.
fn put_stamps(
    out: &mut [u8],
    at: usize,
    o: &Packed,
    notes: &[Note],
    loggers: &LoggerNumbers,
) -> usize
    requires { Inside 8 notes.now (get_or o.now 2 0) × (get_or (ticks_of notes.now) 0 0 ≡ 0)
        × (at + length (each stamp (written_stamps (ticks_of notes.now) loggers.now o.now)) ≤ length out.old) }
    ensures { Wrote out.old at (each stamp (written_stamps (ticks_of notes.now) loggers.now o.now))
        result out.new }
{
    put_named(out, at, o[2], notes, loggers)
}

// The stamps after their count; ten bytes are one.
fn put_stamp_section(
    out: &mut [u8],
    at: usize,
    o: &Packed,
    notes: &[Note],
    loggers: &LoggerNumbers,
) -> usize
    requires { Inside 8 notes.now (get_or o.now 2 0) × (get_or (ticks_of notes.now) 0 0 ≡ 0)
        × (at + length (section_bytes stamp (written_stamps (ticks_of notes.now) loggers.now o.now)) ≤ length out.old) }
    ensures { Wrote out.old at (section_bytes stamp (written_stamps (ticks_of notes.now) loggers.now o.now))
        result out.new }
{
    let from = at + 2;
    let to = put_stamps(out, from, o, notes, loggers);
    put_u16(out, at, ((to - from) / STAMP) as u64);
    to
}

// The numbers of the bits that are set in a word, rising; its lowest bit has the number `first`.
fn put_bits(out: &mut [u8], at: usize, word: u64, first: u64) -> usize
    requires { (first ≤ 64) × (at + length (each (number 2) (bits_from 64 first word)) ≤ length out.old) }
    ensures { Wrote out.old at (each (number 2) (bits_from 64 first word)) result out.new }
{
    let mut to = at;
    let mut rest = word;
    // Likewise over the bits.
    while 0 < rest {
        to = put_u16(out, to, first + rest.trailing_zeros() as u64);
        // Without its lowest bit.
        rest &= rest - 1;
    }
    to
}

// The numbers of the events, rising.
fn put_events(out: &mut [u8], at: usize, s: EventSet) -> usize
    requires { at + length (each (number 2) (elements s)) ≤ length out.old }
    ensures { Wrote out.old at (each (number 2) (elements s)) result out.new }
{
    let low = put_bits(out, at, s.low, 0);
    put_bits(out, low, s.high, 64)
}

// The numbers of the events after their count; two bytes are one.
fn put_event_section(out: &mut [u8], at: usize, s: EventSet) -> usize
    requires { at + length (section_bytes (number 2) (elements s)) ≤ length out.old }
    ensures { Wrote out.old at (section_bytes (number 2) (elements s)) result out.new }
{
    let from = at + 2;
    let to = put_events(out, from, s);
    put_u16(out, at, ((to - from) / EVENT) as u64);
    to
}

// The finding of an occurrence, where it fits whole: what is written, the place after it, and every other byte as it was.
pub fn write(
    out: &mut [u8],
    at: usize,
    node: u64,
    o: &Packed,
    notes: &[Note],
    loggers: &LoggerNumbers,
) -> usize
    requires { Inside 8 notes.now (get_or o.now 2 0) × (get_or (ticks_of notes.now) 0 0 ≡ 0)
        × (at + length (written_bytes (ticks_of notes.now) loggers.now node o.now) ≤ length out.old) }
    ensures { Wrote out.old at (written_bytes (ticks_of notes.now) loggers.now node o.now) result out.new }
{
    let a = put_u16(out, at, node);
    let b = put_stamp_section(out, a, o, notes, loggers);
    put_event_section(out, b, occurrences::events_of(o))
}
