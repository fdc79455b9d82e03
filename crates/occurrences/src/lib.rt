// Occurrences: a composite timestamp and a set of events, packed into three numbers beside what is noted of the events (specs/Packed.antt), and how they
// combine. One logger is compared by local ticks, two by global ticks; nothing here divides.
#![tactic(auto)]

ghost use Rattle.std.specs.Prelude.{◌≡◌, ℕ, ◌+◌, ◌%◌, ◌^◌, ◌<◌, List, length, get_or, slice_index, slice_index_or, IfSome};
ghost use Rattle.occurrences.specs.declared.Occurrence.{Occurrence};
ghost use Rattle.occurrences.specs.Combination.{combined_of};
ghost use Rattle.occurrences.specs.Occurrences.{is_weakly_before, occurrence_order, of_event};
ghost use Rattle.occurrences.specs.Packed.{Names, Notes, NotesOf, Stands, Within, byte_at, words_of};
ghost use Rattle.timestamps.specs.Notes.{globals_of, ticks_of};
ghost use Rattle.occurrences.specs.Steps.{Bytes, Highest, Inside, Lowest, LowestOf, Only, Settled};
ghost use Rattle.occurrences.specs.Steps.{has_before, is_reached, kept_of, later_at, later_of, note_at, own_before};
ghost use Rattle.timestamps.specs.Comparison.{all_before, stamps_weakly_before};
ghost use Rattle.timestamps.specs.Composite.{members};
ghost use Rattle.timestamps.specs.Order.{blank};

use event_sets::EventSet;
use timestamps::{CompositeTimestamp, GlobalTick, LocalTick, Note, Order};

// Document 01's occurrence: its composite stamp and its events.
#[derive(Clone, Copy)]
pub struct Occurrence {
    pub latest: CompositeTimestamp,
    pub events: EventSet,
}

// An occurrence as the code holds it: the bits of its events in two numbers, and a byte for each logger place.
pub type Packed = [u64; 3];

// A file event: one timestamp, which is noted at its number plus one, and its own number.
pub fn of_event(logger: u8, number: usize) -> Packed
    requires { (number < 128) × (logger < 8) }
    ensures { (ticks globals : List ℕ) (t : Notes ticks globals)
        → number < length t.stamps → (get_or t.stamps number blank).logger ≡ logger
        → Stands t result (of_event (slice_index_or t.stamps number blank) number) }
{
    let events = event_sets::marked(EventSet::none(), number);
    [
        events.low,
        events.high,
        (number as u64 + 1) << (8 * logger as usize),
    ]
}

// Its events.
pub fn events_of(o: &Packed) -> EventSet
    ensures { result ≡ record { low = slice_index o.now 0; high = slice_index o.now 1 } }
{
    EventSet {
        low: o[0],
        high: o[1],
    }
}

// Which event has the timestamp of a logger place: its number plus one, 0 for none.
fn event_at(w: u64, k: usize) -> usize
    requires { k < 8 }
    ensures { (result ≡ byte_at w k) × (result < 256) }
{
    ((w >> (8 * k)) % 256) as usize
}

// The timestamp at a logger place: its local tick plus one, 0 for none.
pub fn word_at(o: &Packed, notes: &[Note], k: usize) -> u64
    requires { (k < 8) × (byte_at (slice_index o.now 2) k < length notes.now) }
    ensures { result ≡ slice_index (words_of (ticks_of notes.now) o.now) (2 + k) }
{
    notes[event_at(o[2], k)].tick
}

// The event that has the only timestamp, its number plus one; none where there is none, or several.
fn only(w: u64) -> Option<usize>
    ensures { IfSome result (λ n. (0 < n) × (n < 256) × Only w n) }
{
    let k = (w.trailing_zeros() / 8) as usize;
    let event = (w >> (8 * (k % 8))) as usize;
    if 0 < event && event < 256 {
        Some(event)
    } else {
        None
    }
}

// ---- the join

// Of two events of one logger the one with the later local tick; both plus one.
fn later_of(i: usize, j: usize, notes: &[Note]) -> usize
    requires { (i < length notes.now) × (j < length notes.now) }
    ensures { result ≡ later_of (ticks_of notes.now) i j }
{
    let s = LocalTick(notes[i].tick);
    let t = LocalTick(notes[j].tick);
    if s.earlier(t) { j } else { i }
}

// Which events have the later timestamps, and the highest global tick of these plus one.
#[derive(Clone, Copy)]
struct Merge {
    events: u64,
    highest: GlobalTick,
}

// At the first four logger places the later timestamp of each.
fn merged_of_four(a: u64, b: u64, notes: &[Note]) -> Merge
    requires { Inside 4 notes.now a × Inside 4 notes.now b }
    ensures { Bytes 4 (later_at (ticks_of notes.now) a b) result.events
        × Highest 4 (λ k. slice_index (globals_of notes.now) (later_at (ticks_of notes.now) a b k)) result.highest.0 }
{
    let mut events = 0;
    let mut highest = GlobalTick(0);
    for k in 0..4 {
        let n = later_of(event_at(a, k), event_at(b, k), notes);
        highest = highest.latest(GlobalTick(notes[n].global));
        events |= (n as u64) << (8 * k);
    }
    Merge { events, highest }
}

// Of each logger the later timestamp.
fn merged(a: u64, b: u64, notes: &[Note]) -> Merge
    requires { Inside 8 notes.now a × Inside 8 notes.now b }
    ensures { Bytes 8 (later_at (ticks_of notes.now) a b) result.events
        × (slice_index (globals_of notes.now) 0 ≡ 0
        → Highest 8 (λ k. slice_index (globals_of notes.now) (later_at (ticks_of notes.now) a b k)) result.highest.0) }
{
    let low = merged_of_four(a, b, notes);
    if (a | b) >> 32 == 0 {
        return low;
    }
    let high = merged_of_four(a >> 32, b >> 32, notes);
    Merge {
        events: low.events | high.events << 32,
        highest: low.highest.latest(high.highest),
    }
}

// The event i, unless its global tick is clearly earlier than the highest; both plus one.
fn kept(i: usize, highest: GlobalTick, notes: &[Note]) -> usize
    requires { i < length notes.now }
    ensures { result ≡ kept_of (globals_of notes.now) highest.0 i }
{
    let g = GlobalTick(notes[i].global);
    if g.clearly_earlier(highest) { 0 } else { i }
}

// At the first four logger places those that are not clearly earlier.
fn settled_of_four(c: u64, highest: GlobalTick, notes: &[Note]) -> u64
    requires { Inside 4 notes.now c }
    ensures { Bytes 4 (λ k. kept_of (globals_of notes.now) highest.0 (byte_at c k)) result }
{
    let mut events = 0;
    for k in 0..4 {
        let n = kept(event_at(c, k), highest, notes);
        events |= (n as u64) << (8 * k);
    }
    events
}

// Those that are not clearly earlier.
fn settled(c: u64, highest: GlobalTick, notes: &[Note]) -> u64
    requires { Inside 8 notes.now c }
    ensures { Bytes 8 (λ k. kept_of (globals_of notes.now) highest.0 (byte_at c k)) result }
{
    let low = settled_of_four(c, highest, notes);
    if c >> 32 == 0 {
        return low;
    }
    low | settled_of_four(c >> 32, highest, notes) << 32
}

// The join of two packed composite timestamps: where each has only one, and these are clearly apart, the later; else of each logger the later, and of
// these those that are not clearly earlier than the highest.
fn joined(a: u64, b: u64, notes: &[Note]) -> u64
    requires { Inside 8 notes.now a × Inside 8 notes.now b }
    ensures { (t : NotesOf notes.now)
        → ((k : ℕ) → k < 8 → Names t.stamps k (byte_at a k)) → ((k : ℕ) → k < 8 → Names t.stamps k (byte_at b k))
        → Settled (globals_of notes.now) (later_at (ticks_of notes.now) a b) result }
{
    if let Some(i) = only(a)
        && let Some(j) = only(b)
    {
        let s = GlobalTick(notes[i].global);
        let t = GlobalTick(notes[j].global);
        if s.clearly_earlier(t) {
            return b;
        }
        if t.clearly_earlier(s) {
            return a;
        }
    }
    let m = merged(a, b, notes);
    settled(m.events, m.highest, notes)
}

// The combination of two: the join of their timestamps, and the union of their events.
pub fn combined(a: &Packed, b: &Packed, notes: &[Note]) -> Packed
    requires { Within notes.now a.now × Within notes.now b.now }
    ensures { (t : NotesOf notes.now) (x y : Occurrence)
        → Stands t a.now x → Stands t b.now y
        → Stands t result (combined_of t.clocks x y) }
{
    let events = event_sets::union(events_of(a), events_of(b));
    [events.low, events.high, joined(a[2], b[2], notes)]
}

// ---- the order

// The tick that is noted; the largest number for none.
fn tick_of(note: u64) -> u64
    ensures { (result + 1) % 2 ^ 64 ≡ note }
{
    note.wrapping_sub(1)
}

// The lowest global tick at the first four logger places; the largest number where there is none.
fn lowest_of_four(w: u64, notes: &[Note]) -> GlobalTick
    requires { Inside 4 notes.now w }
    ensures { Lowest 4 (note_at (globals_of notes.now) w) result.0 }
{
    let mut low = GlobalTick(u64::MAX);
    for k in 0..4 {
        low = low.earliest(GlobalTick(tick_of(notes[event_at(w, k)].global)));
    }
    low
}

// The lowest of all global ticks, the largest number where there is none. An only timestamp is looked at at once, the last four places only where they
// have any.
pub fn lowest(o: &Packed, notes: &[Note]) -> GlobalTick
    requires { Inside 8 notes.now (slice_index o.now 2) }
    ensures { slice_index (globals_of notes.now) 0 ≡ 0 → LowestOf notes.now o.now result.0 }
{
    let w = o[2];
    if let Some(event) = only(w) {
        return GlobalTick(tick_of(notes[event].global));
    }
    let low = lowest_of_four(w, notes);
    let high = w >> 32;
    if high == 0 {
        return low;
    }
    low.earliest(lowest_of_four(high, notes))
}

// Whether v is a note, and its tick before that of the note w on one clock.
fn own_before(v: u64, w: u64) -> bool
    ensures { 0 < w → result ≡ own_before v w }
{
    LocalTick(tick_of(v)).earlier(LocalTick(tick_of(w)))
}

// Whether the second, by what is noted of its timestamp at one logger place, has one before it: there the first one's, or of any logger the lowest of the first.
fn has_before(low: GlobalTick, own: Note, other: Note) -> bool
    ensures { (0 < other.tick → 0 < other.global) → result ≡ has_before low.0 own.tick other.tick other.global }
{
    other.tick == 0
        || own_before(own.tick, other.tick)
        || low.clearly_earlier(GlobalTick(tick_of(other.global)))
}

// The same, where the second has a timestamp at that place.
fn is_reached(low: GlobalTick, own: Note, other: Note) -> bool
    ensures { (0 < other.tick → 0 < other.global) → result ≡ is_reached low.0 own.tick other.tick other.global }
{
    other.tick != 0 && has_before(low, own, other)
}

// Whether the first one's composite timestamp is before the second's, place by place of the second; with the lowest global tick of the first.
fn before(low: GlobalTick, a: &Packed, b: &Packed, notes: &[Note]) -> bool
    requires { Within notes.now a.now × Within notes.now b.now }
    ensures { (t : NotesOf notes.now) (x y : Occurrence)
        → LowestOf notes.now a.now low.0 → Stands t a.now x → Stands t b.now y
        → result ≡ all_before t.clocks (members x.latest) (members y.latest) }
{
    for k in 0..8 {
        if !has_before(low, notes[event_at(a[2], k)], notes[event_at(b[2], k)]) {
            return false;
        }
    }
    true
}

// Whether the first one's composite timestamp is weakly before the second's, place by place of the first; with the lowest global tick of the second.
fn weakly_by_place(a: &Packed, first: GlobalTick, b: &Packed, notes: &[Note]) -> bool
    requires { Within notes.now a.now × Within notes.now b.now }
    ensures { (t : NotesOf notes.now) (x y : Occurrence)
        → LowestOf notes.now b.now first.0 → Stands t a.now x → Stands t b.now y
        → result ≡ stamps_weakly_before t.clocks (members x.latest) (members y.latest) }
{
    for k in 0..8 {
        if is_reached(first, notes[event_at(b[2], k)], notes[event_at(a[2], k)]) {
            return false;
        }
    }
    true
}

// The word, by all places: the first that holds. Concurrent is weakly before both ways.
fn order_by_place(
    low: GlobalTick,
    a: &Packed,
    first: GlobalTick,
    b: &Packed,
    notes: &[Note],
) -> Order
    requires { Within notes.now a.now × Within notes.now b.now }
    ensures { (t : NotesOf notes.now) (x y : Occurrence)
        → LowestOf notes.now a.now low.0 → LowestOf notes.now b.now first.0
        → Stands t a.now x → Stands t b.now y
        → result ≡ occurrence_order t.clocks x y }
{
    if before(low, a, b, notes) {
        return Order::Before;
    }
    if before(first, b, a, notes) {
        return Order::After;
    }
    if weakly_by_place(a, first, b, notes) && weakly_by_place(b, low, a, notes) {
        Order::Concurrent
    } else {
        Order::Incomparable
    }
}

// The word for how the first one's composite timestamp stands to the second's; beside each its lowest global tick. Where these are clearly apart they decide.
pub fn order(low: GlobalTick, a: &Packed, first: GlobalTick, b: &Packed, notes: &[Note]) -> Order
    requires { Within notes.now a.now × Within notes.now b.now }
    ensures { (t : NotesOf notes.now) (x y : Occurrence)
        → LowestOf notes.now a.now low.0 → LowestOf notes.now b.now first.0
        → Stands t a.now x → Stands t b.now y
        → result ≡ occurrence_order t.clocks x y }
{
    if low.clearly_earlier(first) {
        return Order::Before;
    }
    if first.clearly_earlier(low) {
        return Order::After;
    }
    order_by_place(low, a, first, b, notes)
}

// Whether the first one's composite timestamp is weakly before the second's, likewise.
pub fn weakly_before(
    own: GlobalTick,
    a: &Packed,
    other: GlobalTick,
    b: &Packed,
    notes: &[Note],
) -> bool
    requires { Within notes.now a.now × Within notes.now b.now }
    ensures { (t : NotesOf notes.now) (x y : Occurrence)
        → LowestOf notes.now a.now own.0 → LowestOf notes.now b.now other.0
        → Stands t a.now x → Stands t b.now y
        → result ≡ is_weakly_before t.clocks x y }
{
    own.clearly_earlier(other)
        || (!other.clearly_earlier(own) && weakly_by_place(a, other, b, notes))
}
