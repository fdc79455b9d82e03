// A set of event numbers below 128, held as the bits of two words. Document 01: "the event list of
// an occurrence is a set of up to 128 event numbers". Every function takes any set and any number.
#![tactic(auto)]

ghost use Rattle.std.specs.Prelude.{◌≡◌};
ghost use Rattle.event_sets.specs.Sets.{no_events, has, marked_with, union_of, size_of, next_bit, next_from};

#[derive(Clone, Copy, PartialEq, Eq)]
pub struct EventSet {
    pub low: u64,
    pub high: u64,
}

impl EventSet {
    // The set without events.
    pub fn none() -> EventSet
        ensures { result ≡ no_events }
    {
        EventSet { low: 0, high: 0 }
    }
}

// `marked`, `union`, `holds` and `count` are functions and no methods: as methods they say no more, and other crates name them so.

// The set with this number too. There is no number from 128 on to mark.
pub fn marked(set: EventSet, number: usize) -> EventSet
    ensures { result ≡ marked_with set number }
{
    if number < 64 {
        EventSet {
            low: set.low | 1 << number,
            high: set.high,
        }
    } else if number < 128 {
        let place = number - 64;
        EventSet {
            low: set.low,
            high: set.high | 1 << place,
        }
    } else {
        set
    }
}

// What either set holds.
pub fn union(a: EventSet, b: EventSet) -> EventSet
    ensures { result ≡ union_of a b }
{
    EventSet {
        low: a.low | b.low,
        high: a.high | b.high,
    }
}

// Whether the set has this number.
pub fn holds(set: EventSet, number: usize) -> bool
    ensures { result ≡ has set number }
{
    if number < 64 {
        (set.low >> number) % 2 == 1
    } else if number < 128 {
        let place = number - 64;
        (set.high >> place) % 2 == 1
    } else {
        false
    }
}

// How many numbers the set has.
pub fn count(set: EventSet) -> usize
    ensures { result ≡ size_of set }
{
    (set.low.count_ones() + set.high.count_ones()) as usize
}

// The first place of a set bit of the word, from `place` on.
fn next_bit(word: u64, place: usize) -> Option<usize>
    ensures { result ≡ next_bit word place }
{
    if place >= 64 {
        return None;
    }
    let rest = word >> place;
    if rest == 0 {
        None
    } else {
        Some(place + rest.trailing_zeros() as usize)
    }
}

// The smallest number of the set that is at least `number`.
pub fn next_from(set: EventSet, number: usize) -> Option<usize>
    ensures { result ≡ next_from set number }
{
    if let Some(place) = next_bit(set.low, number) {
        return Some(place);
    }
    let place = next_bit(set.high, number.saturating_sub(64))?;
    Some(64 + place)
}
