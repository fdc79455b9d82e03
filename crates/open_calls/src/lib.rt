// The join of a lent list, one of the two calls that stand open to any caller; and what it shares with the other, the comparison.
#![tactic(auto)]

ghost use Rattle.std.specs.Prelude.{◌≡◌, true, List, [], ◌∷◌, ◌++◌, ◌<◌, ltb, OnOk};
ghost use Rattle.sequences.specs.Select.{each_passes};
ghost use Rattle.timestamps.specs.declared.Timestamp.{Timestamp};
ghost use Rattle.timestamps.specs.Order.{clocks_of, valid};
ghost use Rattle.open_calls.specs.Answers.{join_answer, number_of, refused_join, valid_length};
ghost use Rattle.open_calls.specs.Notes.{Joined, Raised, RoomFor, clear_note, global_note, left_by, local_note, no_notes, shown_from, shown_note};
ghost use Rattle.open_calls.specs.Steps.{call_judged, entries_judged, list_judged};

use timestamps::{GlobalTick, LocalTick, Timestamp};

// ---- answers

// Why a call is turned back; document 01's numbers 34 to 37 (specs/Answers.antt, number_of).
#[derive(Clone, Copy, PartialEq, Eq)]
pub enum Refusal {
    BadRatio = 34,
    BadLength = 35,
    BadEntry = 36,
    NotConcurrent = 37,
}

// A call that is turned back, and at which place.
#[derive(Clone, Copy, PartialEq, Eq)]
pub struct Refused {
    pub why: Refusal,
    pub place: u64,
}

// One timestamp for each logger place, blank where there is none.
#[repr(C)]
#[derive(Clone, Copy)]
pub struct JoinAnswer {
    pub number: u64,
    pub place: u64,
    pub timestamps: [Timestamp; 8],
}

impl Refusal {
    // Document 01's number.
    pub fn number(self) -> u64
        ensures { result ≡ number_of self }
    {
        self as u64
    }
}

pub fn is_length(n: usize) -> bool
    ensures { result ≡ valid_length n }
{
    1 <= n && n <= 128
}

// The ratio, then the length of the (first) list.
pub fn judge_call(ratio: u64, n: usize) -> Result<(), Refused>
    ensures { result ≡ call_judged ratio n }
{
    if !timestamps::valid_ratio(ratio) {
        Err(Refused {
            why: Refusal::BadRatio,
            place: 0,
        })
    } else if !is_length(n) {
        Err(Refused {
            why: Refusal::BadLength,
            place: 0,
        })
    } else {
        Ok(())
    }
}

fn refused_join(refused: Refused) -> JoinAnswer
    ensures { result ≡ refused_join refused.why refused.place }
{
    JoinAnswer {
        number: refused.why.number(),
        place: refused.place,
        timestamps: [Timestamp::blank(); 8],
    }
}

// ---- notes

// What is noted of the join of a list, at each logger place: the tick of the logger's timestamp and its global tick; and the highest global tick.
// Each is noted as the tick plus 1, and 0 where there is none (specs/Notes.antt): so two notes compare as their two ticks do, and one comparison tells
// whether a timestamp comes to stand. As Options they took twice as long at one entry, and a third longer at eight, which misses the aims of speed.
#[derive(Clone, Copy)]
struct JoinNotes {
    ticks: [u64; 8],
    globals: [u64; 8],
    highest: u64,
}

// The note of its local tick.
pub fn note_of(s: Timestamp) -> u64
    requires { valid s ≡ true }
    ensures { result ≡ local_note s }
{
    s.tick.0 + 1
}

// The note of its global tick: here alone the join divides.
fn global_note(s: Timestamp, ratio: u64) -> u64
    requires { valid s ≡ true }
    ensures { result ≡ global_note (clocks_of ratio) s }
{
    s.tick.global(ratio).0 + 1
}

// Of two notes of one logger's local ticks the first is the earlier.
fn is_earlier(note: u64, other: u64) -> bool
    ensures { result ≡ ltb note other }
{
    LocalTick(note).earlier(LocalTick(other))
}

// Of two notes of global ticks the first is clearly earlier.
fn is_clear(note: u64, other: u64) -> bool
    ensures { result ≡ clear_note note other }
{
    GlobalTick(note).clearly_earlier(GlobalTick(other))
}

// ---- adding a timestamp

impl JoinNotes {
    const NONE: JoinNotes = JoinNotes {
        ticks: [0; 8],
        globals: [0; 8],
        highest: 0,
    };

    // The timestamp at place k leaves if it is clearly earlier.
    fn leave(&mut self, k: usize, global: u64)
        requires { k < 8 }
        ensures { self.new ≡ left_by self.old k global }
    {
        if is_clear(self.globals[k], global) {
            self.ticks[k] = 0;
            self.globals[k] = 0;
        }
    }

    // A new highest global tick: all that are clearly earlier leave.
    fn raise_to(&mut self, global: u64)
        ensures { Raised self.old global self.new }
    {
        for k in 0..8 {
            self.leave(k, global);
        }
        self.highest = global;
    }

    // Where it is not the highest none is clearly earlier: the timestamps of a join are at most one global tick apart.
    fn make_room(&mut self, global: u64)
        ensures { RoomFor self.old global self.new }
    {
        if GlobalTick(self.highest).earlier(GlobalTick(global)) {
            self.raise_to(global);
        }
    }

    // The join with one timestamp more. One that is no later than its logger's is not divided. Where its logger has none, only the global tick tells
    // whether it comes to stand.
    fn add(&mut self, s: Timestamp, ratio: u64)
        requires { valid s ≡ true }
        ensures joined { (l : List Timestamp) → each_passes valid l ≡ true
            → Joined (clocks_of ratio) l self.old
            → Joined (clocks_of ratio) (l ++ (s ∷ [])) self.new }
    {
        let k = s.logger as usize;
        let note = note_of(s);
        if is_earlier(self.ticks[k], note) {
            let global = global_note(s, ratio);
            if !is_clear(global, self.highest) {
                self.make_room(global);
                self.ticks[k] = note;
                self.globals[k] = global;
            }
        }
    }

    // The timestamps of the join, as the answer shows them.
    fn show(&self) -> [Timestamp; 8]
        ensures { result ≡ shown_from self.now }
    {
        let mut shown = [Timestamp::blank(); 8];
        for k in 0..8 {
            shown[k] = show_note(self.ticks[k], k);
        }
        shown
    }
}

// The timestamp of a note.
fn show_note(note: u64, k: usize) -> Timestamp
    requires { k < 8 }
    ensures { result ≡ shown_note note k }
{
    if 0 < note {
        Timestamp {
            logger: k as u8,
            tick: LocalTick(note - 1),
        }
    } else {
        Timestamp::blank()
    }
}

// ---- the join

// The notes of the join of a list, one entry at a time, up to the first bad entry. They stay in one place and are lent to each step: after i entries
// they are those of the join of the first i.
fn join_entries(ratio: u64, list: &[Timestamp], join: &mut JoinNotes) -> Result<(), Refused>
    ensures judged { result ≡ entries_judged list.now }
    ensures joined { join.old ≡ no_notes → OnOk result (Joined (clocks_of ratio) list.now join.new) }
{
    for (i, s) in list.iter().enumerate() {
        if !s.valid() {
            return Err(Refused {
                why: Refusal::BadEntry,
                place: i as u64,
            });
        }
        join.add(*s, ratio);
    }
    Ok(())
}

// The ratio and the length, without a look at the list, then its entries.
fn join_list(ratio: u64, list: &[Timestamp], join: &mut JoinNotes) -> Result<(), Refused>
    ensures judged { result ≡ list_judged ratio list.now }
    ensures joined { join.old ≡ no_notes → OnOk result (Joined (clocks_of ratio) list.now join.new) }
{
    judge_call(ratio, list.len())?;
    join_entries(ratio, list, join)
}

// The join of a lent list.
pub fn join(ratio: u64, list: &[Timestamp]) -> JoinAnswer
    ensures { result ≡ join_answer ratio list.now }
{
    let mut join = JoinNotes::NONE;
    match join_list(ratio, list, &mut join) {
        Ok(()) => JoinAnswer {
            number: 0,
            place: 0,
            timestamps: join.show(),
        },
        Err(refused) => refused_join(refused),
    }
}
