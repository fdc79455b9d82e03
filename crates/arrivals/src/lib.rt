// One arrival at a node, part by part: the candidates among those that wait, those taken and removed, the findings, and whether the arrival waits itself.
// Waiting lists and what the node makes are lent; what is returned is the limit that ends the work, if one is met.
#![tactic(auto)]

ghost use Rattle.std.specs.Prelude.{List, ◌∷◌, None, map, ◌≡◌, ℕ, ◌<◌, length};
ghost use Rattle.std.specs.Result.{result_err};
ghost use Rattle.sequences.specs.Marks.{first_mark, marked};
ghost use Rattle.detections.specs.Writing.{Beyond};
ghost use Rattle.occurrences.specs.declared.Occurrence.{Occurrence};
ghost use Rattle.occurrences.specs.Combination.{combined_of};
ghost use Rattle.occurrences.specs.Packed.{Notes, NotesOf, Stands};
ghost use Rattle.waiting_lists.specs.Lists.{Beside, Known, Waits, list_of};
ghost use Rattle.waiting_lists.specs.Marks.{marks_of};
ghost use Rattle.waiting_lists.specs.Waiting.{appended_to};
ghost use Rattle.contexts.specs.Choice.{chosen, seq_candidates};
ghost use Rattle.contexts.specs.Made.{accumulated_of, groups_of, made_of};
ghost use Rattle.contexts.specs.Steps.{Some};
ghost use Rattle.contexts.specs.Table.{row_of, together};
ghost use Rattle.emissions.specs.Emissions.{Emits, Emitting, InOutput, emitted_all};
ghost use Rattle.arrivals.specs.Meetings.{action_from, full_limit, may_wait, waits_by};
ghost use Rattle.arrivals.specs.Views.{Looks, Meets, MeetsBoth, Spare, looked_for};

use contexts::Choice;
use emissions::{Limit, Made, Setting};
use occurrences::Packed;
use timestamps::Note;

// ---- what an arrival by an input does, by codes

// It is passed on as a finding.
pub const PASS: u16 = 0;
// It waits on its own side.
pub const WAIT: u16 = 1;
// It meets those of the other side that are before it.
pub const MEET: u16 = 2;
// It meets all of the other side, and then waits on its own as the context says.
pub const MEET_AND_WAIT: u16 = 3;
// Of a third arrival: it deletes the lefts before it; it accumulates; it finds an absence.
pub const DELETE: u16 = 4;

pub const ACCUMULATE: u16 = 5;

pub const ABSENT: u16 = 6;
// Nothing comes by this input; any greater number is read as this.
pub const NOTHING: u16 = 7;

// ---- what is made

// One finding for each taken, in waiting order; a mark past those that wait takes none.
fn emit_each(
    made: &mut Made,
    list: &[Packed],
    taken: u64,
    o: &Packed,
    place: u64,
    setting: &Setting,
    out: &mut [u8],
) -> Result<(), Limit>
    requires { Meets setting.now.notes.now list.now made.old out.old o.now × InOutput made.old out.old }
    ensures emits { (t : NotesOf setting.now.notes.now) (l : List Occurrence) (s : Emitting) (x : Occurrence)
        → Waits t list.now l → Emits t None made.old out.old s → Stands t o.now x
        → Emits t (result_err result) made.new out.new
        (emitted_all (length out.old) setting.now.loggers.now place s (map (λ w. combined_of t.clocks w x) (marked l (marks_of taken)))) }
    ensures beyond { Beyond out.old out.new made.old.bytes made.new.findings made.new.bytes }
{
    let waiting = waiting_lists::list_of(list);
    let mut rest = taken;
    while let Some(i) = waiting_lists::first_marked(rest)
        && i < waiting.len
    {
        let at = waiting_lists::place_at(waiting, i);
        let c = occurrences::combined(&list[at], o, setting.notes);
        emissions::emit_one(made, place, &c, setting, out)?;
        // Without its lowest mark.
        rest &= rest - 1;
    }
    Ok(())
}

// One finding for all taken together, if any is.
fn emit_together(
    made: &mut Made,
    list: &[Packed],
    taken: u64,
    o: &Packed,
    place: u64,
    setting: &Setting,
    out: &mut [u8],
) -> Result<(), Limit>
    requires { Meets setting.now.notes.now list.now made.old out.old o.now × InOutput made.old out.old }
    ensures emits { (t : NotesOf setting.now.notes.now) (l : List Occurrence) (s : Emitting) (x : Occurrence)
        → Waits t list.now l → Emits t None made.old out.old s → Stands t o.now x
        → Emits t (result_err result) made.new out.new
        (emitted_all (length out.old) setting.now.loggers.now place s (made_of together t.clocks (marked l (marks_of taken)) x)) }
    ensures beyond { Beyond out.old out.new made.old.bytes made.new.findings made.new.bytes }
{
    let waiting = waiting_lists::list_of(list);
    if let Some(first) = waiting_lists::first_marked(taken)
        && first < waiting.len
    {
        let all = contexts::all_combined(list, taken, o, setting.notes);
        return emissions::emit_one(made, place, &all, setting, out);
    }
    Ok(())
}

// What an arrival makes of those taken, by the context.
pub fn emit_made(
    made: &mut Made,
    list: &[Packed],
    taken: u64,
    o: &Packed,
    context: u64,
    place: u64,
    setting: &Setting,
    out: &mut [u8],
) -> Result<(), Limit>
    requires { Meets setting.now.notes.now list.now made.old out.old o.now × InOutput made.old out.old }
    ensures emits { (t : NotesOf setting.now.notes.now) (l : List Occurrence) (s : Emitting) (x : Occurrence)
        → Waits t list.now l → Emits t None made.old out.old s → Stands t o.now x
        → Emits t (result_err result) made.new out.new
        (emitted_all (length out.old) setting.now.loggers.now place s (made_of (row_of context).finds t.clocks (marked l (marks_of taken)) x)) }
    ensures beyond { Beyond out.old out.new made.old.bytes made.new.findings made.new.bytes }
{
    if contexts::makes_each(context) {
        emit_each(made, list, taken, o, place, setting, out)
    } else {
        emit_together(made, list, taken, o, place, setting, out)
    }
}

// The lefts of the next finding, as marks, and those that are left after it.
#[derive(Clone, Copy)]
struct Group {
    lefts: u64,
    rest: u64,
}

// The first of the rest, which is given, or all, by the context.
fn next_group(context: u64, first: usize, rest: u64) -> Group
    requires { (first ≡ first_mark (marks_of rest)) × (first < 16) }
    ensures { ((l : List Occurrence) → first_mark (marks_of rest) < length l
        → (groups_of (row_of context).finds (marked l (marks_of rest))
        ≡ marked l (marks_of result.lefts) ∷ groups_of (row_of context).finds (marked l (marks_of result.rest)))
        × Some (marked l (marks_of result.lefts))) × (result.rest < rest) }
{
    let each = contexts::makes_each(context);
    if each {
        // Without its lowest mark.
        let others = rest & (rest - 1);
        Group {
            lefts: waiting_lists::with_mark(0, first, true),
            rest: others,
        }
    } else {
        Group {
            lefts: rest,
            rest: 0,
        }
    }
}

// What a third arrival accumulates of the lefts taken, by the context, with the middles between; beside it, the marks of the middles before it.
pub fn emit_accumulated(
    made: &mut Made,
    taken: u64,
    context: u64,
    lefts: &[Packed],
    earlier: u64,
    middles: &[Packed],
    o: &Packed,
    place: u64,
    setting: &Setting,
    out: &mut [u8],
) -> Result<(), Limit>
    requires { MeetsBoth setting.now.notes.now middles.now lefts.now made.old out.old o.now × InOutput made.old out.old }
    ensures emits { (t : NotesOf setting.now.notes.now) (k l : List Occurrence) (s : Emitting) (x : Occurrence)
        → Waits t middles.now k → Waits t lefts.now l
        → Emits t None made.old out.old s → Stands t o.now x
        → marks_of earlier ≡ seq_candidates t.clocks k x
        → Emits t (result_err result) made.new out.new
        (emitted_all (length out.old) setting.now.loggers.now place s
        (accumulated_of (row_of context).finds t.clocks (marked l (marks_of taken)) k x)) }
    ensures beyond { Beyond out.old out.new made.old.bytes made.new.findings made.new.bytes }
{
    let waiting = waiting_lists::list_of(lefts);
    let mut rest = taken;
    while let Some(i) = waiting_lists::first_marked(rest)
        && i < waiting.len
    {
        let group = next_group(context, i, rest);
        let all = contexts::accumulated(lefts, group.lefts, middles, earlier, o, setting.notes);
        emissions::emit_one(made, place, &all, setting, out)?;
        rest = group.rest;
    }
    Ok(())
}

// ---- the meeting

// How many of the middles, its own side, can block a left: at absence all that wait, else none.
fn blockers_of(action: u16, own: &[Packed]) -> usize
    requires { 0 < length own.now }
    ensures { (action ≡ 6 → result ≡ (list_of own.now).len) × ((action ≡ 6 → ⊥) → result ≡ 0) }
{
    if action == ABSENT {
        let waiting = waiting_lists::list_of(own);
        waiting.len
    } else {
        0
    }
}

// The candidates among those of the other side, as marks; where the arrival deletes, those that it deletes.
pub fn candidates_of(
    action: u16,
    own: &[Packed],
    other: &[Packed],
    o: &Packed,
    notes: &[Note],
) -> u64
    requires { Beside notes.now own.now other.now o.now }
    ensures { (t : NotesOf notes.now) (k l : List Occurrence) (x : Occurrence)
        → Waits t own.now k → Waits t other.now l → Stands t o.now x → Looks action
        → marks_of result ≡ looked_for (action_from action) t.clocks k l x }
{
    if action == MEET_AND_WAIT {
        let waiting = waiting_lists::list_of(other);
        return contexts::all_waiting(waiting.len);
    }
    let blockers = blockers_of(action, own);
    contexts::unblocked(other, own, blockers, o, notes)
}

// What a context chooses of the candidates; nothing where there are none.
pub fn choice_of(context: u64, list: &[Packed], candidates: u64, notes: &[Note]) -> Choice
    requires { Known notes.now list.now }
    ensures { (t : NotesOf notes.now) (l : List Occurrence) → Waits t list.now l
        → (marks_of result.taken ≡ (chosen (row_of context) t.clocks l (marks_of candidates)).taken)
        × (marks_of result.removed ≡ (chosen (row_of context) t.clocks l (marks_of candidates)).removed) }
{
    if waiting_lists::first_marked(candidates).is_none() {
        return Choice {
            taken: 0,
            removed: 0,
        };
    }
    contexts::choose(context, list, candidates, notes)
}

// ---- waiting

// Whether an arrival that does this may come to wait.
pub fn may_wait(action: u16) -> bool
    ensures { result ≡ may_wait (action_from action) }
{
    if action == WAIT {
        return true;
    }
    action == MEET_AND_WAIT
}

// Whether it then waits, where these were the candidates.
pub fn waits(action: u16, context: u64, candidates: u64) -> bool
    ensures { result ≡ waits_by (action_from action) (row_of context).afterwards (marks_of candidates) }
{
    if action == WAIT {
        return true;
    }
    if action == MEET_AND_WAIT {
        if waiting_lists::first_marked(candidates).is_none() {
            return true;
        }
        return contexts::joins_afterwards(context);
    }
    false
}

// An arrival is appended: 31 where the list already holds 16.
pub fn wait(list: &mut [Packed], o: &Packed) -> Result<(), Limit>
    requires { (0 < length list.old) × Spare list.old 1 }
    ensures { (ticks globals : List ℕ) (t : Notes ticks globals) (l : List Occurrence) (x : Occurrence)
        → Waits t list.old l → Stands t o.now x
        → Waits t list.new (appended_to l x) × (result_err result ≡ full_limit l) }
{
    let waiting = waiting_lists::list_of(list);
    if 16 <= waiting.len {
        return Err(Limit::ListFull);
    }
    waiting_lists::append_to(list, o);
    Ok(())
}
