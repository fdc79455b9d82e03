// What each context takes, makes and removes: document 01's table of four rows, the candidates, the choice, and what is made of those taken.
#![tactic(auto)]

ghost use Rattle.std.specs.Prelude.{◌≡◌, ◌<◌, ◌≤◌, true, false, not, ◌&&◌, List, length, take, replicate, ◌==◌, slice_index_or, slice_set};
ghost use Rattle.sequences.specs.Loops.{fold};
ghost use Rattle.sequences.specs.Marks.{first_mark, marked};
ghost use Rattle.sequences.specs.Select.{some_passes};
ghost use Rattle.occurrences.specs.declared.Occurrence.{Occurrence};
ghost use Rattle.occurrences.specs.Combination.{combined_of};
ghost use Rattle.occurrences.specs.Occurrences.{is_before, no_occurrence};
ghost use Rattle.occurrences.specs.Packed.{NotesOf, Stands, Within};
ghost use Rattle.occurrences.specs.Steps.{LowestOf};
ghost use Rattle.waiting_lists.specs.Lists.{Arrives, Beside, Known, KnownBoth, Waits, list_of};
ghost use Rattle.waiting_lists.specs.Marks.{marks_of};
ghost use Rattle.contexts.specs.Choice.{absence_candidates, and_candidates, blocks, chosen, removed_of, seq_candidates, taken_of, takes};
ghost use Rattle.contexts.specs.Made.{accumulation_of};
ghost use Rattle.contexts.specs.Steps.{Lows, Some, after_marks, bars_by, bars_of};
ghost use Rattle.contexts.specs.Table.{consumed, each, joins, recent, row_of, table, together};

use occurrences::Packed;
use timestamps::{GlobalTick, Note, Order};

// ---- the table

// Which of the candidates are taken: those before no other candidate; those with no other candidate before them; all.
#[derive(Clone, Copy, PartialEq, Eq)]
pub enum Taken {
    Latest,
    Earliest,
    Every,
}

// What is found: one for each taken; one for all together.
#[derive(Clone, Copy, PartialEq, Eq)]
pub enum Found {
    Each,
    Together,
}

// Which are removed: candidates not taken; those taken; all.
#[derive(Clone, Copy, PartialEq, Eq)]
pub enum Removed {
    Untaken,
    Taken,
    All,
}

// What becomes of an arrival at AND that met candidates: it joins its own side's list; it is consumed.
#[derive(Clone, Copy, PartialEq, Eq)]
pub enum Afterwards {
    Joins,
    Consumed,
}

// A context is a row of document 01's table.
#[derive(Clone, Copy)]
pub struct Context {
    pub takes: Taken,
    pub finds: Found,
    pub removes: Removed,
    pub afterwards: Afterwards,
}

// The table, in document 01's order: contexts 1 to 4.
const ROWS: [Context; 4] = [
    // recent
    Context {
        takes: Taken::Latest,
        finds: Found::Each,
        removes: Removed::Untaken,
        afterwards: Afterwards::Joins,
    },
    // chronicle
    Context {
        takes: Taken::Earliest,
        finds: Found::Each,
        removes: Removed::Taken,
        afterwards: Afterwards::Consumed,
    },
    // continuous
    Context {
        takes: Taken::Every,
        finds: Found::Each,
        removes: Removed::All,
        afterwards: Afterwards::Consumed,
    },
    // cumulative
    Context {
        takes: Taken::Every,
        finds: Found::Together,
        removes: Removed::All,
        afterwards: Afterwards::Consumed,
    },
];

// The place of a context's row; any other number is read as recent.
fn place_of(context: u64) -> usize
    ensures { (result < 4) × (slice_index_or table result recent ≡ row_of context) }
{
    if 0 < context && context <= 4 {
        context as usize - 1
    } else {
        0
    }
}

// The row of a context.
pub fn row_of(context: u64) -> Context
    ensures { result ≡ row_of context }
{
    ROWS[place_of(context)]
}

// ---- candidates

// SEQ: those whose timestamp is before the arrival's.
pub fn before_arrival(list: &[Packed], o: &Packed, notes: &[Note]) -> u64
    requires { Arrives notes.now list.now o.now }
    ensures { (t : NotesOf notes.now) (l : List Occurrence) (x : Occurrence)
        → Waits t list.now l → Stands t o.now x
        → marks_of result ≡ seq_candidates t.clocks l x }
{
    let first = occurrences::lowest(o, notes);
    let waiting = waiting_lists::list_of(list);
    let mut marks: u64 = 0;
    for i in 0..waiting.len {
        let place = waiting_lists::place_at(waiting, i);
        let low = occurrences::lowest(&list[place], notes);
        let word = occurrences::order(low, &list[place], first, o, notes);
        marks = waiting_lists::with_mark(marks, i, word == Order::Before);
    }
    marks
}

// AND: all that wait on the other side.
pub fn all_waiting(n: usize) -> u64
    requires { n ≤ 16 }
    ensures { (l : List Occurrence) → length l ≡ n → marks_of result ≡ and_candidates l }
{
    (1 << n) - 1
}

// ---- candidates of absence

// Whether a middle blocks a left; with the lowest global ticks of the left and of the third arrival.
fn is_blocked_by(
    low: GlobalTick,
    left: &Packed,
    middle: &Packed,
    first: GlobalTick,
    o: &Packed,
    notes: &[Note],
) -> bool
    requires { Within notes.now left.now × Within notes.now middle.now
        × Within notes.now o.now }
    ensures { (t : NotesOf notes.now) (x y z : Occurrence)
        → LowestOf notes.now left.now low.0 → LowestOf notes.now o.now first.0
        → Stands t left.now x → Stands t middle.now y → Stands t o.now z
        → result ≡ blocks t.clocks x z y }
{
    let own = occurrences::lowest(middle, notes);
    occurrences::weakly_before(low, left, own, middle, notes)
        && occurrences::weakly_before(own, middle, first, o, notes)
}

// Whether one of the first so many waiting middles blocks it; with the lowest global ticks as above.
fn is_blocked(
    low: GlobalTick,
    left: &Packed,
    middles: &[Packed],
    blockers: usize,
    first: GlobalTick,
    o: &Packed,
    notes: &[Note],
) -> bool
    requires { Within notes.now left.now × Arrives notes.now middles.now o.now
        × (blockers ≤ (list_of middles.now).len) }
    ensures { (t : NotesOf notes.now) (l : List Occurrence) (x z : Occurrence)
        → LowestOf notes.now left.now low.0 → LowestOf notes.now o.now first.0
        → Waits t middles.now l → Stands t left.now x → Stands t o.now z
        → result ≡ some_passes (blocks t.clocks x z) (take blockers l) }
{
    let waiting = waiting_lists::list_of(middles);
    for j in 0..blockers {
        let place = waiting_lists::place_at(waiting, j);
        if is_blocked_by(low, left, &middles[place], first, o, notes) {
            return true;
        }
    }
    false
}

// Whether a left is before the third arrival, and none of them blocks it.
fn is_free(
    left: &Packed,
    middles: &[Packed],
    blockers: usize,
    first: GlobalTick,
    o: &Packed,
    notes: &[Note],
) -> bool
    requires { Within notes.now left.now × Arrives notes.now middles.now o.now
        × (blockers ≤ (list_of middles.now).len) }
    ensures { (t : NotesOf notes.now) (l : List Occurrence) (x z : Occurrence)
        → LowestOf notes.now o.now first.0
        → Waits t middles.now l → Stands t left.now x → Stands t o.now z
        → result ≡ (is_before t.clocks x z && not (some_passes (blocks t.clocks x z) (take blockers l))) }
{
    let low = occurrences::lowest(left, notes);
    let word = occurrences::order(low, left, first, o, notes);
    word == Order::Before && !is_blocked(low, left, middles, blockers, first, o, notes)
}

// The lefts before the arrival that none of the first so many middles blocks: with none, all that are before it.
pub fn unblocked(
    lefts: &[Packed],
    middles: &[Packed],
    blockers: usize,
    o: &Packed,
    notes: &[Note],
) -> u64
    requires { Beside notes.now lefts.now middles.now o.now × (blockers ≤ (list_of middles.now).len) }
    ensures { (t : NotesOf notes.now) (k l : List Occurrence) (x : Occurrence)
        → Waits t lefts.now k → Waits t middles.now l → Stands t o.now x
        → marks_of result ≡ absence_candidates t.clocks k (take blockers l) x }
{
    let first = occurrences::lowest(o, notes);
    let waiting = waiting_lists::list_of(lefts);
    let mut marks: u64 = 0;
    for i in 0..waiting.len {
        let place = waiting_lists::place_at(waiting, i);
        let free = is_free(&lefts[place], middles, blockers, first, o, notes);
        marks = waiting_lists::with_mark(marks, i, free);
    }
    marks
}

// ---- the choice

// Which places of the list are taken, and which are removed.
#[derive(Clone, Copy)]
pub struct Choice {
    pub taken: u64,
    pub removed: u64,
}

// The lowest global ticks of those that wait, in waiting order.
type LowestTicks = [GlobalTick; 16];

// They are filled in: an array handed back by value would be copied.
fn lows_of(list: &[Packed], notes: &[Note], lows: &mut LowestTicks)
    requires { Known notes.now list.now }
    ensures { Lows notes.now list.now (list_of list.now).len lows.new }
{
    let waiting = waiting_lists::list_of(list);
    for i in 0..waiting.len {
        let place = waiting_lists::place_at(waiting, i);
        lows[i] = occurrences::lowest(&list[place], notes);
    }
}

// Whether the word for how one candidate stands to another keeps it from being taken: before where the latest are taken, after where the earliest are.
fn word_bars(rule: Taken, word: Order) -> bool
    ensures { result ≡ bars_by rule word }
{
    match rule {
        Taken::Latest => word == Order::Before,
        Taken::Earliest => word == Order::After,
        Taken::Every => false,
    }
}

// Whether c keeps w from being taken; beside each its lowest global tick.
fn bars(
    rule: Taken,
    low: GlobalTick,
    w: &Packed,
    other: GlobalTick,
    c: &Packed,
    notes: &[Note],
) -> bool
    requires { Within notes.now w.now × Within notes.now c.now }
    ensures { (t : NotesOf notes.now) (x y : Occurrence)
        → LowestOf notes.now w.now low.0 → LowestOf notes.now c.now other.0
        → Stands t w.now x → Stands t c.now y
        → result ≡ bars_of rule t.clocks x y }
{
    let word = occurrences::order(low, w, other, c, notes);
    word_bars(rule, word)
}

// Whether there is a candidate at place j, and another one than that at place i.
fn is_other(candidates: u64, i: usize, j: usize) -> bool
    requires { j < 16 }
    ensures { result ≡ (not (i == j) && slice_index_or (marks_of candidates) j false) }
{
    i != j && waiting_lists::is_marked(candidates, j)
}

// Whether some other candidate keeps the one at place i from being taken.
fn barred(
    rule: Taken,
    i: usize,
    list: &[Packed],
    lows: &LowestTicks,
    candidates: u64,
    notes: &[Note],
) -> bool
    requires { (i < (list_of list.now).len) × Known notes.now list.now }
    ensures { (t : NotesOf notes.now) (l : List Occurrence)
        → Waits t list.now l → Lows notes.now list.now (length l) lows.now
        → result ≡ some_passes (bars_of rule t.clocks (slice_index_or l i no_occurrence)) (marked l (marks_of candidates)) }
{
    let waiting = waiting_lists::list_of(list);
    let own = waiting_lists::place_at(waiting, i);
    for j in 0..waiting.len {
        let place = waiting_lists::place_at(waiting, j);
        if is_other(candidates, i, j)
            && bars(rule, lows[i], &list[own], lows[j], &list[place], notes)
        {
            return true;
        }
    }
    false
}

// Whether the one at place i is a candidate and taken.
fn is_taken(
    rule: Taken,
    i: usize,
    list: &[Packed],
    lows: &LowestTicks,
    candidates: u64,
    notes: &[Note],
) -> bool
    requires { (i < (list_of list.now).len) × Known notes.now list.now }
    ensures { (t : NotesOf notes.now) (l : List Occurrence)
        → Waits t list.now l → Lows notes.now list.now (length l) lows.now
        → result ≡ (slice_index_or (marks_of candidates) i false && takes rule t.clocks (marked l (marks_of candidates)) (slice_index_or l i no_occurrence)) }
{
    waiting_lists::is_marked(candidates, i) && !barred(rule, i, list, lows, candidates, notes)
}

// Whether no more than one is marked.
fn at_most_one(marks: u64) -> bool
    ensures { result ≡ true → slice_set (marks_of marks) (first_mark (marks_of marks)) false ≡ replicate 16 false }
{
    // None, or none without the lowest.
    marks == 0 || marks & (marks - 1) == 0
}

// Those that a rule takes of the candidates. An only one is taken by each rule, without a look at it.
fn taken_by(rule: Taken, list: &[Packed], candidates: u64, notes: &[Note]) -> u64
    requires { Known notes.now list.now }
    ensures { (t : NotesOf notes.now) (l : List Occurrence) → Waits t list.now l
        → marks_of result ≡ taken_of rule t.clocks l (marks_of candidates) }
{
    let waiting = waiting_lists::list_of(list);
    if rule == Taken::Every || at_most_one(candidates) {
        return candidates & all_waiting(waiting.len);
    }
    let mut lows = [GlobalTick(0); 16];
    lows_of(list, notes, &mut lows);
    let mut marks: u64 = 0;
    for i in 0..waiting.len {
        let taken = is_taken(rule, i, list, &lows, candidates, notes);
        marks = waiting_lists::with_mark(marks, i, taken);
    }
    marks
}

// Those that a rule removes.
fn removed_by(rule: Removed, candidates: u64, taken: u64) -> u64
    ensures { marks_of result ≡ removed_of rule (marks_of candidates) (marks_of taken) }
{
    match rule {
        Removed::Untaken => candidates ^ (candidates & taken),
        Removed::Taken => taken,
        Removed::All => candidates,
    }
}

// What a context takes and removes of the candidates of a waiting list.
pub fn choose(context: u64, list: &[Packed], candidates: u64, notes: &[Note]) -> Choice
    requires { Known notes.now list.now }
    ensures { (t : NotesOf notes.now) (l : List Occurrence) → Waits t list.now l
        → (marks_of result.taken ≡ (chosen (row_of context) t.clocks l (marks_of candidates)).taken)
        × (marks_of result.removed ≡ (chosen (row_of context) t.clocks l (marks_of candidates)).removed) }
{
    let row = row_of(context);
    let taken = taken_by(row.takes, list, candidates, notes);
    let removed = removed_by(row.removes, candidates, taken);
    Choice { taken, removed }
}

// ---- what is made of it

// Whether a context makes one for each taken, or one for all together.
pub fn makes_each(context: u64) -> bool
    ensures { (result ≡ true → (row_of context).finds ≡ each) × (result ≡ false → (row_of context).finds ≡ together) }
{
    row_of(context).finds == Found::Each
}

// Whether an arrival at AND that met candidates joins its own side's list, or is consumed.
pub fn joins_afterwards(context: u64) -> bool
    ensures { (result ≡ true → (row_of context).afterwards ≡ joins) × (result ≡ false → (row_of context).afterwards ≡ consumed) }
{
    row_of(context).afterwards == Afterwards::Joins
}

// The arrival combined with all taken, in waiting order.
pub fn all_combined(list: &[Packed], taken: u64, o: &Packed, notes: &[Note]) -> Packed
    requires { Arrives notes.now list.now o.now }
    ensures { (t : NotesOf notes.now) (l : List Occurrence) (x : Occurrence)
        → Waits t list.now l → Stands t o.now x
        → Stands t result (fold (combined_of t.clocks) (marked l (marks_of taken)) x) }
{
    let waiting = waiting_lists::list_of(list);
    let mut all = *o;
    for i in 0..waiting.len {
        if waiting_lists::is_marked(taken, i) {
            let place = waiting_lists::place_at(waiting, i);
            all = occurrences::combined(&all, &list[place], notes);
        }
    }
    all
}

// ---- what is accumulated

// Whether one of those marked is before this middle.
fn some_before(list: &[Packed], marks: u64, middle: &Packed, notes: &[Note]) -> bool
    requires { Arrives notes.now list.now middle.now }
    ensures { (t : NotesOf notes.now) (l : List Occurrence) (x : Occurrence)
        → Waits t list.now l → Stands t middle.now x
        → result ≡ some_passes (λ w. is_before t.clocks w x) (marked l (marks_of marks)) }
{
    let first = occurrences::lowest(middle, notes);
    let waiting = waiting_lists::list_of(list);
    let mut rest = marks;
    // A loop over the marks, and not over all that wait: few are marked. A mark past those that wait tells of none.
    while let Some(i) = waiting_lists::first_marked(rest)
        && i < waiting.len
    {
        let place = waiting_lists::place_at(waiting, i);
        let low = occurrences::lowest(&list[place], notes);
        let word = occurrences::order(low, &list[place], first, middle, notes);
        if word == Order::Before {
            return true;
        }
        // Without its lowest mark.
        rest &= rest - 1;
    }
    false
}

// Of the middles before the arrival, those after one of the lefts marked.
fn between(lefts: &[Packed], marks: u64, middles: &[Packed], earlier: u64, notes: &[Note]) -> u64
    requires { KnownBoth notes.now lefts.now middles.now }
    ensures { (t : NotesOf notes.now) (k l : List Occurrence)
        → Waits t lefts.now k → Waits t middles.now l
        → marks_of result ≡ after_marks t.clocks (marked k (marks_of marks)) l (marks_of earlier) }
{
    let waiting = waiting_lists::list_of(middles);
    let mut found: u64 = 0;
    for i in 0..waiting.len {
        let place = waiting_lists::place_at(waiting, i);
        let mark = waiting_lists::is_marked(earlier, i)
            && some_before(lefts, marks, &middles[place], notes);
        found = waiting_lists::with_mark(found, i, mark);
    }
    found
}

// The finding of the lefts marked: these, the arrival, and the middles between; beside them the marks of the middles before the arrival.
pub fn accumulated(
    lefts: &[Packed],
    marks: u64,
    middles: &[Packed],
    earlier: u64,
    o: &Packed,
    notes: &[Note],
) -> Packed
    requires { Beside notes.now lefts.now middles.now o.now }
    ensures stands { (t : NotesOf notes.now) (k l : List Occurrence) (x : Occurrence)
        → Waits t lefts.now k → Waits t middles.now l → Stands t o.now x
        → marks_of earlier ≡ seq_candidates t.clocks l x → Some (marked k (marks_of marks))
        → Stands t result (accumulation_of t.clocks (marked k (marks_of marks)) l x) }
    ensures within { Within notes.now result }
{
    let found = between(lefts, marks, middles, earlier, notes);
    let all = all_combined(lefts, marks, o, notes);
    all_combined(middles, found, &all, notes)
}
