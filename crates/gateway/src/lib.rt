// File working: a passage under a plan, both from their bytes, into a lent output.
#![tactic(auto)]

ghost use Rattle.std.specs.Prelude.{false, true, List, ◌⊎◌, ◌≡◌, ℕ, min, ◌-◌, ◌/◌, ◌≤◌, ◌<◌, get_or, length, replicate};
ghost use Rattle.plans.specs.Views.{Slotted};
ghost use Rattle.passages.specs.Views.{Room};
ghost use Rattle.progress.specs.Progress.{Progress};
ghost use Rattle.progress.specs.Seats.{Enough};
ghost use Rattle.detector.specs.Steps.{Noticed, Runs, Says, SomeReady};
ghost use Rattle.working.specs.Latest.{LatestWritten};
ghost use Rattle.working.specs.Working.{Answers, FilesWorked, end_of, turned_back};
ghost use Rattle.gateway.specs.Steps.{PlanHeld, RunsUnder, WorkedUnder};

use detections::LoggerNumbers;
use passages::Places;
use plans::{Kinds, Loggers, NodeRow, Nodes};
use slots::{KindPlaces, Seats, SlotTakers};
use timestamps::Note;
use working::Answer;

// A file is turned back: no finding, no byte.
fn turned_back(number: u64, place: usize) -> Answer
    ensures { (out : List ℕ) → Answers (turned_back number place) out result out }
{
    Answer {
        number,
        place: place as u64,
        findings: 0,
        bytes: 0,
    }
}

// The answer on a run.
fn ended(run: detector::Run) -> Answer
    ensures { (p : Progress) (out out' : List ℕ) → Says p out run out' → Answers (end_of p) out result out' }
{
    let bytes = run.bytes as u64;
    match run.limit {
        Some(limit) => Answer {
            number: limit.number(),
            place: run.event as u64,
            findings: run.findings,
            bytes,
        },
        None => Answer {
            number: 0,
            place: 0,
            findings: run.findings,
            bytes,
        },
    }
}

// For each kind how many places a list that takes it is given, into an array that is lent with zeros in it: the events are counted where they are few.
fn places_for(kinds: &Places, count: usize, places: &mut KindPlaces)
    requires { (count ≤ 128) × ((i : ℕ) → i < count → get_or kinds.now i 0 < 33) × (places.old ≡ replicate 34 0) }
    ensures { Enough count kinds.now places.new }
{
    if 64 <= count {
        *places = [16u8; 34];
        return;
    }
    slots::count_kinds(kinds, count, places);
}

// What a run goes by: the loggers' numbers, the seats of the nodes, and the passage's events.
#[derive(Clone, Copy)]
struct Given<'a> {
    numbers: &'a LoggerNumbers,
    seats: &'a Seats,
    takers: &'a SlotTakers,
    count: usize,
    kinds: &'a Places,
    loggers: &'a Places,
    notes: &'a [Note],
}

// The run over seated nodes, where so many places for lists and for what is made are enough: only what is lent is cleared first.
fn run_in_places<const LISTS: usize, const MADE: usize>(
    given: &Given,
    output: &mut [u8],
) -> detector::Run
    requires few { (LISTS ≤ 544) × (MADE ≤ 136) }
    requires ready { SomeReady given.now.count given.now.kinds.now given.now.takers.now given.now.seats.now LISTS MADE }
    requires noticed { Noticed given.now.count given.now.kinds.now given.now.loggers.now given.now.notes.now }
    ensures { Runs given.now.numbers.now given.now.takers.now given.now.seats.now LISTS MADE given.now.count
        given.now.kinds.now given.now.loggers.now given.now.notes.now output.old result output.new }
{
    let mut lists = [[0u64; 3]; LISTS];
    let mut made = [[0u64; 3]; MADE];
    detector::run_in(
        given.numbers,
        given.seats,
        given.takers,
        given.count,
        given.kinds,
        given.loggers,
        given.notes,
        &mut lists,
        &mut made,
        output,
    )
}

// Whether so many places are enough: for lists, and for what is made.
fn fits(l: usize, lists: usize, m: usize, made: usize) -> bool
    ensures { (result ≡ true → (l ≤ lists) × (m ≤ made)) × (result ≡ false → (lists < l) ⊎ (made < m)) }
{
    l <= lists && m <= made
}

// The run in the smallest of six sizes that has l places for lists and m for what is made: 85 places are cleared in half the time of a few more
// (docs/PERFORMANCE.md, "Clearing"), and the last is enough for 16 nodes.
fn run_by_need(given: &Given, l: usize, m: usize, output: &mut [u8]) -> detector::Run
    requires most { (l ≤ 544) × (m ≤ 136) }
    requires ready { SomeReady given.now.count given.now.kinds.now given.now.takers.now given.now.seats.now l m }
    requires noticed { Noticed given.now.count given.now.kinds.now given.now.loggers.now given.now.notes.now }
    ensures { Runs given.now.numbers.now given.now.takers.now given.now.seats.now l m given.now.count
        given.now.kinds.now given.now.loggers.now given.now.notes.now output.old result output.new }
{
    if fits(l, 10, m, 9) {
        return run_in_places::<10, 9>(given, output);
    }
    if fits(l, 40, m, 17) {
        return run_in_places::<40, 17>(given, output);
    }
    if fits(l, 85, m, 40) {
        return run_in_places::<85, 40>(given, output);
    }
    if fits(l, 120, m, 40) {
        return run_in_places::<120, 40>(given, output);
    }
    if fits(l, 200, m, 72) {
        return run_in_places::<200, 72>(given, output);
    }
    run_in_places::<544, 136>(given, output)
}

// The events of a checked passage under its plan, with as many places for waiting lists and for what the nodes make as there is use for: all that is lent is
// cleared first, which is most of the time of a short passage.
fn run_in_rows(
    numbers: &LoggerNumbers,
    nodes: &Nodes,
    n: usize,
    count: usize,
    kind_places: &Places,
    logger_places: &Places,
    notes: &[Note],
    output: &mut [u8],
) -> detector::Run
    requires { (n ≤ 16) × Noticed count kind_places.now logger_places.now notes.now × Slotted n nodes.now }
    ensures { RunsUnder numbers.now nodes.now n count kind_places.now logger_places.now
        notes.now output.old result output.new }
{
    let mut places = [0u8; 34];
    places_for(kind_places, count, &mut places);
    let mut seats = [0u16; 187];
    let mut takers = [0u64; 50];
    slots::seat_nodes(nodes, n, &places, &mut seats, &mut takers);
    slots::seat_made(nodes, n, &takers, &mut seats);
    let l = slots::list_start(&seats, n, 0);
    let m = slots::made_start(&seats, n);
    let given = Given {
        numbers,
        seats: &seats,
        takers: &takers,
        count,
        kinds: kind_places,
        loggers: logger_places,
        notes,
    };
    run_by_need(&given, l, m, output)
}

// Under the plan that was read: the passage is checked whole, then its events are worked, in tables that are lent.
fn work_under(
    read: plans::PlanRead,
    loggers: &Loggers,
    kinds: &Kinds,
    nodes: &Nodes,
    passage: &[u8],
    output: &mut [u8],
    notes: &mut [Note],
) -> Answer
    requires { PlanHeld read loggers.now kinds.now nodes.now × Room passage.now notes.old }
    ensures { WorkedUnder read loggers.now kinds.now nodes.now
        passage.now output.old result output.new }
{
    let kind_numbers = &kinds[..];
    let logger_numbers = &loggers[..];
    let k = read.kind_count;
    let l = read.logger_count;
    let mut kind_places = [0u8; 128];
    let mut logger_places = [0u8; 128];
    let check = passages::check_passage(
        &kind_numbers[..k],
        &logger_numbers[..l],
        read.ratio,
        passage,
        &mut kind_places,
        &mut logger_places,
        notes,
    );
    let count = match check {
        Ok(count) => count,
        Err(refusal) => return turned_back(refusal.fault.number(), refusal.place),
    };
    let numbers = detector::numbers_by_place(loggers, l);
    let run = run_in_rows(
        &numbers,
        nodes,
        read.node_count,
        count,
        &kind_places,
        &logger_places,
        notes,
        output,
    );
    ended(run)
}

// The same, with tables for so many events that are lent.
fn work_with<const EVENTS: usize>(
    read: plans::PlanRead,
    loggers: &Loggers,
    kinds: &Kinds,
    nodes: &Nodes,
    passage: &[u8],
    output: &mut [u8],
) -> Answer
    requires held { PlanHeld read loggers.now kinds.now nodes.now }
    requires few { EVENTS ≤ 129 }
    requires room { min 128 ((length passage.now - 2) / 12) < EVENTS }
    ensures { WorkedUnder read loggers.now kinds.now nodes.now
        passage.now output.old result output.new }
{
    let mut notes = [Note { tick: 0, global: 0 }; EVENTS];
    work_under(read, loggers, kinds, nodes, passage, output, &mut notes)
}

// The same with tables as long as the passage has use for: of fewer bytes than 194 there are at most 15 events, of fewer than 770 at most 63.
fn work_in_tables(
    read: plans::PlanRead,
    loggers: &Loggers,
    kinds: &Kinds,
    nodes: &Nodes,
    passage: &[u8],
    output: &mut [u8],
) -> Answer
    requires { PlanHeld read loggers.now kinds.now nodes.now }
    ensures { WorkedUnder read loggers.now kinds.now nodes.now
        passage.now output.old result output.new }
{
    let size = passage.len();
    if size < 194 {
        work_with::<16>(read, loggers, kinds, nodes, passage, output)
    } else if size < 770 {
        work_with::<64>(read, loggers, kinds, nodes, passage, output)
    } else {
        work_with::<129>(read, loggers, kinds, nodes, passage, output)
    }
}

// Both files are checked whole, the plan first; then the passage's events are worked.
pub fn work(plan: &[u8], passage: &[u8], output: &mut [u8]) -> Answer
    ensures answers { FilesWorked plan.now passage.now output.old result output.new }
    ensures latest { LatestWritten plan.now passage.now result output.new }
{
    let mut loggers = [0u16; 8];
    let mut kinds = [0u16; 32];
    let mut nodes = [NodeRow::default(); 16];
    match plans::read_plan(plan, &mut loggers, &mut kinds, &mut nodes) {
        Ok(read) => work_in_tables(read, &loggers, &kinds, &nodes, passage, output),
        Err(refusal) => turned_back(refusal.fault.number(), refusal.place),
    }
}
