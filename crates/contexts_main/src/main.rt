#![tactic(auto)]

// Runs append, remove and the four contexts, and prints what is made and what is left.
ghost use Rattle.std.specs.Prelude.{List, [], ◌≡◌, ℕ, ◌≤◌, ◌<◌, get_or, length};
ghost use Rattle.timestamps.specs.Order.{blank};
ghost use Rattle.occurrences.specs.declared.Occurrence.{Occurrence};
ghost use Rattle.occurrences.specs.Occurrences.{of_event};
ghost use Rattle.occurrences.specs.Packed.{Notes, Within};
ghost use Rattle.waiting_lists.specs.Lists.{Arrives, Waits};
ghost use Rattle.waiting_lists.specs.Waiting.{appended_to};

use event_sets::EventSet;
use occurrences::Packed;
use std::io;
use timestamps::Note;

// A waiting list that has room for 16, in front of its places.
type Row = [Packed; 17];

#[derive(Clone, Copy)]
enum Operator {
    Seq,
    And,
}

impl Operator {
    fn name(self) -> &'static str {
        match self {
            Operator::Seq => "SEQ ",
            Operator::And => "AND ",
        }
    }
}

// One more event of a logger waits.
fn add(list: &mut Row, logger: u8, number: usize)
    requires { (number < 128) × (logger < 8) }
    ensures { (ticks globals : List ℕ) (t : Notes ticks globals) (l : List Occurrence) → Waits t list.old l
        → number < length t.stamps → (get_or t.stamps number blank).logger ≡ logger
        → Waits t list.new (appended_to l (of_event (get_or t.stamps number blank) number)) }
{
    let o = occurrences::of_event(logger, number);
    waiting_lists::append_to(list, &o);
}

// Four wait, where none did: of logger 1 the events 0 and 1, of logger 3 event 3, of logger 2 event 4.
fn wait_four(list: &mut Row)
    ensures { (ticks globals : List ℕ) (t : Notes ticks globals) → Waits t list.old [] → 4 < length t.stamps
        → (get_or t.stamps 0 blank).logger ≡ 1 → (get_or t.stamps 1 blank).logger ≡ 1
        → (get_or t.stamps 3 blank).logger ≡ 3 → (get_or t.stamps 4 blank).logger ≡ 2
        → (l : List Occurrence) × Waits t list.new l }
{
    add(list, 1, 0);
    add(list, 1, 1);
    add(list, 3, 3);
    add(list, 2, 4);
}

fn write(rt: &impl Print, text: &str) -> io::Result<()> {
    print!(rt; "{text}")
}

fn write_number(rt: &impl Print, n: usize) -> io::Result<()> {
    print!(rt; " {n}")
}

fn events_of(o: &Packed) -> EventSet {
    EventSet {
        low: o[0],
        high: o[1],
    }
}

fn write_events(rt: &impl Print, o: &Packed) -> io::Result<()> {
    let set = events_of(o);
    for i in 0..128 {
        if event_sets::holds(set, i) {
            write_number(rt, i)?;
        }
    }
    write(rt, ",")
}

// How many wait.
fn waiting_in(list: &Row) -> usize
    ensures { result ≤ 16 }
{
    waiting_lists::count(waiting_lists::list_of(list).len)
}

fn write_waiting(rt: &impl Print, list: &Row) -> io::Result<()> {
    let waiting = waiting_lists::list_of(list);
    for i in 0..waiting_in(list) {
        let place = waiting_lists::place_at(waiting, i);
        write_events(rt, &list[place])?;
    }
    Ok(())
}

// One for each taken.
fn write_each(
    rt: &impl Print,
    list: &[Packed],
    taken: u64,
    o: &Packed,
    notes: &[Note],
) -> io::Result<()>
    requires { Arrives notes.now list.now o.now }
{
    let waiting = waiting_lists::list_of(list);
    for i in 0..waiting.len {
        if waiting_lists::is_marked(taken, i) {
            let place = waiting_lists::place_at(waiting, i);
            let c = occurrences::combined(&list[place], o, notes);
            write_events(rt, &c)?;
        }
    }
    Ok(())
}

// One for all together, if any is taken.
fn write_together(
    rt: &impl Print,
    list: &[Packed],
    taken: u64,
    o: &Packed,
    notes: &[Note],
) -> io::Result<()>
    requires { Arrives notes.now list.now o.now }
{
    if let Some(first) = waiting_lists::first_marked(taken)
        && first < waiting_lists::list_of(list).len
    {
        let all = contexts::all_combined(list, taken, o, notes);
        write_events(rt, &all)?;
    }
    Ok(())
}

fn write_made(
    rt: &impl Print,
    context: u64,
    list: &[Packed],
    taken: u64,
    o: &Packed,
    notes: &[Note],
) -> io::Result<()>
    requires { Arrives notes.now list.now o.now }
{
    if contexts::makes_each(context) {
        write_each(rt, list, taken, o, notes)
    } else {
        write_together(rt, list, taken, o, notes)
    }
}

// What an arrival makes and leaves, by the candidates that are marked.
fn work(
    rt: &impl Print,
    context: u64,
    list: &mut Row,
    candidates: u64,
    o: &Packed,
    notes: &[Note],
) -> io::Result<()>
    requires { Arrives notes.now list.old o.now }
{
    let c = contexts::choose(context, list, candidates, notes);
    write(rt, " makes")?;
    write_made(rt, context, list, c.taken, o, notes)?;
    waiting_lists::remove_from(list, c.removed);
    write(rt, " leaves")?;
    write_waiting(rt, list)?;
    write(rt, "\n")
}

// The candidates of those that wait in a row.
fn candidates(operator: Operator, list: &Row, o: &Packed, notes: &[Note]) -> u64
    requires { Arrives notes.now list.now o.now }
{
    match operator {
        Operator::Seq => contexts::before_arrival(list, o, notes),
        Operator::And => contexts::all_waiting(waiting_in(list)),
    }
}

// By number plus one the local and the global ticks, each plus one: logger 1 at 80 and 95, logger 2 at 120, logger 3 at 100, logger 2 at 300; ten in a
// global tick.
fn arrive(rt: &impl Print, operator: Operator, context: u64, name: &str) -> io::Result<()> {
    let mut list = [[0u64; 3]; 17];
    let notes = [
        Note { tick: 0, global: 0 },
        Note {
            tick: 81,
            global: 9,
        },
        Note {
            tick: 96,
            global: 10,
        },
        Note {
            tick: 121,
            global: 13,
        },
        Note {
            tick: 101,
            global: 11,
        },
        Note {
            tick: 301,
            global: 31,
        },
    ];
    wait_four(&mut list);
    let o = occurrences::of_event(2, 2);
    let marks = candidates(operator, &list, &o, &notes);
    write(rt, operator.name())?;
    write(rt, name)?;
    work(rt, context, &mut list, marks, &o, &notes)
}

// In each of the four contexts.
fn arrive_in_each(rt: &impl Print, operator: Operator) -> io::Result<()> {
    arrive(rt, operator, 1, "recent")?;
    arrive(rt, operator, 2, "chronicle")?;
    arrive(rt, operator, 3, "continuous")?;
    arrive(rt, operator, 4, "cumulative")
}

// One more, and a line where the list is full.
fn one_more(rt: &impl Print, list: &mut Row, number: usize) -> io::Result<()>
    requires { number < 128 }
{
    if waiting_in(list) == 16 {
        write(rt, "full at")?;
        write_number(rt, number)?;
        write(rt, "\n")?;
    }
    add(list, 1, number);
    Ok(())
}

// The first and the fifteenth leave.
fn two_leave(list: &mut Row) {
    let first = waiting_lists::with_mark(0, 0, true);
    let gone = waiting_lists::with_mark(first, 14, true);
    waiting_lists::remove_from(list, gone);
}

// Sixteen wait and no more; two leave, and a freed place is used again.
fn fill(rt: &impl Print) -> io::Result<()> {
    let mut list = [[0u64; 3]; 17];
    for i in 0..18 {
        one_more(rt, &mut list, i)?;
    }
    two_leave(&mut list);
    write(rt, "waiting")?;
    one_more(rt, &mut list, 100)?;
    write_waiting(rt, &list)?;
    write(rt, "\n")
}

fn main(rt: HostRuntime) -> io::Result<()> {
    arrive_in_each(&rt, Operator::Seq)?;
    arrive_in_each(&rt, Operator::And)?;
    fill(&rt)
}
