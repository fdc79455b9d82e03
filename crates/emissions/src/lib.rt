// What a node makes from one event: findings to the output and to later nodes, until a limit ends the work.
#![tactic(auto)]

ghost use Rattle.timestamps.specs.Notes.{ticks_of};
ghost use Rattle.std.specs.Prelude.{List, None, ◌≡◌, ℕ, get_or, length};
ghost use Rattle.std.specs.Result.{result_err};
ghost use Rattle.detections.specs.Writing.{Beyond};
ghost use Rattle.occurrences.specs.declared.Occurrence.{Occurrence};
ghost use Rattle.occurrences.specs.Packed.{Notes, Stands};
ghost use Rattle.occurrences.specs.Steps.{Inside};
ghost use Rattle.emissions.specs.Emissions.{Emits, Emitting, InOutput, emitted, number_of};

use detections::LoggerNumbers;
use occurrences::Packed;
use timestamps::Note;

// What ends the work on the way, by document 01's numbers.
#[derive(Clone, Copy, PartialEq, Eq)]
pub enum Limit {
    ListFull = 31,
    NodeFull = 32,
    OutputFull = 33,
}

// What a node makes from one event, at most eight, and how many those are; all findings of the passage, and the place after the bytes written.
#[derive(Clone, Copy, PartialEq, Eq)]
pub struct Made {
    pub row: [Packed; 8],
    pub count: usize,
    pub findings: usize,
    pub bytes: usize,
}

// What holds for all nodes of a passage, lent: what is noted of its stamps, and its logger numbers by place.
#[derive(Clone, Copy)]
pub struct Setting<'a> {
    pub notes: &'a [Note],
    pub loggers: &'a LoggerNumbers,
}

impl Limit {
    // Document 01's number of the limit.
    pub fn number(self) -> u64
        ensures { result ≡ number_of self }
    {
        self as u64
    }
}

// One finding: 32 where this node has made eight from this event, then 33 where it does not fit whole in the output left.
pub fn emit_one(
    made: &mut Made,
    place: u64,
    o: &Packed,
    setting: &Setting,
    out: &mut [u8],
) -> Result<(), Limit>
    requires { Inside 8 setting.now.notes.now (get_or o.now 2 0) × (get_or (ticks_of setting.now.notes.now) 0 0 ≡ 0) × InOutput made.old out.old }
    ensures emits { (globals : List ℕ) (t : Notes (ticks_of setting.now.notes.now) globals) (s : Emitting) (x : Occurrence)
        → Emits t None made.old out.old s → Stands t o.now x
        → Emits t (result_err result) made.new out.new (emitted (length out.old) setting.now.loggers.now place s x) }
    ensures beyond { Beyond out.old out.new made.old.bytes made.new.findings made.new.bytes }
{
    if made.row.len() <= made.count {
        return Err(Limit::NodeFull);
    }
    if !detections::fits(o, setting.notes, out.len() - made.bytes) {
        return Err(Limit::OutputFull);
    }
    made.bytes = detections::write(out, made.bytes, place, o, setting.notes, setting.loggers);
    made.row[made.count] = *o;
    made.count += 1;
    made.findings += 1;
    Ok(())
}
