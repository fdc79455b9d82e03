// The comparison of two lent lists of timestamps, one of the two calls that stand open to any caller.
#![tactic(auto)]

ghost use Rattle.std.specs.Prelude.{◌≡◌, ◌+◌, ◌-◌, ◌^◌, ◌<◌, true, List, [], ◌∷◌, ◌++◌, length, take, OnOk, OnErr, IfErr};
ghost use Rattle.timestamps.specs.declared.Timestamp.{Timestamp};
ghost use Rattle.timestamps.specs.Order.{clearly_earlier, clocks_of};
ghost use Rattle.comparisons.specs.Answers.{compare_answer, judged, refused_comparison};
ghost use Rattle.comparisons.specs.Notes.{NotedList, around_of, entry_judged, lists_related, nothing_gathered, related_at, related_lists, widened_by};
ghost use Rattle.comparisons.specs.Notes.{each_has_earlier, has_earlier, is_earlier, order_noted, relation_noted};

use open_calls::{Refusal, Refused};
use timestamps::{GlobalTick, LocalTick, Order, Relation, Timestamp};

// The word by its number (timestamps, `Order`), and whether the first is weakly before the second.
#[repr(C)]
#[derive(Clone, Copy)]
pub struct Comparison {
    pub number: u64,
    pub place: u64,
    pub order: u8,
    pub weakly_before: bool,
}

fn refused_comparison(refused: Refused) -> Comparison
    ensures { result ≡ refused_comparison refused.why refused.place }
{
    Comparison {
        number: refused.why.number(),
        place: refused.place,
        order: Order::Incomparable.number(),
        weakly_before: false,
    }
}

// ---- what is gathered of a list

// The lowest and the highest of its global ticks: while there is none, the largest number and 0.
#[derive(Clone, Copy)]
struct Span {
    lowest: GlobalTick,
    highest: GlobalTick,
}

impl Span {
    // The span with one global tick more.
    fn widened(self, g: GlobalTick) -> Span
        ensures { result ≡ widened_by self g }
    {
        Span {
            lowest: self.lowest.earliest(g),
            highest: self.highest.latest(g),
        }
    }

    // Some global tick is clearly earlier than another.
    fn is_torn(self) -> bool
        ensures { result ≡ clearly_earlier self.lowest self.highest }
    {
        self.lowest.clearly_earlier(self.highest)
    }
}

// Of the logger at place k its local tick at k of `notes`, as the join notes it (open_calls::note_of): the tick plus 1, and 0 where there is none; and
// its global tick at k of `globals`. The notes are those of the join, for its reason (open_calls, JoinNotes).
#[derive(Clone, Copy)]
struct Gathering {
    span: Span,
    notes: [u64; 8],
    globals: [GlobalTick; 8],
}

impl Gathering {
    const NOTHING: Gathering = Gathering {
        span: Span {
            lowest: GlobalTick(u64::MAX),
            highest: GlobalTick(0),
        },
        notes: [0; 8],
        globals: [GlobalTick(0); 8],
    };

    // One entry more, or why it is turned back: then nothing changes. One of a logger that is there must be the same again; the first of its logger, for
    // which it is divided, may not tear the span: all before it are of other loggers.
    fn gather(&mut self, s: Timestamp, ratio: u64) -> Result<(), Refusal>
        ensures judged { (l : List Timestamp) → NotedList (clocks_of ratio) l self.old
            → result ≡ entry_judged (clocks_of ratio) l s }
        ensures noted { (l : List Timestamp) → NotedList (clocks_of ratio) l self.old
            → OnOk result (NotedList (clocks_of ratio) (l ++ (s ∷ [])) self.new) }
        ensures kept { OnErr result (self.new ≡ self.old) }
    {
        if !s.valid() {
            return Err(Refusal::BadEntry);
        }
        let k = s.logger as usize;
        let note = open_calls::note_of(s);
        if self.notes[k] == note {
            return Ok(());
        }
        if self.notes[k] != 0 {
            return Err(Refusal::NotConcurrent);
        }
        let global = s.tick.global(ratio);
        let span = self.span.widened(global);
        if span.is_torn() {
            return Err(Refusal::NotConcurrent);
        }
        self.span = span;
        self.notes[k] = note;
        self.globals[k] = global;
        Ok(())
    }
}

// The entries of a list whose first place is `from`, up to one that is turned back. Compiled into `relate_lists` for each of its two lists: called, it
// takes twice as long at one entry.
#[inline(always)]
fn gather_list(
    ratio: u64,
    list: &[Timestamp],
    from: u64,
    gathered: &mut Gathering,
) -> Result<(), Refused>
    ensures judged { gathered.old ≡ nothing_gathered → from + length list.now < 2 ^ 64 → result ≡ judged ratio [] from list.now }
    ensures noted { gathered.old ≡ nothing_gathered → OnOk result (NotedList (clocks_of ratio) list.now gathered.new) }
    ensures kept { gathered.old ≡ nothing_gathered → from + length list.now < 2 ^ 64
        → IfErr result (λ refused. NotedList (clocks_of ratio) (take (refused.place - from) list.now) gathered.new) }
{
    for (i, s) in list.iter().enumerate() {
        if let Err(why) = gathered.gather(*s, ratio) {
            return Err(Refused {
                why,
                place: from.wrapping_add(i as u64),
            });
        }
    }
    Ok(())
}

// ---- how two lists stand to each other

// Whether a list has a timestamp before another one, and one after it.
#[derive(Clone, Copy)]
struct Around {
    earlier: bool,
    later: bool,
}

// What the second list's timestamps tell: whether the first is before it, concurrent with it, weakly before it.
#[derive(Clone, Copy)]
struct Replies {
    before: bool,
    concurrent: bool,
    weakly_before: bool,
}

// How a list with the note `own` of a logger, and with the span `a`, lies around that logger's timestamp of another list.
fn around_of(a: Span, own: u64, t: LocalTick, g: GlobalTick) -> Around
    ensures { result ≡ around_of a own t g }
{
    let earlier = a.lowest.clearly_earlier(g);
    let later = g.clearly_earlier(a.highest);
    if own == 0 {
        return Around { earlier, later };
    }
    let o = LocalTick(own - 1);
    let before = earlier || o.earlier(t);
    let after = later || t.earlier(o);
    Around {
        earlier: before,
        later: after,
    }
}

// One logger place more: the first list's note there, the second's, and its global tick.
fn relate_at(r: Replies, a: Span, own: u64, note: u64, g: GlobalTick) -> Replies
    ensures { result ≡ related_at a own note g r }
{
    if note == 0 {
        return r;
    }
    let m = around_of(a, own, LocalTick(note - 1), g);
    let before = r.before && m.earlier;
    let concurrent = r.concurrent && !m.earlier && !m.later;
    let weakly_before = r.weakly_before && !m.later;
    Replies {
        before,
        concurrent,
        weakly_before,
    }
}

// How the first list stands to the second, place by place of the second.
fn relate(first: &Gathering, second: &Gathering) -> Replies
    ensures { result ≡ related_lists first.now second.now }
{
    let mut r = Replies {
        before: true,
        concurrent: true,
        weakly_before: true,
    };
    for k in 0..8 {
        r = relate_at(
            r,
            first.span,
            first.notes[k],
            second.notes[k],
            second.globals[k],
        );
    }
    r
}

// The tick of a note, if there is one, is earlier than t.
fn is_earlier(note: u64, t: LocalTick) -> bool
    ensures { result ≡ is_earlier note t }
{
    note != 0 && LocalTick(note - 1).earlier(t)
}

// Whether a timestamp of one list, by its note, has one of the other list before it: that with the note `own` of its logger, or the lowest global tick.
// Where the local ticks do not tell, its global tick is divided for once more: to keep those of the first list takes longer than the rare division.
fn has_earlier(low: GlobalTick, own: u64, note: u64, ratio: u64) -> bool
    ensures { result ≡ has_earlier ratio low own note }
{
    if note == 0 {
        return true;
    }
    let t = LocalTick(note - 1);
    is_earlier(own, t) || low.clearly_earlier(t.global(ratio))
}

// Whether each timestamp of the second list has one of the first before it.
fn each_has_earlier(first: &Gathering, second: &Gathering, ratio: u64) -> bool
    ensures { result ≡ each_has_earlier ratio first.now second.now }
{
    for k in 0..8 {
        if !has_earlier(first.span.lowest, first.notes[k], second.notes[k], ratio) {
            return false;
        }
    }
    true
}

// The word. The places of the first list are looked at only where the second has a timestamp before one of them.
fn order_of(r: Replies, first: &Gathering, second: &Gathering, ratio: u64) -> Order
    ensures { result ≡ order_noted ratio r first.now second.now }
{
    if r.before {
        Order::Before
    } else if r.concurrent {
        Order::Concurrent
    } else if r.weakly_before {
        Order::Incomparable
    } else if each_has_earlier(second, first, ratio) {
        Order::After
    } else {
        Order::Incomparable
    }
}

// The comparison of two lists that were gathered whole.
fn relation_of(first: &Gathering, second: &Gathering, ratio: u64) -> Relation
    ensures { result ≡ relation_noted ratio first.now second.now }
{
    let r = relate(first, second);
    Relation {
        order: order_of(r, first, second, ratio),
        weakly_before: r.weakly_before,
    }
}

// The ratio, then the first list whole, then the second, whose places follow the first's.
fn relate_lists(ratio: u64, first: &[Timestamp], second: &[Timestamp]) -> Result<Relation, Refused>
    ensures { result ≡ lists_related ratio first.now second.now }
{
    let n = first.len();
    open_calls::judge_call(ratio, n)?;
    let mut a = Gathering::NOTHING;
    gather_list(ratio, first, 0, &mut a)?;
    if !open_calls::is_length(second.len()) {
        return Err(Refused {
            why: Refusal::BadLength,
            place: n as u64,
        });
    }
    let mut b = Gathering::NOTHING;
    gather_list(ratio, second, n as u64, &mut b)?;
    Ok(relation_of(&a, &b, ratio))
}

// How the first of two lent lists stands to the second.
pub fn compare(ratio: u64, first: &[Timestamp], second: &[Timestamp]) -> Comparison
    ensures { result ≡ compare_answer ratio first.now second.now }
{
    match relate_lists(ratio, first, second) {
        Ok(relation) => Comparison {
            number: 0,
            place: 0,
            order: relation.order.number(),
            weakly_before: relation.weakly_before,
        },
        Err(refused) => refused_comparison(refused),
    }
}
