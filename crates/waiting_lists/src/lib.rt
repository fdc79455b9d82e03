// Waiting lists: at most 16 occurrences, in waiting order. A list says which of its places wait, and in which order; it is kept in front of its places, in a
// slice that is lent (specs/Lists.antt).
#![tactic(auto)]

ghost use Rattle.std.specs.Prelude.{false, true, List, [], ◌∷◌, ◌≡◌, ℕ, min, ◌+◌, ◌≤◌, ◌<◌, get_or, length, set, IsNone, MatchOption};
ghost use Rattle.sequences.specs.Choice.{pick};
ghost use Rattle.sequences.specs.Marks.{first_mark, unmarked};
ghost use Rattle.occurrences.specs.declared.Occurrence.{Occurrence};
ghost use Rattle.occurrences.specs.Packed.{Notes, Stands};
ghost use Rattle.waiting_lists.specs.Marks.{marks_of};
ghost use Rattle.waiting_lists.specs.Lists.{Appends, Removes, Roomy, Waits, list_of, order_of, place_in};
ghost use Rattle.waiting_lists.specs.Waiting.{appended_to};

use occurrences::Packed;

// Document 01's waiting list. Four bits of `order` name a place: the lowest four that of the first that waits, and so on for `len` of them. After them come
// the places that are free: an append takes the first of these, and a removal puts there what it frees.
#[derive(Clone, Copy, PartialEq, Eq)]
pub struct WaitingList {
    pub order: u64,
    pub len: usize,
}

// How many of 16 wait, where n are said to.
pub fn count(n: usize) -> usize
    ensures { (result ≡ min n 16) × (result ≤ 16) }
{
    n.min(16)
}

// ---- marks

// Whether the one at place i of the waiting order is marked.
pub fn is_marked(marks: u64, i: usize) -> bool
    requires { i < 16 }
    ensures { result ≡ get_or (marks_of marks) i false }
{
    (marks >> i) % 2 == 1
}

// With this one too, where it is to be marked.
pub fn with_mark(marks: u64, i: usize, mark: bool) -> u64
    requires { i < 16 }
    ensures { marks_of result ≡ pick mark (set (marks_of marks) i true) (marks_of marks) }
{
    if mark { marks | 1 << i } else { marks }
}

// The first of 16 that is marked, if one is.
pub fn first_marked(marks: u64) -> Option<usize>
    ensures { MatchOption result (first_mark (marks_of marks) ≡ 16) (λ i. (i ≡ first_mark (marks_of marks)) × (i < 16)) }
{
    let first = marks.trailing_zeros() as usize;
    if first < 16 { Some(first) } else { None }
}

// ---- the order

// The place that the i-th of an order has.
fn place_in(order: u64, i: usize) -> u64
    requires { i < 16 }
    ensures { (result ≡ place_in order i) × (result < 16) }
{
    (order >> (4 * i)) % 16
}

// Without the i-th: those after it close up.
fn without_place(order: u64, i: usize) -> u64
    requires { i < 16 }
    ensures { ((j : ℕ) → j < i → place_in result j ≡ place_in order j) × ((j : ℕ) → i ≤ j → j < 15 → place_in result j ≡ place_in order (j + 1))
        × (result < 1152921504606846976) }
{
    order % (1 << (4 * i)) + (order >> (4 * i) >> 4 << (4 * i))
}

// With a place as the i-th: those from there on move up.
fn with_place(order: u64, i: usize, place: u64) -> u64
    requires { (i < 16) × (place < 16) × (order < 1152921504606846976) }
    ensures { ((j : ℕ) → j < i → place_in result j ≡ place_in order j) × (place_in result i ≡ place)
        × ((j : ℕ) → i ≤ j → j < 15 → place_in result (j + 1) ≡ place_in order j) }
{
    order % (1 << (4 * i)) + (place << (4 * i)) + (order >> (4 * i) << (4 * i) << 4)
}

// The place of the i-th comes to stand at last, and those between close up.
fn moved(order: u64, i: usize, last: usize) -> u64
    requires { (i ≤ last) × (last < 16) }
    ensures { ((j : ℕ) → j < i → place_in result j ≡ place_in order j) × ((j : ℕ) → i ≤ j → j < last → place_in result j ≡ place_in order (j + 1))
        × (place_in result last ≡ place_in order i) × ((j : ℕ) → last < j → j < 16 → place_in result j ≡ place_in order j) }
{
    if i == last {
        return order;
    }
    with_place(without_place(order, i), last, place_in(order, i))
}

// ---- the list

// An append to a list that is lent: one more takes the first free place, unless 16 wait already. Where in the lent slice the new one goes.
pub fn append(list: &mut WaitingList) -> Option<usize>
    ensures appends { Appends list.old result list.new }
    ensures full { IsNone result → list.new ≡ list.old }
{
    if list.len >= 16 {
        return None;
    }
    let place = place_in(list.order, list.len) as usize + 1;
    list.len += 1;
    Some(place)
}

// A removal of those marked from a list that is lent: they leave, and their places are free.
pub fn remove(list: &mut WaitingList, gone: u64)
    ensures { Removes list.old (marks_of gone) list.new }
{
    let mut order = list.order;
    let mut len = count(list.len);
    for i in (0..len).rev() {
        if is_marked(gone, i) {
            len -= 1;
            order = moved(order, i, len);
        }
    }
    *list = WaitingList { order, len };
}

// ---- the list in front of its places

// Each place at its own number.
const FIRST_ORDER: u64 = 0xfedc_ba98_7654_3210;

// The order that is kept: 0, as at first, for the first order.
fn order_of(kept: u64) -> u64
    ensures { result ≡ order_of kept }
{
    if kept == 0 { FIRST_ORDER } else { kept }
}

// The list that is kept in front of its places.
pub fn list_of(w: &[Packed]) -> WaitingList
    requires { 0 < length w.now }
    ensures { result ≡ list_of w.now }
{
    let head = w[0];
    WaitingList {
        order: order_of(head[0]),
        len: head[1] as usize,
    }
}

// Where in the lent slice the i-th that waits stands.
pub fn place_at(list: WaitingList, i: usize) -> usize
    requires { i < 16 }
    ensures { result ≡ place_in list.order i + 1 }
{
    place_in(list.order, i) as usize + 1
}

// The list is kept.
fn keep(w: &mut [Packed], list: WaitingList)
    requires { 0 < length w.old }
    ensures { w.new ≡ set w.old 0 (list.order ∷ list.len ∷ 0 ∷ []) }
{
    w[0] = [list.order, list.len as u64, 0];
}

// An occurrence goes to a place, if there is such a one.
fn put(w: &mut [Packed], place: usize, o: &Packed)
    ensures { w.new ≡ set w.old place o.now }
{
    if place < w.len() {
        w[place] = *o;
    }
}

// One more waits, at the end; a list of 16 stays as it is.
pub fn append_to(w: &mut [Packed], o: &Packed)
    requires { 0 < length w.old }
    ensures { (ticks globals : List ℕ) (t : Notes ticks globals) (l : List Occurrence) (x : Occurrence)
        → Waits t w.old l → Roomy w.old l 1 → Stands t o.now x
        → Waits t w.new (appended_to l x) }
{
    let mut list = list_of(w);
    if let Some(place) = append(&mut list) {
        put(w, place, o);
        keep(w, list);
    }
}

// Those that are not marked wait on, in order.
pub fn remove_from(w: &mut [Packed], gone: u64)
    requires { 0 < length w.old }
    ensures { (ticks globals : List ℕ) (t : Notes ticks globals) (l : List Occurrence) → Waits t w.old l
        → Waits t w.new (unmarked l (marks_of gone)) }
{
    if first_marked(gone).is_none() {
        return;
    }
    let mut rest = list_of(w);
    remove(&mut rest, gone);
    keep(w, rest);
}
