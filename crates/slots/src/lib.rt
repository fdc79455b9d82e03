// The seats of the nodes in a run: for each node its context, where what it makes stands, and for each of its inputs what an arrival does, where arrivals are
// counted, and where those that wait stand; the inputs that look at each slot; and the inputs that are due in an event.
#![tactic(auto)]

ghost use Rattle.std.specs.Prelude.{List, map, ◌≡◌, ℕ, min, ◌+◌, ◌*◌, ◌≤◌, ◌<◌, get_or, length, replicate, take};
ghost use Rattle.std.specs.Int.Count.{count_trailing_zeros};
ghost use Rattle.plans.specs.declared.Node.{Node};
ghost use Rattle.plans.specs.Limits.{no_node};
ghost use Rattle.plans.specs.Views.{Slotted, SlotsBelow, node_of};
ghost use Rattle.arrivals.specs.Meetings.{action_from, may_wait};
ghost use Rattle.progress.specs.Seats.{Enough, due_after, list_start, made_room, made_start, places_at, room_of, seat_action, seat_context, seat_slot};
ghost use Rattle.slots.specs.Steps.{AllInputs, AllSeated, Filling};

use passages::Places;
use plans::{NodeRow, Nodes};

// For each node eleven numbers, which are written and read here alone: its context; where what it makes begins; and for each input what an arrival does, its
// slot, and where those that wait begin. After the last node stands where both end.
// Numbers at reckoned places: with a struct for each node, file working where each event reaches each of 16 nodes took 3 to 8 percent longer.
pub type Seats = [u16; 187];

// How many numbers a seat has, and how many each of its inputs.
const SEAT: usize = 11;

const INPUT: usize = 3;
// Where they stand: the context is first, and the numbers of the second input stand INPUT further on than those of the first.
const MADE: usize = 1;

const ACTION: usize = 2;

const SLOT: usize = 3;

const LIST: usize = 4;

// For each slot the inputs that look there, as bits: that of input i of node k is bit 4 * k + i.
pub type SlotTakers = [u64; 50];

// For each kind how many places a list that takes it is given.
pub type KindPlaces = [u8; 34];

// ---- how many places

// How many events there are of each kind, 16 at most, into an array that is lent with zeros in it.
pub fn count_kinds(kinds: &Places, count: usize, places: &mut KindPlaces)
    requires { (count ≤ 128) × ((i : ℕ) → i < count → get_or kinds.now i 0 < 33) × (places.old ≡ replicate 34 0) }
    ensures { Enough count kinds.now places.new }
{
    for &kind in &kinds[..count] {
        let q = kind as usize;
        places[q] = places[q].min(15) + 1;
    }
}

// How many places the list of an input is given: one for the list itself; and where arrivals may come to wait, as many as those that can come by its slot, at
// most 16. What comes by the third never waits, and has no list.
fn room_of(input: usize, action: u16, slot: u8, places: &KindPlaces) -> u16
    requires { (q : ℕ) → get_or places.now q 0 ≤ 16 }
    ensures { (result ≡ room_of input (may_wait (action_from action)) (places_at places.now slot)) × (result ≤ 17) }
{
    if 2 <= input {
        return 0;
    }
    if !arrivals::may_wait(action) {
        return 1;
    }
    if slot < 34 {
        places[slot as usize] as u16 + 1
    } else {
        17
    }
}

// Eight places for what a node makes, if anyone takes it.
fn made_room(takers: u64) -> u16
    ensures { result ≡ made_room takers }
{
    if takers == 0 { 0 } else { 8 }
}

// ---- seats

// The inputs of node k: their part of its seat, and each among the takers of its slot. The lists begin where those of the node before end; where they
// end is returned.
fn seat_inputs(
    row: &NodeRow,
    k: usize,
    start: u16,
    places: &KindPlaces,
    seats: &mut Seats,
    takers: &mut SlotTakers,
) -> u16
    requires { (k < 16) × (start ≤ 34 * k) × ((q : ℕ) → get_or places.now q 0 ≤ 16) × (length seats.old ≡ 187) × (length takers.old ≡ 50)
        × SlotsBelow k row.now }
    ensures { (nodes : List Node) → get_or nodes k no_node ≡ node_of row.now
        → Filling places.now nodes k 0 seats.old takers.old start
        → Filling places.now nodes (k + 1) 0 seats.new takers.new result }
{
    let actions = operators::actions_of(row.operator);
    let mut l = start;
    for i in 0..3 {
        let at = SEAT * k + INPUT * i;
        let action = actions[i];
        let slot = row.slots[i] as u8;
        takers[slot as usize] |= 1u64 << (4 * k + i);
        seats[at + ACTION] = action;
        seats[at + SLOT] = slot as u16;
        seats[at + LIST] = l;
        l += room_of(i, action, slot, places);
    }
    l
}

// The inputs of all nodes, into arrays that are lent with zeros in them.
pub fn seat_nodes(
    nodes: &Nodes,
    n: usize,
    places: &KindPlaces,
    seats: &mut Seats,
    takers: &mut SlotTakers,
)
    requires { (n ≤ 16) × ((q : ℕ) → get_or places.now q 0 ≤ 16) × (seats.old ≡ replicate 187 0) × (takers.old ≡ replicate 50 0)
        × Slotted n nodes.now }
    ensures { AllInputs (map node_of (take n nodes.now)) places.now takers.new seats.new }
{
    let mut l: u16 = 0;
    for k in 0..n {
        l = seat_inputs(&nodes[k], k, l, places, seats, takers);
    }
    seats[SEAT * n + LIST] = l;
}

// The rest of each seat: the context, and where what the node makes begins. The event itself stands in front of all that is made.
pub fn seat_made(nodes: &Nodes, n: usize, takers: &SlotTakers, seats: &mut Seats)
    requires { (n ≤ 16) × (length seats.old ≡ 187) }
    ensures { (places : List ℕ) → AllInputs (map node_of (take n nodes.now)) places takers.now seats.old
        → AllSeated n (map node_of (take n nodes.now)) places takers.now seats.new }
{
    let mut m: u16 = 1;
    for k in 0..n {
        seats[SEAT * k] = nodes[k].context;
        seats[SEAT * k + MADE] = m;
        m += made_room(takers[34 + k]);
    }
    seats[SEAT * n + MADE] = m;
}

// ---- what a seat says

// The context of node k.
pub fn seat_context(seats: &Seats, k: usize) -> u16
    requires { k < 17 }
    ensures { result ≡ seat_context seats.now k }
{
    seats[SEAT * k]
}

// Where what node k makes begins; what the node before makes ends there.
pub fn made_start(seats: &Seats, k: usize) -> usize
    requires { k < 17 }
    ensures { result ≡ made_start seats.now k }
{
    seats[SEAT * k + MADE] as usize
}

// What an arrival by an input does.
pub fn seat_action(seats: &Seats, k: usize, input: usize) -> u16
    requires node { k < 17 }
    requires input { input < 3 }
    ensures { result ≡ seat_action seats.now k input }
{
    seats[SEAT * k + INPUT * input + ACTION]
}

// The slot of an input.
pub fn seat_slot(seats: &Seats, k: usize, input: usize) -> usize
    requires node { k < 17 }
    requires input { input < 3 }
    ensures { result ≡ seat_slot seats.now k input }
{
    seats[SEAT * k + INPUT * input + SLOT] as usize
}

// Where those that came by an input begin; a node's lists end where those of the next begin.
pub fn list_start(seats: &Seats, k: usize, input: usize) -> usize
    requires node { k < 17 }
    requires input { input < 3 }
    ensures begins { result ≡ list_start seats.now k input }
    ensures small { result < 65536 }
{
    seats[SEAT * k + INPUT * input + LIST] as usize
}

// ---- the inputs that are due

// The first of the inputs that are due, as a bit's place; 64 where none is, and no Option: 64 is read as an input of a node after all nodes, so that the same
// test ends the last node's turn.
pub fn next_due(due: u64) -> usize
    ensures { result ≡ count_trailing_zeros 64 due }
{
    u64::trailing_zeros(due) as usize
}

// What is due after the turn of a node: the rest, and the inputs that take what it made, if it made anything.
pub fn due_after(rest: u64, made: u8, takers: u64) -> u64
    ensures { result ≡ due_after rest made takers }
{
    if 0 < made { rest | takers } else { rest }
}
