// The plan file: clocks, loggers, kinds and nodes. The layout, the limits and the numbers of the faults are document 01's,
// with request Q-2.
#![tactic(auto)]

ghost use Rattle.std.specs.Prelude.{◌≡◌, ℕ, ◌+◌, ◌<◌, ◌≤◌, [], ◌∷◌, map, length, IfOk, MatchResult};
ghost use Rattle.forms.specs.Forms.{number};
ghost use Rattle.forms.specs.Sections.{got, outside, piece, section, then};
ghost use Rattle.plans.specs.Faults.{number_of};
ghost use Rattle.plans.specs.Layout.{node};
ghost use Rattle.plans.specs.Reader.{clocks, numbers, nodes, is_third, node_fault, read_plan};
ghost use Rattle.plans.specs.Views.{Filled, RowOf, SlotOf, Slotted, SlotsBelow, answer_of, judged_as, node_of, read_as, refused_as};

use forms::NumberFault;
use timestamps::Timestamp;

// A node entry, with the numbers of the file: no enums, since it is judged once it is read, and the definitions judge it by number.
#[derive(Clone, Copy, PartialEq, Eq, Default)]
pub struct Node {
    pub operator: u64,
    pub context: u64,
    pub left: u64,
    pub middle: u64,
    pub third: u64,
}

impl Node {
    // Operators.
    pub const OR: u64 = 1;

    pub const AND: u64 = 2;

    pub const SEQ: u64 = 3;

    pub const APERIODIC: u64 = 4;

    pub const ACCUMULATED: u64 = 5;

    pub const ABSENCE: u64 = 6;
    // The first and the last context.
    pub const RECENT: u64 = 1;

    pub const CUMULATIVE: u64 = 4;
    // An input is the place of a kind, or this and the place of an earlier node.
    pub const FIRST_NODE: u64 = 32768;
    // Stands as the third input of OR, AND and SEQ.
    pub const NO_INPUT: u64 = 65535;
    // Its bytes in the file.
    const WIDTH: usize = 8;
}

// Why a plan is turned back, by document 01's number.
#[derive(Clone, Copy, PartialEq, Eq)]
pub enum PlanFault {
    CutShort = 1,
    ClockCount = 2,
    Ratio = 3,
    LoggerCount = 4,
    LoggerNumber = 5,
    KindCount = 6,
    KindNumber = 7,
    NodeCount = 8,
    Operator = 9,
    Context = 10,
    Input = 11,
    BytesRemain = 12,
    ThirdInput = 41,
}

impl PlanFault {
    pub fn number(self) -> u64
        ensures { result ≡ number_of self }
    {
        self as u64
    }

    fn at(self, place: usize) -> PlanRefusal
        ensures { result ≡ record { fault = self; place = place } }
    {
        PlanRefusal { fault: self, place }
    }
}

// A plan that is turned back: why, and the place of the count or entry.
#[derive(Clone, Copy, PartialEq, Eq)]
pub struct PlanRefusal {
    pub fault: PlanFault,
    pub place: usize,
}

// What a plan is read into: its loggers' and its kinds' numbers, and a row for each node.
pub type Loggers = [u16; 8];

pub type Kinds = [u16; 32];

// A node as it is kept: the slots are those of its inputs, left, middle and third.
#[derive(Clone, Copy, Debug, PartialEq, Eq, PartialOrd, Ord, Hash, Default)]
pub struct NodeRow {
    pub operator: u16,
    pub context: u16,
    pub slots: [u16; 3],
}

// An input's slot is the place of a kind, or NODE_SLOTS and the place of an earlier node; NO_SLOT where there is none: no Option,
// since a row holds that slot too, as `SlotOf` has it.
const NO_SLOT: u16 = 33;

const NODE_SLOTS: u16 = 34;

pub type Nodes = [NodeRow; 16];

// A plan: its ratio, and how many loggers, kinds and nodes there are in front of the arrays that were lent.
#[derive(Clone, Copy, PartialEq, Eq)]
pub struct PlanRead {
    pub ratio: u64,
    pub logger_count: usize,
    pub kind_count: usize,
    pub node_count: usize,
}

// What is read, or how many of it, and the place after it.
type Reading<T> = Result<(T, usize), PlanRefusal>;

// A number from low to high, or the fault `wrong`.
fn read_number(
    bytes: &[u8],
    at: usize,
    width: usize,
    low: u64,
    high: u64,
    wrong: PlanFault,
) -> Reading<u64>
    requires { (1 ≤ width) × (width ≤ 8) }
    ensures is { read_as result
        ≡ piece (number width) (number_of PlanFault.CutShort) (outside low high (number_of wrong)) bytes.now at }
    ensures most { IfOk result (λ r. r.0 ≤ high) }
{
    match forms::read_number(bytes, at, width, low, high) {
        Ok(value) => Ok((value, at + width)),
        Err(NumberFault::CutShort) => Err(PlanFault::CutShort.at(at)),
        Err(NumberFault::Outside) => Err(wrong.at(at)),
    }
}

// ---- clocks
fn read_clocks(bytes: &[u8], start: usize) -> Reading<u64>
    ensures { then (read_as result) (λ ratio next. got (ratio ∷ []) next) ≡ section clocks bytes.now start }
{
    let (_, at) = read_number(bytes, start, 2, 1, 1, PlanFault::ClockCount)?;
    read_number(bytes, at, 4, 1, Timestamp::MAX_RATIO, PlanFault::Ratio)
}

// ---- loggers and kinds: numbers, each above the one before
fn read_numbers<const N: usize>(
    bytes: &[u8],
    start: usize,
    into: &mut [u16; N],
    miscount: PlanFault,
    disorder: PlanFault,
) -> Reading<usize>
    ensures { Filled (numbers N (number_of miscount) (number_of disorder)) bytes.now start result into.new }
{
    let (count, mut at) = read_number(bytes, start, 2, 1, N as u64, miscount)?;
    let count = count as usize;
    let mut least: u64 = 0;
    for entry in &mut into[..count] {
        let (n, next) = read_number(bytes, at, 2, least, 65535, disorder)?;
        *entry = n as u16;
        least = n + 1;
        at = next;
    }
    Ok((count, at))
}

// ---- nodes
// An input's slot under so many kinds: the place of a kind, past the kinds for an earlier node; NO_SLOT where it is not allowed.
fn slot_of(kinds: usize, place: usize, input: u64) -> u16
    requires { (kinds ≤ 32) × (place < 16) }
    ensures { SlotOf kinds place input result }
{
    if input < kinds as u64 {
        return input as u16;
    }
    if input < Node::FIRST_NODE {
        return NO_SLOT;
    }
    let earlier = input - Node::FIRST_NODE;
    if earlier < place as u64 {
        earlier as u16 + NODE_SLOTS
    } else {
        NO_SLOT
    }
}

// The row of a node at a place.
fn row_of(n: Node, kinds: usize, place: usize) -> NodeRow
    requires { (kinds ≤ 32) × (place < 16) × node.fits n }
    ensures { RowOf kinds place n result }
{
    NodeRow {
        operator: n.operator as u16,
        context: n.context as u16,
        slots: [
            slot_of(kinds, place, n.left),
            slot_of(kinds, place, n.middle),
            slot_of(kinds, place, n.third),
        ],
    }
}

// OR, AND and SEQ have no third input, the others have one.
fn is_third(node: Node, slot: u16) -> bool
    ensures { (kinds place : ℕ) → SlotOf kinds place node.third slot → result ≡ is_third kinds place node }
{
    if node.operator <= Node::SEQ {
        node.third == Node::NO_INPUT
    } else {
        slot != NO_SLOT
    }
}

// The inputs are judged by their slots.
fn judge_node(node: Node, row: &NodeRow) -> Result<(), PlanFault>
    ensures { (kinds place : ℕ) → RowOf kinds place node row.now → judged_as result ≡ node_fault kinds place node }
{
    if !forms::is_within(node.operator, Node::OR, Node::ABSENCE) {
        return Err(PlanFault::Operator);
    }
    if !forms::is_within(node.context, Node::RECENT, Node::CUMULATIVE) {
        return Err(PlanFault::Context);
    }
    let [left, middle, third] = row.slots;
    if left == NO_SLOT || middle == NO_SLOT {
        return Err(PlanFault::Input);
    }
    if !is_third(node, third) {
        return Err(PlanFault::ThirdInput);
    }
    Ok(())
}

// The entry at a place.
fn node_at(bytes: &[u8], at: usize) -> Node
    requires { at + 8 ≤ length bytes.now }
    ensures { (result ≡ node.value bytes.now at) × node.fits result }
{
    Node {
        operator: forms::number_at(bytes, at, 1),
        context: forms::number_at(bytes, at + 1, 1),
        left: forms::number_at(bytes, at + 2, 2),
        middle: forms::number_at(bytes, at + 4, 2),
        third: forms::number_at(bytes, at + 6, 2),
    }
}

// Reads a node into the row that is lent, and gives the place after it. After a fault the row says nothing.
fn read_node(
    bytes: &[u8],
    at: usize,
    kinds: usize,
    place: usize,
    row: &mut NodeRow,
) -> Result<usize, PlanRefusal>
    requires { (kinds ≤ 32) × (place < 16) }
    ensures { MatchResult result
        (λ next. (got (node_of row.new) next ≡ piece node (number_of PlanFault.CutShort) (node_fault kinds place) bytes.now at)
        × SlotsBelow place row.new)
        (λ r. refused_as r ≡ piece node (number_of PlanFault.CutShort) (node_fault kinds place) bytes.now at) }
{
    if forms::left(bytes, at) < Node::WIDTH {
        return Err(PlanFault::CutShort.at(at));
    }
    let node = node_at(bytes, at);
    *row = row_of(node, kinds, place);
    if let Err(fault) = judge_node(node, row) {
        return Err(fault.at(at));
    }
    Ok(at + Node::WIDTH)
}

fn read_nodes(bytes: &[u8], start: usize, kinds: usize, into: &mut Nodes) -> Reading<usize>
    requires { kinds ≤ 32 }
    ensures filled { Filled (nodes kinds) bytes.now start result (map node_of into.new) }
    ensures slotted { IfOk result (λ r. Slotted r.0 into.new) }
{
    let (count, mut at) = read_number(bytes, start, 2, 1, into.len() as u64, PlanFault::NodeCount)?;
    let count = count as usize;
    // By index: each turn needs the place itself and the row there.
    for place in 0..count {
        at = read_node(bytes, at, kinds, place, &mut into[place])?;
    }
    Ok((count, at))
}

// ---- the whole file
// Reads a plan into the arrays that are lent.
pub fn read_plan(
    bytes: &[u8],
    loggers: &mut Loggers,
    kinds: &mut Kinds,
    nodes: &mut Nodes,
) -> Result<PlanRead, PlanRefusal>
    ensures answer { answer_of result loggers.new kinds.new nodes.new ≡ read_plan bytes.now }
    ensures counts { IfOk result (λ r. (r.logger_count ≤ 8) × (r.kind_count ≤ 32) × (r.node_count ≤ 16)) }
    ensures slotted { IfOk result (λ r. Slotted r.node_count nodes.new) }
{
    let (ratio, at) = read_clocks(bytes, 0)?;
    let (logger_count, at) = read_numbers(
        bytes,
        at,
        loggers,
        PlanFault::LoggerCount,
        PlanFault::LoggerNumber,
    )?;
    let (kind_count, at) = read_numbers(
        bytes,
        at,
        kinds,
        PlanFault::KindCount,
        PlanFault::KindNumber,
    )?;
    let (node_count, at) = read_nodes(bytes, at, kind_count, nodes)?;
    if at < bytes.len() {
        return Err(PlanFault::BytesRemain.at(at));
    }
    Ok(PlanRead {
        ratio,
        logger_count,
        kind_count,
        node_count,
    })
}
