#![tactic(auto)]

// Works a passage under a plan, both from their files, and prints a line for each finding and one for the answer, in document
// 01's form. Of a file that cannot be read it says so on standard error, and prints nothing.
ghost use Rattle.std.specs.Prelude.{◌+◌, ◌*◌, ◌≤◌, ◌<◌, length, ◌≡◌, Ok, IfOk, IfSome};
ghost use Rattle.detections.specs.Writing.{Wrote};
ghost use Rattle.readings.specs.Views.{answer_of};
ghost use Rattle.event_sets.specs.Sets.{elements};
ghost use Rattle.listing.specs.Text.{space, number_text, stamp_text, listed, line_text, end_text};
ghost use Rattle.listing.specs.Pages.{Fills};

use detections::Stamp;
use event_sets::EventSet;
use readings::FindingRead;
use std::env::FillError;
use std::io::{Read, Write};
use std::rt::{Env, Files};
use std::{fs, io, str};
use working::Answer;

// A page with some lines: where they end, the place of the next finding, and how many are left.
#[derive(Clone, Copy)]
struct Filled {
    len: usize,
    next: usize,
    left: u64,
}

// No line begins past this place of a page. A line takes less than 3,072 bytes, even if each of its numbers had 20 digits, and
// the last line less than 100: both fit after it.
const LAST_START: usize = 13200;

// ---- text

// The text, from a place of the page on; the place after it.
fn put_text(page: &mut [u8], at: usize, text: &[u8]) -> usize
    requires { at + length text.now ≤ length page.old }
    ensures { Wrote page.old at text.now result page.new }
{
    let end = at + text.len();
    page[at..end].copy_from_slice(text);
    end
}

// A mark and the number in decimal.
fn put_number(page: &mut [u8], at: usize, separator: u8, n: u64) -> usize
    requires { at + 21 ≤ length page.old }
    ensures { Wrote page.old at (number_text separator n) result page.new × (at < result) × (result ≤ at + 21) }
{
    let mut digits = itoa::Buffer::new();
    page[at] = separator;
    put_text(page, at + 1, digits.format(n).as_bytes())
}

// A mark and the stamp, as 2:110.
fn put_stamp(page: &mut [u8], at: usize, separator: u8, s: Stamp) -> usize
    requires { at + 42 ≤ length page.old }
    ensures { Wrote page.old at (stamp_text separator s) result page.new × (at < result) × (result ≤ at + 42) }
{
    let a = put_number(page, at, separator, s.logger);
    put_number(page, a, b':', s.tick.0)
}

// The stamps: the first after a space, each other after a comma.
fn put_stamps(page: &mut [u8], at: usize, stamps: &[Stamp]) -> usize
    requires { at + 42 * length stamps.now ≤ length page.old }
    ensures { Wrote page.old at (listed stamp_text space stamps.now) result page.new × (at ≤ result) × (result ≤ at + 42 * length stamps.now) }
{
    let mut to = at;
    let mut separator = b' ';
    for s in stamps {
        to = put_stamp(page, to, separator, *s);
        separator = b',';
    }
    to
}

// The numbers of the events: the first after a space, each other after a comma.
fn put_events(page: &mut [u8], at: usize, events: EventSet) -> usize
    requires { at + 2688 ≤ length page.old }
    ensures { Wrote page.old at (listed number_text space (elements events)) result page.new × (at ≤ result) × (result ≤ at + 2688) }
{
    let mut to = at;
    let mut separator = b' ';
    let mut from = 0;
    // A loop over the members: an iterator of them would be the same loop, with a type and a proof of its own.
    while let Some(e) = event_sets::next_from(events, from) {
        to = put_number(page, to, separator, e as u64);
        separator = b',';
        from = e + 1;
    }
    to
}

// A finding's line, as: node 0 at 2:110 from 1,2
fn put_line(page: &mut [u8], at: usize, f: &FindingRead) -> usize
    requires { at + 3072 ≤ length page.old }
    ensures { Wrote page.old at (line_text (answer_of (Ok f.now)).finding) result page.new × (at < result) × (result ≤ at + 3072) }
{
    let a = put_text(page, at, b"node");
    let b = put_number(page, a, b' ', f.node);
    let c = put_text(page, b, b" at");
    let d = put_stamps(page, c, f.stamps.listed());
    let e = put_text(page, d, b" from");
    let g = put_events(page, e, f.events);
    put_text(page, g, b"\n")
}

// The last line, as: end 0 0 1 20
fn put_end(page: &mut [u8], at: usize, a: Answer) -> usize
    requires { at + 88 ≤ length page.old }
    ensures { Wrote page.old at (end_text a) result page.new × (result ≤ at + 88) }
{
    let b = put_text(page, at, b"end");
    let c = put_number(page, b, b' ', a.number);
    let d = put_number(page, c, b' ', a.place);
    let e = put_number(page, d, b' ', a.findings);
    let f = put_number(page, e, b' ', a.bytes);
    put_text(page, f, b"\n")
}

// ---- pages

// Lines for the findings from a place on, as many of those left as the page surely holds. Where no finding stands, none is left.
fn fill(page: &mut [u8], output: &[u8], from: usize, count: u64) -> Filled
    requires { length page.old ≡ 16384 }
    ensures { Fills output.now from count page.new result }
{
    let mut len = 0;
    let mut next = from;
    for done in 0..count {
        if len > LAST_START {
            return Filled {
                len,
                next,
                left: count - done,
            };
        }
        let Ok(f) = readings::read(output, next) else {
            return Filled { len, next, left: 0 };
        };
        len = put_line(page, len, &f);
        next = f.next;
    }
    Filled { len, next, left: 0 }
}

// Prints a page at a time; the last one ends with the answer.
fn print(rt: &impl Print, output: &[u8], answer: Answer) -> io::Result<()> {
    let mut page = [0u8; 16384];
    let mut filled = fill(&mut page, output, 0, answer.findings);
    // No `for`: how many pages there are shows as they are filled.
    while filled.left > 0 {
        rt.write_all(&page[..filled.len])?;
        filled = fill(&mut page, output, filled.next, filled.left);
    }
    let len = put_end(&mut page, filled.len, answer);
    rt.write_all(&page[..len])
}

// ---- files

// The system's numbers of an argument that is missing, longer than a path may be, or no text.
const MISSING: i32 = 22;

const TOO_LONG: i32 = 36;

const NO_TEXT: i32 = 84;

// Says on standard error what failed, and the system's words for why, without its number.
fn fail(rt: &impl Eprint, what: &str, error: io::Error) {
    let mut text = io::Cursor::new([0u8; 128]);
    let _ = write!(text, "{error}");
    let length = text.position().min(128) as usize;
    let bytes = text.into_inner();
    let whole = str::from_utf8(&bytes[..length]).unwrap_or("");
    let words = whole.split(" (os error ").next().unwrap_or("");
    let _ = eprintln!(rt; "{what}: {words}");
}

// Reads until the file ends or buf is full. A read that fails is no end. A while loop, since each read says how far it went.
fn read_file(file: &mut impl Read, buf: &mut [u8]) -> io::Result<usize>
    ensures { IfOk result (λ n. n ≤ length buf.new) }
{
    let mut count = 0;
    while count < buf.len() {
        match file.read(&mut buf[count..])? {
            0 => break,
            more => count += more,
        }
    }
    Ok(count)
}

// The text of argument i.
fn argument<'a>(rt: &impl Env, i: usize, text: &'a mut [u8]) -> io::Result<&'a str> {
    let length = match rt.arg(i, text) {
        Ok(length) => length,
        Err(FillError::NotPresent) => return Err(io::Error::from_raw_os_error(MISSING)),
        Err(FillError::TooLong) => return Err(io::Error::from_raw_os_error(TOO_LONG)),
    };
    str::from_utf8(&text[..length]).map_err(|_| io::Error::from_raw_os_error(NO_TEXT))
}

// Opens the file of that name, and reads it.
fn read_named(rt: &impl Files, name: &str, buf: &mut [u8]) -> io::Result<usize>
    ensures { IfOk result (λ n. n ≤ length buf.new) }
{
    let mut file = fs::open(rt, name)?;
    read_file(&mut file, buf)
}

// Reads the file that argument i names, or says why not.
fn read_argument(rt: &(impl Env + Files + Eprint), i: usize, buf: &mut [u8]) -> Option<usize>
    ensures { IfSome result (λ n. n ≤ length buf.new) }
{
    let mut path = [0u8; 4096];
    let name = match argument(rt, i, &mut path) {
        Ok(name) => name,
        Err(error) => {
            fail(rt, "argument", error);
            return None;
        }
    };
    match read_named(rt, name, buf) {
        Ok(count) => Some(count),
        Err(error) => {
            fail(rt, name, error);
            None
        }
    }
}

// Whether the program was started with an argument of that number; its own name is argument 0.
fn is_given(rt: &impl Env, i: usize) -> bool {
    let mut none = [0u8; 1];
    !matches!(rt.arg(i, &mut none), Err(FillError::NotPresent))
}

// Both files are read before anything is printed. A plan within the limits has at most 220 bytes and a passage at most 1,538, and
// the checks end at the first byte too many: what a longer file has after the bytes read here changes no answer.
fn main(rt: HostRuntime) {
    if !is_given(&rt, 2) || is_given(&rt, 3) {
        let _ = eprintln!(rt; "usage: listing PLAN PASSAGE");
        return;
    }
    let mut plan = [0u8; 256];
    let Some(plan_count) = read_argument(&rt, 1, &mut plan) else {
        return;
    };
    let mut passage = [0u8; 2048];
    let Some(passage_count) = read_argument(&rt, 2, &mut passage) else {
        return;
    };
    let mut output = [0u8; 32768];
    let answer = gateway::work(&plan[..plan_count], &passage[..passage_count], &mut output);
    if let Err(error) = print(&rt, &output, answer) {
        fail(&rt, "standard output", error);
    }
}
