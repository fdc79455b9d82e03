// Binary layouts: big-endian numbers of any width. The specification has forms, sections and their laws, for any file.
#![tactic(auto)]

ghost use Rattle.std.specs.Prelude.{◌≡◌, ◌+◌, ◌-◌, ◌≤◌, length};
ghost use Rattle.forms.specs.Bytes.{value_at};
ghost use Rattle.forms.specs.Sections.{within};
ghost use Rattle.forms.specs.Views.{number_read};

// Why a number is not read.
#[derive(Clone, Copy, PartialEq, Eq)]
pub enum NumberFault {
    // It is not complete.
    CutShort,
    // It is not from low to high.
    Outside,
}

// How many bytes there are from a place on.
pub fn left(bytes: &[u8], at: usize) -> usize
    ensures { result ≡ length bytes.now - at }
{
    bytes.len().saturating_sub(at)
}

// The number that `width` bytes make at a place.
pub fn number_at(bytes: &[u8], at: usize, width: usize) -> u64
    requires { (at + width ≤ length bytes.now) × (width ≤ 8) }
    ensures { result ≡ value_at width bytes.now at }
{
    let mut v: u64 = 0;
    for b in &bytes[at..at + width] {
        v = v * 256 + *b as u64;
    }
    v
}

pub fn is_within(v: u64, low: u64, high: u64) -> bool
    ensures { result ≡ within low high v }
{
    low <= v && v <= high
}

// The number that `width` bytes make at a place, if they are there and it is from low to high.
pub fn read_number(
    bytes: &[u8],
    at: usize,
    width: usize,
    low: u64,
    high: u64,
) -> Result<u64, NumberFault>
    requires { (1 ≤ width) × (width ≤ 8) }
    ensures { result ≡ number_read width low high bytes.now at }
{
    if left(bytes, at) < width {
        return Err(NumberFault::CutShort);
    }
    let v = number_at(bytes, at, width);
    if is_within(v, low, high) {
        Ok(v)
    } else {
        Err(NumberFault::Outside)
    }
}
