// The entries of a finding that was read.
ghost use Rattle.std.specs.Prelude.{◌≡◌, ◌≤◌, length, take};

use detections::Stamp;

// At most 8 stamps: as many as the count says, from the front.
#[derive(Clone, Copy)]
pub struct Stamps {
    pub count: usize,
    pub slots: [Stamp; 8],
    ghost few: { count ≤ 8 },
}

impl Stamps {
    pub fn listed(&self) -> &[Stamp]
        ensures is { result.now ≡ take self.now.count self.now.slots }
        ensures few { length result.now ≤ 8 }
    {
        &self.slots[..self.count]
    }
}
