// Quantities of a network, each a type of its own. Cells measure area: a weight, the capacity M, a sum of weights.
// Ticks measure time: a delay, a label, a pull, the hop delay D. No function here takes one of each, so an area is
// never added to or compared with a time [W4]; their methods have one shape, and one function for both would take either.
// Nor is there a `From` that makes one of a bare number: where a number becomes an area or a time, the code names it.
// Gate numbers and fan-in counts are the two plain numbers with a ceiling.
// Each of the four ceilings stands once, on the type that it bounds; the type's maker refuses what lies above it.
#![tactic(auto)]

ghost use Rattle.std.specs.Prelude.{◌≡◌};
ghost use Rattle.units.specs.Units.{
  weighed,
  delayed,
  numbered,
  counted,
  area_sum,
  time_sum,
  larger_of,
  fits,
  exceeds,
  weight_place,
  capacity_place,
  delay_place,
  label_place,
  count_place,
};

// An area, in cells.
#[derive(Clone, Copy, PartialEq, Eq, PartialOrd, Ord)]
pub struct Cells(pub u64);

impl Cells {
    // What the two bytes of a gate frame's weight can say.
    pub const MOST_WEIGHT: u64 = 65_535;

    // The weight x, unless it is above the ceiling.
    pub fn weight(x: u64) -> Option<Cells>
        ensures { result ≡ weighed x }
    {
        (x <= Self::MOST_WEIGHT).then_some(Cells(x))
    }

    // Both areas together, held at the largest number of 64 bits.
    pub fn plus(self, other: Cells) -> Cells
        ensures { result.0 ≡ area_sum self other }
    {
        Cells(self.0.saturating_add(other.0))
    }

    // Whether this area is at most that capacity.
    pub fn within(self, capacity: Cells) -> bool
        ensures { result ≡ fits self capacity }
    {
        self <= capacity
    }

    // This area as a place of a weight row holds it.
    pub fn weight_place(self) -> u16
        ensures { result ≡ weight_place self }
    {
        let Cells(cells) = self;
        u16::try_from(cells).unwrap_or(u16::MAX)
    }

    // This area as the 32 bits of a capacity hold it.
    pub fn capacity_place(self) -> u32
        ensures { result ≡ capacity_place self }
    {
        let Cells(cells) = self;
        u32::try_from(cells).unwrap_or(u32::MAX)
    }
}

// A time, in ticks.
#[derive(Clone, Copy, PartialEq, Eq, PartialOrd, Ord)]
pub struct Ticks(pub u64);

impl Ticks {
    // What the two bytes of a gate frame's delay can say.
    pub const MOST_DELAY: u64 = 65_535;

    // The delay x, unless it is above the ceiling.
    pub fn delay(x: u64) -> Option<Ticks>
        ensures { result ≡ delayed x }
    {
        (x <= Self::MOST_DELAY).then_some(Ticks(x))
    }

    // One time after the other, held at the largest number of 64 bits.
    pub fn plus(self, other: Ticks) -> Ticks
        ensures { result.0 ≡ time_sum self other }
    {
        Ticks(self.0.saturating_add(other.0))
    }

    // The larger of two times.
    pub fn larger(self, other: Ticks) -> Ticks
        ensures { result.0 ≡ larger_of self other }
    {
        self.max(other)
    }

    // Whether this time is larger than the other, and not equal to it.
    pub fn above(self, other: Ticks) -> bool
        ensures { result ≡ exceeds self other }
    {
        other < self
    }

    // This time as a place of a delay row, or the 16 bits of a hop delay, hold it.
    pub fn delay_place(self) -> u16
        ensures { result ≡ delay_place self }
    {
        let Ticks(ticks) = self;
        u16::try_from(ticks).unwrap_or(u16::MAX)
    }

    // This time as a place of a row of labels, or the 32 bits of an output delay, hold it.
    pub fn label_place(self) -> u32
        ensures { result ≡ label_place self }
    {
        let Ticks(ticks) = self;
        u32::try_from(ticks).unwrap_or(u32::MAX)
    }
}

// The number of a gate, counted from 0 in the order of the text.
#[derive(Clone, Copy)]
pub struct GateNumber(pub usize);

impl GateNumber {
    // A network has at most so many gates [B1], and their numbers are those below it.
    pub const MOST_GATES: usize = 512;

    // The gate number x, unless no network has a gate of that number.
    pub fn new(x: usize) -> Option<GateNumber>
        ensures { result ≡ numbered x }
    {
        (x < Self::MOST_GATES).then_some(GateNumber(x))
    }
}

// A place for each gate that a network can have.
pub type PerGate<T> = [T; GateNumber::MOST_GATES];

// How many fan-ins a gate has.
#[derive(Clone, Copy)]
pub struct FanInCount(pub usize);

impl FanInCount {
    // A gate has at most so many fan-ins [B2].
    pub const MOST: usize = 8;

    // The fan-in count x, unless it is above the ceiling.
    pub fn new(x: usize) -> Option<FanInCount>
        ensures { result ≡ counted x }
    {
        (x <= Self::MOST).then_some(FanInCount(x))
    }

    // This count as a place of a count row holds it.
    pub fn count_place(self) -> u8
        ensures { result ≡ count_place self }
    {
        u8::try_from(self.0).unwrap_or(u8::MAX)
    }
}
