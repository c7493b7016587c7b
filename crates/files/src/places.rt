// Where the words of a body stand in its payload, counted from its first. Whoever reads or writes a scene goes by these.

// The words of a number, low and high.
pub const WIDE: u32 = 2;

// The age, behind 19 numbers.
pub const AGE: u32 = 38;

// The first of the seven words behind the age, of which the last, the cap, stands behind the two counts.
pub const WORDS: u32 = 40;

// How many states and boxes there are: two counts.
pub const STATES: u32 = 46;

pub const BOXES: u32 = 47;

pub const COUNTS: u32 = 2;

// Which of the numbers is the flap; which of the words say whether it is present, which state is air, and what the cap is.
pub const FLAP: u32 = 12;

pub const PRESENT: u32 = 4;

pub const AIR: u32 = 5;

pub const CAP: u32 = 6;

pub const FLAP_LOW: u32 = FLAP * WIDE;

pub const FLAP_HIGH: u32 = FLAP * WIDE + 1;

pub const PRESENT_AT: u32 = WORDS + PRESENT;

pub const AIR_AT: u32 = WORDS + AIR;
