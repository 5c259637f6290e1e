// The values of an element and its argument. Whatever a value does not use is zero.

// A level in one unit: 0 feet (tens), 1 metres, 2 flight level, 3 metric flight level (tens of metres).
// Feet and metres, which may be below zero, are counted from the lowest that the type has: -60 and -30.
#[derive(Clone, Copy, PartialEq, Eq)]
pub struct LevelType {
    pub unit: u8,
    pub number: u16,
}

// A level, or the two between which a block lies.
#[derive(Clone, Copy, PartialEq, Eq)]
pub struct Level {
    pub block: bool,
    pub first: LevelType,
    pub second: LevelType,
}

#[derive(Clone, Copy, PartialEq, Eq)]
pub struct Time {
    pub hours: u8,
    pub minutes: u8,
}

// An element and its argument. The characters of an argument stand in a text beside the message; a place holds how many are its own.
#[derive(Clone, Copy)]
pub struct Element {
    pub number: u8,
    pub level: Level,
    pub other: Level,
    pub time: Time,
    pub code: [u8; 4],
    pub characters: u64,
}

impl LevelType {
    // The four units of the CHOICE, 0 to 3.
    pub const LAST_UNIT: u64 = 3;
    // The range of each unit: Doc 9705 2.3.4.3, LevelFeet, LevelMeters, LevelFlightLevel, LevelFlightLevelMetric.
    pub const LOWEST: [u64; 4] = [0, 0, 30, 100];

    pub const HIGHEST: [u64; 4] = [7060, 25030, 700, 2500];

    pub const EMPTY: LevelType = LevelType { unit: 0, number: 0 };
}

impl Level {
    // The index of the CHOICE, and the unit.
    pub const FRONT_BITS: usize = 3;

    pub const EMPTY: Level = Level {
        block: false,
        first: LevelType::EMPTY,
        second: LevelType::EMPTY,
    };
}

impl Time {
    // Timehours (0..23), Timeminutes (0..59).
    pub const LAST_HOUR: u64 = 23;

    pub const LAST_MINUTE: u64 = 59;

    pub const EMPTY: Time = Time {
        hours: 0,
        minutes: 0,
    };
}

impl Element {
    // CodeOctalDigit (0..7).
    pub const LAST_DIGIT: u64 = 7;

    pub const CODE_BITS: usize = 12;
    // IA5String: the characters are 0 to 127, in seven bits each.
    pub const CHARACTER_BITS: usize = 7;

    pub const LAST_CHARACTER: u64 = 127;
    // FreeText: IA5String (SIZE (1..256)).
    pub const FREE_TEXT_LEAST: u64 = 1;

    pub const FREE_TEXT_MOST: u64 = 256;
    // FacilityDesignation: IA5String (SIZE (4..8)).
    pub const DESIGNATION_LEAST: u64 = 4;

    pub const DESIGNATION_MOST: u64 = 8;

    pub const EMPTY: Element = Element {
        number: 0,
        level: Level::EMPTY,
        other: Level::EMPTY,
        time: Time::EMPTY,
        code: [0; 4],
        characters: 0,
    };
}
