// The argument kind of a message element, by direction and element number (Doc 9705 2.3.4.3).
#![tactic(auto)]

ghost use Rattle.std.specs.Prelude.{◌≡◌, ◌<◌, length};
ghost use Rattle.kinds.specs.Elements.{rows, kind_at, kind_of};

// Which way a message goes: a downlink from the aircraft, an uplink to it.
#[derive(Clone, Copy)]
pub enum Direction {
    Downlink,
    Uplink,
}

impl Direction {
    // The alternatives of ATCDownlinkMsgElementId and of ATCUplinkMsgElementId (Doc 9705 2.3.4.3).
    pub const DOWNLINK_ROWS: usize = 114;

    pub const UPLINK_ROWS: usize = 238;
    // The last index before the extension marker: uM237 stands behind it.
    pub const DOWNLINK_LAST: u64 = 113;

    pub const UPLINK_LAST: u64 = 236;
}

// What an element carries: a kind of argument that document 01 lists, or one that is not carried.
#[derive(Clone, Copy)]
pub enum ArgumentKind {
    NotCarried,
    None,
    Level,
    TwoLevels,
    Time,
    Code,
    FreeText,
    Facility,
    FacilityDesignation,
    AtisCode,
}

// The kinds in their order; a row of the table is a place in this list.
const LISTED: [ArgumentKind; 10] = [
    ArgumentKind::NotCarried,
    ArgumentKind::None,
    ArgumentKind::Level,
    ArgumentKind::TwoLevels,
    ArgumentKind::Time,
    ArgumentKind::Code,
    ArgumentKind::FreeText,
    ArgumentKind::Facility,
    ArgumentKind::FacilityDesignation,
    ArgumentKind::AtisCode,
];

// The table: a row for each element, the downlink rows from dM0, then the uplink rows from uM0.
const ROWS: [u8; 352] = [
    1, // dM0NULL
    1, // dM1NULL
    1, // dM2NULL
    1, // dM3NULL
    1, // dM4NULL
    1, // dM5NULL
    2, // dM6Level
    3, // dM7LevelLevel
    2, // dM8Level
    2, // dM9Level
    2, // dM10Level
    0, // dM11PositionLevel
    0, // dM12PositionLevel
    0, // dM13TimeLevel
    0, // dM14TimeLevel
    0, // dM15DistanceSpecifiedDirection
    0, // dM16PositionDistanceSpecifiedDirection
    0, // dM17TimeDistanceSpecifiedDirection
    0, // dM18Speed
    0, // dM19SpeedSpeed
    1, // dM20NULL
    0, // dM21Frequency
    0, // dM22Position
    0, // dM23ProcedureName
    0, // dM24RouteClearance
    0, // dM25ClearanceType
    0, // dM26PositionRouteClearance
    0, // dM27DistanceSpecifiedDirection
    2, // dM28Level
    2, // dM29Level
    2, // dM30Level
    0, // dM31Position
    2, // dM32Level
    0, // dM33Position
    0, // dM34Speed
    0, // dM35Degrees
    0, // dM36Degrees
    2, // dM37Level
    2, // dM38Level
    0, // dM39Speed
    0, // dM40RouteClearance
    1, // dM41NULL
    0, // dM42Position
    4, // dM43Time
    0, // dM44Position
    0, // dM45Position
    4, // dM46Time
    5, // dM47Code
    0, // dM48PositionReport
    0, // dM49Speed
    0, // dM50SpeedSpeed
    1, // dM51NULL
    1, // dM52NULL
    1, // dM53NULL
    2, // dM54Level
    1, // dM55NULL
    1, // dM56NULL
    0, // dM57RemainingFuelPersonsOnBoard
    1, // dM58NULL
    0, // dM59PositionRouteClearance
    0, // dM60DistanceSpecifiedDirection
    2, // dM61Level
    0, // dM62ErrorInformation
    1, // dM63NULL
    8, // dM64FacilityDesignation
    1, // dM65NULL
    1, // dM66NULL
    6, // dM67FreeText
    6, // dM68FreeText
    1, // dM69NULL
    0, // dM70Degrees
    0, // dM71Degrees
    2, // dM72Level
    0, // dM73Versionnumber
    1, // dM74NULL
    1, // dM75NULL
    3, // dM76LevelLevel
    3, // dM77LevelLevel
    0, // dM78TimeDistanceToFromPosition
    9, // dM79AtisCode
    0, // dM80DistanceSpecifiedDirection
    0, // dM81LevelTime
    2, // dM82Level
    0, // dM83SpeedTime
    0, // dM84Speed
    0, // dM85DistanceSpecifiedDirectionTime
    0, // dM86DistanceSpecifiedDirection
    2, // dM87Level
    2, // dM88Level
    0, // dM89UnitnameFrequency
    6, // dM90FreeText
    6, // dM91FreeText
    6, // dM92FreeText
    6, // dM93FreeText
    6, // dM94FreeText
    6, // dM95FreeText
    6, // dM96FreeText
    6, // dM97FreeText
    6, // dM98FreeText
    1, // dM99NULL
    1, // dM100NULL
    1, // dM101NULL
    1, // dM102NULL
    1, // dM103NULL
    0, // dM104PositionTime
    0, // dM105Airport
    2, // dM106Level
    1, // dM107NULL
    1, // dM108NULL
    4, // dM109Time
    0, // dM110Position
    0, // dM111TimePosition
    1, // dM112NULL
    0, // dM113SpeedTypeSpeedTypeSpeedTypeSpeed
    1, // uM0NULL
    1, // uM1NULL
    1, // uM2NULL
    1, // uM3NULL
    1, // uM4NULL
    1, // uM5NULL
    2, // uM6Level
    4, // uM7Time
    0, // uM8Position
    4, // uM9Time
    0, // uM10Position
    4, // uM11Time
    0, // uM12Position
    0, // uM13TimeLevel
    0, // uM14PositionLevel
    0, // uM15TimeLevel
    0, // uM16PositionLevel
    0, // uM17TimeLevel
    0, // uM18PositionLevel
    2, // uM19Level
    2, // uM20Level
    0, // uM21TimeLevel
    0, // uM22PositionLevel
    2, // uM23Level
    0, // uM24TimeLevel
    0, // uM25PositionLevel
    0, // uM26LevelTime
    0, // uM27LevelPosition
    0, // uM28LevelTime
    0, // uM29LevelPosition
    3, // uM30LevelLevel
    3, // uM31LevelLevel
    3, // uM32LevelLevel
    1, // uM33NULL
    2, // uM34Level
    2, // uM35Level
    2, // uM36Level
    2, // uM37Level
    2, // uM38Level
    2, // uM39Level
    1, // uM40NULL
    1, // uM41NULL
    0, // uM42PositionLevel
    0, // uM43PositionLevel
    0, // uM44PositionLevel
    0, // uM45PositionLevel
    0, // uM46PositionLevel
    0, // uM47PositionLevel
    0, // uM48PositionLevel
    0, // uM49PositionLevel
    0, // uM50PositionLevelLevel
    0, // uM51PositionTime
    0, // uM52PositionTime
    0, // uM53PositionTime
    0, // uM54PositionTimeTime
    0, // uM55PositionSpeed
    0, // uM56PositionSpeed
    0, // uM57PositionSpeed
    0, // uM58PositionTimeLevel
    0, // uM59PositionTimeLevel
    0, // uM60PositionTimeLevel
    0, // uM61PositionLevelSpeed
    0, // uM62TimePositionLevel
    0, // uM63TimePositionLevelSpeed
    0, // uM64DistanceSpecifiedDirection
    0, // uM65PositionDistanceSpecifiedDirection
    0, // uM66TimeDistanceSpecifiedDirection
    1, // uM67NULL
    0, // uM68Position
    4, // uM69Time
    0, // uM70Position
    4, // uM71Time
    1, // uM72NULL
    0, // uM73DepartureClearance
    0, // uM74Position
    0, // uM75Position
    0, // uM76TimePosition
    0, // uM77PositionPosition
    0, // uM78LevelPosition
    0, // uM79PositionRouteClearance
    0, // uM80RouteClearance
    0, // uM81ProcedureName
    0, // uM82DistanceSpecifiedDirection
    0, // uM83PositionRouteClearance
    0, // uM84PositionProcedureName
    0, // uM85RouteClearance
    0, // uM86PositionRouteClearance
    0, // uM87Position
    0, // uM88PositionPosition
    0, // uM89TimePosition
    0, // uM90LevelPosition
    0, // uM91HoldClearance
    0, // uM92PositionLevel
    4, // uM93Time
    0, // uM94DirectionDegrees
    0, // uM95DirectionDegrees
    1, // uM96NULL
    0, // uM97PositionDegrees
    0, // uM98DirectionDegrees
    0, // uM99ProcedureName
    0, // uM100TimeSpeed
    0, // uM101PositionSpeed
    0, // uM102LevelSpeed
    0, // uM103TimeSpeedSpeed
    0, // uM104PositionSpeedSpeed
    0, // uM105LevelSpeedSpeed
    0, // uM106Speed
    1, // uM107NULL
    0, // uM108Speed
    0, // uM109Speed
    0, // uM110SpeedSpeed
    0, // uM111Speed
    0, // uM112Speed
    0, // uM113Speed
    0, // uM114Speed
    0, // uM115Speed
    1, // uM116NULL
    0, // uM117UnitNameFrequency
    0, // uM118PositionUnitNameFrequency
    0, // uM119TimeUnitNameFrequency
    0, // uM120UnitNameFrequency
    0, // uM121PositionUnitNameFrequency
    0, // uM122TimeUnitNameFrequency
    5, // uM123Code
    1, // uM124NULL
    1, // uM125NULL
    1, // uM126NULL
    1, // uM127NULL
    2, // uM128Level
    2, // uM129Level
    0, // uM130Position
    1, // uM131NULL
    1, // uM132NULL
    1, // uM133NULL
    0, // uM134SpeedTypeSpeedTypeSpeedType
    1, // uM135NULL
    1, // uM136NULL
    1, // uM137NULL
    1, // uM138NULL
    1, // uM139NULL
    1, // uM140NULL
    1, // uM141NULL
    1, // uM142NULL
    1, // uM143NULL
    1, // uM144NULL
    1, // uM145NULL
    1, // uM146NULL
    1, // uM147NULL
    2, // uM148Level
    0, // uM149LevelPosition
    0, // uM150LevelTime
    0, // uM151Speed
    0, // uM152DistanceSpecifiedDirection
    0, // uM153Altimeter
    1, // uM154NULL
    0, // uM155Position
    1, // uM156NULL
    0, // uM157Frequency
    9, // uM158AtisCode
    0, // uM159ErrorInformation
    7, // uM160Facility
    1, // uM161NULL
    1, // uM162NULL
    8, // uM163FacilityDesignation
    1, // uM164NULL
    1, // uM165NULL
    0, // uM166TrafficType
    1, // uM167NULL
    1, // uM168NULL
    6, // uM169FreeText
    6, // uM170FreeText
    0, // uM171VerticalRate
    0, // uM172VerticalRate
    0, // uM173VerticalRate
    0, // uM174VerticalRate
    2, // uM175Level
    1, // uM176NULL
    1, // uM177NULL
    1, // uM178NULL
    1, // uM179NULL
    3, // uM180LevelLevel
    0, // uM181ToFromPosition
    1, // uM182NULL
    6, // uM183FreeText
    0, // uM184TimeToFromPosition
    0, // uM185PositionLevel
    0, // uM186PositionLevel
    6, // uM187FreeText
    0, // uM188PositionSpeed
    0, // uM189Speed
    0, // uM190Degrees
    1, // uM191NULL
    0, // uM192LevelTime
    1, // uM193NULL
    6, // uM194FreeText
    6, // uM195FreeText
    6, // uM196FreeText
    6, // uM197FreeText
    6, // uM198FreeText
    6, // uM199FreeText
    1, // uM200NULL
    1, // uM201NULL
    1, // uM202NULL
    6, // uM203FreeText
    6, // uM204FreeText
    6, // uM205FreeText
    6, // uM206FreeText
    6, // uM207FreeText
    6, // uM208FreeText
    0, // uM209LevelPosition
    0, // uM210Position
    1, // uM211NULL
    0, // uM212FacilityDesignationATISCode
    0, // uM213FacilityDesignationAltimeter
    0, // uM214RunwayRVR
    0, // uM215DirectionDegrees
    1, // uM216NULL
    1, // uM217NULL
    1, // uM218NULL
    2, // uM219Level
    2, // uM220Level
    0, // uM221Degrees
    1, // uM222NULL
    1, // uM223NULL
    1, // uM224NULL
    1, // uM225NULL
    4, // uM226Time
    1, // uM227NULL
    0, // uM228Position
    1, // uM229NULL
    1, // uM230NULL
    1, // uM231NULL
    1, // uM232NULL
    1, // uM233NULL
    1, // uM234NULL
    1, // uM235NULL
    1, // uM236NULL
    0, // uM237NULL
];

// The kind in a row of the table.
fn kind_at(row: usize) -> ArgumentKind
    requires { row < length rows }
    ensures { result ≡ kind_at row }
{
    LISTED[ROWS[row] as usize]
}

// The kind of an element's argument; a number that has no row is not carried.
#[tactic(auto, using(crate::proofs::Table::all_rows, crate::proofs::Table::downlink_rows, crate::proofs::Table::uplink_rows, crate::proofs::Table::downlink_kind, crate::proofs::Table::uplink_kind, crate::proofs::Table::no_row))]
pub fn kind_of(direction: Direction, number: u8) -> ArgumentKind
    ensures { result ≡ kind_of direction number }
{
    let row = number as usize;
    match direction {
        Direction::Downlink if row < Direction::DOWNLINK_ROWS => kind_at(row),
        Direction::Uplink if row < Direction::UPLINK_ROWS => kind_at(
            Direction::DOWNLINK_ROWS + row,
        ),
        _ => ArgumentKind::NotCarried,
    }
}
