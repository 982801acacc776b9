// Why something is refused: all causes, once for the whole library.
ghost use Rattle.std.specs.Prelude.{◌≡◌};
ghost use Rattle.sheet.specs.Told.{number_of};

// A fault's number is the one that callers are told, as specs/Refusal.antt has it.
#[derive(Clone, Copy, PartialEq, Eq)]
pub enum Fault {
    TextShape = 1,
    NotWhole = 2,
    SheetTooLong = 3,
    ScriptTooLong = 4,
    NoRoom = 5,
    KindUnknown = 6,
    SpareUsed = 7,
    NotEarlier = 8,
    RangeBroken = 9,
    BoundTwice = 10,
    BoundFree = 11,
    LineUnknown = 12,
    EnterNotFree = 13,
    EnterValue = 14,
    EnteredTwice = 15,
    NothingEntered = 16,
    NoEntryThere = 17,
    QuestionBroken = 18,
    QuestionTooLarge = 19,
    InputAndGauge = 22,
    GaugeBound = 23,
    EnterDesk = 24,
    NormalNoRoom = 25,
    OtherForm = 29,
    WideNoRoom = 31,
}

impl Fault {
    pub fn number(self) -> u8
        ensures { result ≡ number_of self }
    {
        self as u8
    }
}

// A refusal: its fault, and the frame that it is told at.
#[derive(Clone, Copy, PartialEq, Eq)]
pub struct Refused {
    pub fault: Fault,
    pub place: u16,
}

// A fault of no frame is told at place 0.
impl From<Fault> for Refused {
    ghost from_gives = { λ fault refused. (refused.fault ≡ fault) × (refused.place ≡ 0) };

    fn from(fault: Fault) -> Refused {
        Refused { fault, place: 0 }
    }
}
