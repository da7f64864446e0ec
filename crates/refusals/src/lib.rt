// The refusals of the register: why a call is sent back.
#![tactic(auto)]

ghost use Rattle.std.specs.Prelude.{◌≡◌};
ghost use Rattle.refusals.specs.Refusals.{number_of};

// Document 01's "Notices sent back", and those of document 02 from 17 on, in the order of their numbers.
#[derive(Clone, Copy, Debug, PartialEq, Eq)]
pub enum Refusal {
    Unsound = 1,
    OutOfRange = 2,
    NoHolidayList = 3,
    UnknownMirn = 4,
    MirnOpen = 5,
    DaysOfOtherKind = 6,
    NotAppendDay = 7,
    OffDay = 8,
    Unconfirmed = 9,
    RequestPending = 10,
    NoRequest = 11,
    LatestUser = 12,
    PeriodOutside = 13,
    CannotSwitch = 14,
    NoWeight = 15,
    Full = 16,
    BrokenBlock = 17,
    OtherState = 18,
    ReserveAtStake = 19,
    DayNotPermitted = 20,
    UserUnchanged = 21,
    OtherEditionFull = 22,
}

// The number of a refusal.
impl From<Refusal> for u64 {
    ghost from_gives = { λ refusal n. n ≡ number_of refusal };

    fn from(refusal: Refusal) -> u64 {
        refusal as u64
    }
}
