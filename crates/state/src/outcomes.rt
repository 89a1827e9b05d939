// What a call answers.
ghost use Rattle.std.specs.Prelude.{◌≡◌};
ghost use Rattle.state.specs.Outcomes.{number};

// The refusals, in the order of their numbers: paper 01's table, then those of paper 02. BadLine is a line's
// of a trace; no call meets it.
#[derive(Clone, Copy, PartialEq, Eq)]
pub enum Refusal {
    BufferLength,
    RecordRange,
    NoSuchTransaction,
    NotOpen,
    AlreadyOpen,
    NoSuchTarget,
    ReaderTooShort,
    SeekPastEnd,
    WritePastEnd,
    RecordsFull,
    LogFull,
    AppendPastEnd,
    Stale,
    NoSuchFile,
    NoPlaceYet,
    ListTooLong,
    BadLine,
    StaleReader,
    NotAtRest,
    ScriptRange,
    FileClosed,
    NoSuchMinute,
    StillOpen,
    NoGrant,
    NotReady,
    BadList,
    BadBudget,
}

// Their numbers in the paper go from 1 to this.
pub const REFUSALS: u8 = 27;

impl Refusal {
    // Its number in the paper.
    pub fn number(self) -> u8
        ensures { result ≡ number self }
    {
        match self {
            Refusal::BufferLength => 1,
            Refusal::RecordRange => 2,
            Refusal::NoSuchTransaction => 3,
            Refusal::NotOpen => 4,
            Refusal::AlreadyOpen => 5,
            Refusal::NoSuchTarget => 6,
            Refusal::ReaderTooShort => 7,
            Refusal::SeekPastEnd => 8,
            Refusal::WritePastEnd => 9,
            Refusal::RecordsFull => 10,
            Refusal::LogFull => 11,
            Refusal::AppendPastEnd => 12,
            Refusal::Stale => 13,
            Refusal::NoSuchFile => 14,
            Refusal::NoPlaceYet => 15,
            Refusal::ListTooLong => 16,
            Refusal::BadLine => 17,
            Refusal::StaleReader => 18,
            Refusal::NotAtRest => 19,
            Refusal::ScriptRange => 20,
            Refusal::FileClosed => 21,
            Refusal::NoSuchMinute => 22,
            Refusal::StillOpen => 23,
            Refusal::NoGrant => 24,
            Refusal::NotReady => 25,
            Refusal::BadList => 26,
            Refusal::BadBudget => 27,
        }
    }
}

// What a call that is not refused answers: plainly, an offset, a count of bytes given, the octet of those that
// a granted Commit made stale (bit t, worth 2 to the power t, for transaction t), a count of pairs, or an
// order's grants with the gap and the number of orders tried.
#[derive(Clone, Copy)]
pub enum Answer {
    Done,
    Offset(u16),
    Given(u16),
    Granted(u8),
    Pairs(u16),
    Ordered(u8, u8, u16),
}

// The result of a call.
pub type Outcome = Result<Answer, Refusal>;
