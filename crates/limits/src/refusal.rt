// Why a call or an input is refused. The numbers are fixed: sheets and hosts know refusals by them.
ghost use Rattle.limits.specs.Refusals.{number, refusal_number_of};
ghost use Rattle.std.specs.Prelude.{◌≡◌};

#[derive(Clone, Copy, PartialEq, Eq, Debug)]
pub enum Refusal {
    // Because of the input.
    ServerNumber = 1,
    Cap = 2,
    Load = 3,
    Period = 4,
    Limit = 5,
    AdvanceCount = 6,
    PlanSize = 7,
    RecordForm = 8,
    ActionBeforeServer = 9,
    NumberTwice = 11,
    ScriptForm = 12,
    NotInPlan = 13,
    InstantPastHorizon = 14,
    // Because of the state.
    NotAdmitted = 20,
    AlreadyAdmitted = 21,
    CapsExceedProcessor = 22,
    ActionAtWork = 23,
    LimitAboveCap = 24,
    ForecastPastHorizon = 25,
    ClockAtHorizon = 26,
    EntryAlreadyQueued = 27,
    TooLittleMemory = 28,
    MemoryFull = 29,
}

impl Refusal {
    // One cast: a `From` would only add an impl that says the same.
    pub fn number(self) -> u8
        ensures answer { result ≡ number self }
    {
        self as u8
    }
}

// The number of the refusal, 0 if there is none.
pub fn refusal_number<T>(answer: &Result<T, Refusal>) -> u8
    ensures answer { result ≡ refusal_number_of answer.now }
{
    answer.as_ref().err().map_or(0, |why| why.number())
}
