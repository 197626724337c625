// What a call answers: the papers' report, and what its ending can be.
ghost use Rattle.std.specs.Prelude.{◌≡◌, cond, Ok, Err, [], ◌∷◌};
ghost use Rattle.operation.specs.Numbers.{ending_number, number_of};

// Why a run ended.
#[derive(Clone, Copy, PartialEq, Eq)]
pub enum Ending {
    End = 0,
    Exit = 1,
    Budget = 2,
    Leak = 31,
    Bounds = 32,
    Zero = 33,
    Log = 34,
    LeakAhead = 35,
}

impl Ending {
    pub fn number(self) -> u64
        ensures { result ≡ ending_number self }
    {
        self as u64
    }
}

// Why nothing ran: the settings or the lent buffers, the rules of an operation from Head to Target, or the start. A call of the C
// interface that computes one value may also name a divisor of zero.
#[derive(Clone, Copy, PartialEq, Eq)]
pub enum Refusal {
    Setting = 10,
    Length = 11,
    Label = 12,
    Head = 21,
    Shape = 22,
    Place = 23,
    Range = 24,
    Size = 25,
    Target = 26,
    Start = 27,
    Zero = 33,
}

impl Refusal {
    // Refuses by this, unless a test holds.
    pub fn unless(self, holds: bool) -> Result<(), Refusal>
        ensures { result ≡ cond holds (Ok tt) (Err self) }
    {
        if holds { Ok(()) } else { Err(self) }
    }

    pub fn number(self) -> u64
        ensures { result ≡ number_of self }
    {
        self as u64
    }
}

// Numbers of a report.
pub const REPORT_NUMBERS: usize = 5;

// Numbers: they are the words of a C report, and definitions and theorems speak of them.
#[derive(Clone, Copy)]
pub struct Report {
    pub ending: u64,
    pub index: u64,
    pub executed: u64,
    pub logged: u64,
    pub value: u64,
}

// A report in its numbers.
impl From<Report> for [u64; REPORT_NUMBERS] {
    ghost from_gives = { λ r numbers. numbers ≡ r.ending ∷ r.index ∷ r.executed ∷ r.logged ∷ r.value ∷ [] };

    fn from(r: Report) -> [u64; REPORT_NUMBERS] {
        [r.ending, r.index, r.executed, r.logged, r.value]
    }
}

// Why nothing ran, and at which operation: index 0, but for an operation that breaks a rule.
#[derive(Clone, Copy)]
pub struct Refused {
    pub why: Refusal,
    pub index: u64,
}

impl From<Refusal> for Refused {
    ghost from_gives = { λ why r. r ≡ record { why = why; index = 0 } };

    fn from(why: Refusal) -> Refused {
        Refused { why, index: 0 }
    }
}

impl From<Refused> for Report {
    ghost from_gives = { λ r report. report ≡ record { ending = number_of r.why; index = r.index; executed = 0; logged = 0; value = 0 } };

    fn from(refused: Refused) -> Report {
        Report {
            ending: refused.why.number(),
            index: refused.index,
            executed: 0,
            logged: 0,
            value: 0,
        }
    }
}

// The report of a run that has executed operations and written log words.
pub fn run_report(ending: u64, index: usize, executed: u64, logged: usize, value: u64) -> Report
    ensures { result ≡ record { ending = ending; index = index; executed = executed; logged = logged; value = value } }
{
    Report {
        ending,
        index: index as u64,
        executed,
        logged: logged as u64,
        value,
    }
}
