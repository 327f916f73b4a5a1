// Why a call refuses, and where (Spec 10): each reason by name, and the number that it has for those who go by numbers.
#![tactic(auto)]

ghost use Rattle.std.specs.Prelude.{◌≡◌};
ghost use Rattle.refusal.specs.Reasons.{number_of};

// The reasons in the order of their numbers, from 1 on.
#[derive(Clone, Copy, PartialEq, Eq)]
pub enum Reason {
    Sizes = 1,
    Amounts = 2,
    Method = 3,
    TooManySteps = 4,
    Room = 5,
    Length = 6,
    Edition = 7,
    Filling = 8,
    EmptyOperand = 9,
    LateOperand = 10,
    OperandOrder = 11,
    Output = 12,
    Exponent = 13,
    Payslip = 14,
    Modulus = 15,
    Bases = 16,
    Columns = 17,
    Field = 18,
    Minus = 19,
    Unpackable = 20,
}

impl Reason {
    // The number that a call returns.
    pub fn number(self) -> u32
        ensures { result ≡ number_of self }
    {
        self as u32
    }
}

// A reason, and the place that it is found at, counted from 1; 0 where it has none.
#[derive(Clone, Copy, PartialEq, Eq)]
pub struct Refusal {
    pub reason: Reason,
    pub place: usize,
}

// A refusal that has no place.
impl From<Reason> for Refusal {
    ghost from_gives = { λ reason r. r ≡ record { reason = reason; place = 0 } };

    fn from(reason: Reason) -> Refusal {
        Refusal { reason, place: 0 }
    }
}
