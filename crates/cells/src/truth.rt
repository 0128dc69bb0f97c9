// The three truth values of SQL and their connectives.
ghost use Rattle.std.specs.Prelude.{◌≡◌};
ghost use Rattle.cells.specs.Truths.{not3, and3, or3, unknown3, truth_of, LeastUpper, GreatestLower, Swapped, Settled};

// Ordered False < Unknown < True.
#[derive(Clone, Copy, Debug, PartialEq, Eq, PartialOrd, Ord)]
pub enum Truth {
    False,
    Unknown,
    True,
}

impl Truth {
    // True where a part is true, else unknown where a part is unknown.
    pub fn or(self, other: Truth) -> Truth
        ensures value { result ≡ or3 self other }
        ensures highest { LeastUpper self other result }
    {
        self.max(other)
    }

    // False where a part is false, else unknown where a part is unknown.
    pub fn and(self, other: Truth) -> Truth
        ensures value { result ≡ and3 self other }
        ensures lowest { GreatestLower self other result }
    {
        self.min(other)
    }

    pub fn not(self) -> Truth
        ensures value { result ≡ not3 self }
        ensures swapped { Swapped self result }
    {
        match self {
            Truth::True => Truth::False,
            Truth::Unknown => Truth::Unknown,
            Truth::False => Truth::True,
        }
    }

    // Whether the truth is unknown, itself never unknown.
    pub fn unknown(self) -> Truth
        ensures value { result ≡ unknown3 self }
        ensures settled { Settled result }
    {
        Truth::from(matches!(self, Truth::Unknown))
    }
}

impl From<bool> for Truth {
    ghost from_gives = { λ holds truth. truth ≡ truth_of holds };

    fn from(holds: bool) -> Truth {
        if holds { Truth::True } else { Truth::False }
    }
}
