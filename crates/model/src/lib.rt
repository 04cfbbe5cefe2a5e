// What the calls answer and what they pass, as types, and the numbers and words that document 01 gives them. specs/ has document 01's
// definitions over them: rows and steps, bytes, calls, version vectors, histories, the bench sheet and the shortcuts. A call answers
// `Result<_, Refusal>`: what it gives, or why it is refused.
#![tactic(auto)]

ghost use Rattle.std.specs.Prelude.{◌≡◌};

// What one slice says of a copy against another.
#[derive(Clone, Copy, Debug, PartialEq, Eq, Hash)]
pub enum SliceAnswer {
    Level,
    Behind,
    Ahead,
    Unrelated,
}

// How a copy compares with another.
#[derive(Clone, Copy, Debug, PartialEq, Eq, Hash)]
pub enum Order {
    Equal,
    Older,
    Newer,
    Conflicting,
}

// The comparison's numbers.
impl From<Order> for u8 {
    ghost use Rattle.model.specs.Answers.{number_of_order};

    ghost from_gives = { λ o n. n ≡ number_of_order o };

    fn from(o: Order) -> u8 {
        match o {
            Order::Equal => 0,
            Order::Older => 1,
            Order::Newer => 2,
            Order::Conflicting => 3,
        }
    }
}

// Why a call is refused.
#[derive(Clone, Copy, Debug, PartialEq, Eq, Hash)]
pub enum Refusal {
    Unmarked,
    WrongN,
    WrongLength,
    NotWellFormed,
    NoSuchCopy,
    SameCopy,
    UnrelatedSlice,
    DifferentN,
    Unreadable,
}

// The refusal table's numbers.
impl From<Refusal> for u8 {
    ghost use Rattle.model.specs.Answers.{number_of_refusal};

    ghost from_gives = { λ r n. n ≡ number_of_refusal r };

    fn from(r: Refusal) -> u8 {
        match r {
            Refusal::Unmarked => 1,
            Refusal::WrongN => 2,
            Refusal::WrongLength => 3,
            Refusal::NotWellFormed => 4,
            Refusal::NoSuchCopy => 5,
            Refusal::SameCopy => 6,
            Refusal::UnrelatedSlice => 7,
            Refusal::DifferentN => 8,
            Refusal::Unreadable => 9,
        }
    }
}

// The superfluous copies: bit i of the mask for copy i, and how many.
#[derive(Clone, Copy, Debug, PartialEq, Eq, Hash)]
pub struct Copies {
    pub mask: u8,
    pub count: u8,
}

// The rows of one record. Row k of slice p has its length at p * 8 + k and its cells from (p * 8 + k) * 8: the two arrays that C passes
// and gets (`stamp_write_rows`, `stamp_read_rows`).
#[derive(Clone, Copy, Debug, PartialEq, Eq, Hash)]
pub struct Rows {
    pub n: usize,
    pub own: usize,
    pub lengths: [u8; 64],
    pub cells: [u8; 512],
}
