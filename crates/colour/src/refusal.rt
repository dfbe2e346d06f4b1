// Why a call refuses, and the paper's number for it.
ghost use Rattle.std.specs.Prelude.{◌≡◌};
ghost use Rattle.colour.specs.Refusal.{refusal_number, answer_number};

// One case for each question that can be answered with no, by its number. C and Rust name them alike.
#[derive(Clone, Copy, Debug, PartialEq, Eq)]
pub enum Refusal {
    TooShort = 1,
    Unsound = 2,
    Bucket = 3,
    Code = 4,
    KnownTag = 5,
    NoRow = 6,
    NoOctants = 7,
    UnknownTag = 8,
    OutOfRange = 9,
    Name = 10,
    Header = 11,
    Line = 12,
    NoRoom = 13,
}

impl From<Refusal> for u32 {
    ghost from_gives = { λ r n. n ≡ refusal_number r };

    fn from(refusal: Refusal) -> u32 {
        refusal as u32
    }
}

// The number of an answer, whatever it holds: 0 is acceptance.
pub fn number_of<T: Drop>(answer: Result<T, Refusal>) -> u32
    ensures { result ≡ answer_number answer }
{
    match answer {
        Ok(_) => 0,
        Err(refusal) => u32::from(refusal),
    }
}
