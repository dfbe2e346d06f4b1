// What a load answers, and the paper's numbers for it. A clear, an add and a remove are done, or refused: a clear by 1 and 3, an add by 1, 2, 4, 5, 6
// and 7, a remove by 1, 2 and 8.
ghost use Rattle.std.specs.Prelude.{◌≡◌};
ghost use Rattle.samples.specs.Answers.{loaded_number, loaded_taken, before_lines};

use colour::refusal::{Refusal, number_of};

// Why a load ends early: a refusal, by 1, 2 or 11, or at a line by 12, 5, 6 or 7; and how many lines were taken before.
#[derive(Clone, Copy, PartialEq, Eq)]
pub struct Stop {
    pub refusal: Refusal,
    pub taken: u32,
}

// A load that is refused before its lines took none.
impl From<Refusal> for Stop {
    ghost from_gives = { λ r s. s ≡ before_lines r };

    fn from(refusal: Refusal) -> Self {
        Stop { refusal, taken: 0 }
    }
}

// The number of a load.
pub fn load_number(answer: Result<u32, Stop>) -> u32
    ensures { result ≡ loaded_number answer }
{
    number_of(answer.map_err(|stop| stop.refusal))
}

// How many lines a load took.
pub fn lines_taken(answer: Result<u32, Stop>) -> u32
    ensures { result ≡ loaded_taken answer }
{
    answer.unwrap_or_else(|stop| stop.taken)
}
