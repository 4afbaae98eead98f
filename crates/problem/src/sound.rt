// A problem without fault, as a type.
ghost use Rattle.std.specs.Prelude.{◌≡◌};
ghost use Rattle.meaning.specs.Problem.{version1};
ghost use Rattle.problem.specs.Held.{fault_in};

use crate::Problem;
use refusal::Refusal;

#[derive(Clone, Copy, Debug)]
pub struct Sound {
    pub problem: Problem,
    ghost sound: { fault_in version1 problem ≡ 0 },
}

impl TryFrom<Problem> for Sound {
    ghost use Rattle.problem.specs.Checked.{Checks};

    type Error = Refusal;

    ghost try_from_gives = { Checks };

    fn try_from(problem: Problem) -> Result<Self, Refusal> {
        match problem.fault() {
            None => Ok(Sound { problem }),
            Some(refusal) => Err(refusal),
        }
    }
}
