//! How many rounds of outlines a catch-up asks for.
ghost use Rattle.std.specs.Prelude.{◌≡◌, ◌≤◌, IfOk, IfErr, ℕ};
ghost use Rattle.std.specs.Global.{Vec};
ghost use Rattle.merkle_wire.specs.Next.{rounds_with};
ghost use Rattle.merkle_wire.specs.declared.gaps.OwnedGap.{OwnedGap};
ghost use Rattle.merkle_wire.specs.declared.session_error.SessionError.TheVariants.{TooManyRounds};

use crate::question::Question;
use crate::session_error::SessionError;

/// How many rounds of outlines are asked for at most: a tree has at most 256 levels.
const MOST_ROUNDS: u32 = 256;

/// How many rounds of outlines there are with a question.
pub(crate) fn rounds_with<K>(rounds: u32, question: &Question<K>) -> Result<u32, SessionError>
    requires { rounds ≤ 256 }
    ensures with { IfOk result (λ more. more ≡ rounds_with rounds question.now) }
    ensures few { IfOk result (λ more. more ≤ 256) }
    ensures many { IfErr result (λ error. (error ≡ TooManyRounds) × (rounds ≡ 256)
        × ((most : ℕ) × (gaps : Vec (OwnedGap K)) × (question.now ≡ Question.Outlines most gaps))) }
{
    match question {
        Question::Outlines(_, _) => {
            if rounds < MOST_ROUNDS {
                return Ok(rounds + 1);
            }
            Err(SessionError::TooManyRounds)
        }
        _ => Ok(rounds),
    }
}
