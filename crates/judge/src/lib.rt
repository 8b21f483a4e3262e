// Why a record is refused: it can't be read, is restricted or misplaced, the first that applies.

#![tactic(auto)]

ghost use Rattle.std.specs.Prelude.{◌≡◌};
ghost use Rattle.refusal.specs.Refusal.{number_of};
ghost use Rattle.reading.specs.Reading.{read_one};
ghost use Rattle.judge.specs.Judge.{refusal, judged};

use record::Record;
use refusal::Refusal;

#[tactic(auto, unfolding(crate::specs::Judge::refusal))]
pub fn refusal_of(r: Record, waiting: u32) -> Result<(), Refusal>
    ensures { number_of result ≡ refusal r waiting }
{
    if !restricted::is_allowed(r) {
        return Err(Refusal::Restricted);
    }
    if flow::is_misplaced(r, waiting) {
        return Err(Refusal::Misplaced);
    }
    Ok(())
}

#[tactic(auto, unfolding(crate::specs::Judge::judged))]
pub fn judge(r: &[u8], waiting: u32) -> Result<(), Refusal>
    ensures { number_of result ≡ judged (read_one r.now) waiting }
{
    let found = reading::read_all(r).ok_or(Refusal::Unreadable)?;
    refusal_of(found, waiting)
}
