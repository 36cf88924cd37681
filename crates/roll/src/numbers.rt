// Numbers as they come, and the numbers of subjects.
ghost use Rattle.std.specs.Prelude.{◌≡◌, MatchResult};
ghost use Rattle.rights.specs.declared.faults.RollFault.{RollFault};
ghost use Rattle.rights.specs.Numbers.{SubjectNumber};
ghost use Rattle.rights.specs.Pairs.{pair};
ghost use Rattle.roll.specs.Refusals.{BothSubjects};

use rights::{Pair, RollFault};

fn subject(number: u16) -> Result<u8, RollFault>
    ensures { MatchResult result
        (λ s. SubjectNumber number × (s ≡ number))
        (λ f. (f ≡ RollFault.BadNumber) × ¬ SubjectNumber number) }
{
    let s = u8::try_from(number).map_err(|_| RollFault::BadNumber)?;
    if s == 0 {
        return Err(RollFault::BadNumber);
    }
    Ok(s)
}

// The two, if both are numbers of subjects.
pub(crate) fn both_subjects(m: u16, g: u16) -> Result<Pair, RollFault>
    ensures { MatchResult result
        (λ p. BothSubjects m g × (p ≡ pair m g))
        (λ f. (f ≡ RollFault.BadNumber) × ¬ BothSubjects m g) }
{
    Ok(Pair {
        member: subject(m)?,
        group: subject(g)?,
    })
}
