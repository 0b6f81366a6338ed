// The theory of a code's map: powers of one linear map of words. Definitions and statements are in specs/.
#![tactic(auto)]

ghost use Rattle.cyclic.specs.Columns.{RecoveryTheorem, FillingTheorem};
ghost use Rattle.cyclic.specs.Theorems.{JudgeTheorem, OddOrder, EvenPowers};

// The theorems that the judge, the codes and recovery rest on. The call does nothing; its contract is the statements.
pub fn theorems()
    ensures judge { JudgeTheorem }
    ensures odd { OddOrder }
    ensures even_powers { EvenPowers }
    ensures recovery { RecoveryTheorem }
    ensures filling { FillingTheorem }
{}
