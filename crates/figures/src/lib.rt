// The worked figures that stand as theorems, in one table for each kind.
#![tactic(auto)]

ghost use Rattle.figures.specs.Judged.{JudgeFigures};
ghost use Rattle.figures.specs.Multiplied.{CodeFigures};
ghost use Rattle.figures.specs.Parities.{ParityFigures};

// The call does nothing; its contract is the tables.
pub fn figures_stand()
    ensures { JudgeFigures × CodeFigures × ParityFigures }
{}
