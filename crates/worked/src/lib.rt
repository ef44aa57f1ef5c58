// The worked examples, together: facts of the definitions that the contracts of the instrument use.
#![tactic(auto)]

ghost use Rattle.worked.specs.Facts.{LettersAreRead, ProductOfXXAndZZ, HOnY, CXOnXZ, OpeningRows, LawfulSheet, FourMeasurements, RowsAfterThird, WholeLabel, RowsAfterZX};

pub fn worked_facts()
    ensures letters { LettersAreRead }
    ensures product { ProductOfXXAndZZ }
    ensures turned { HOnY }
    ensures crossed { CXOnXZ }
    ensures opening { OpeningRows }
    ensures lawful { LawfulSheet }
    ensures run { FourMeasurements }
    ensures third { RowsAfterThird }
    ensures whole { WholeLabel }
    ensures replaced { RowsAfterZX }
{}
