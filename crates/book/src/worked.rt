ghost use Rattle.book.specs.Worked.{WorkedCasesHold};

// The worked cases of the rules of places, fingerprints, tallies and the book come out as they should.
pub fn worked_cases_hold()
    ensures { WorkedCasesHold }
{}
