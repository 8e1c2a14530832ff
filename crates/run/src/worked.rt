ghost use Rattle.run.specs.Worked.{WorkedPapersHold};

// The worked papers, their lines and the lines of faults come out as they should.
pub fn worked_papers_hold()
    ensures { WorkedPapersHold }
{}
