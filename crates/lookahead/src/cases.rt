// Worked examples of a node.
ghost use Rattle.lookahead.specs.Cases.{CasesHold};

// The table of worked examples holds.
pub fn cases_hold()
    ensures { CasesHold }
{}
