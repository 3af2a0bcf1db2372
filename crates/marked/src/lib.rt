//! Worked examples of the whole machine, in one fact.
#![tactic(auto)]

ghost use Rattle.marked.specs.Marked.{MarkedCases};

/// The worked examples, each of which the definitions give.
pub fn marked_cases()
    ensures { MarkedCases 0x07 0xC8 40 8 }
{}
