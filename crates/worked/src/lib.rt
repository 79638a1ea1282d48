// The worked examples of the pages in docs/, as facts about the meanings of sheets, yards and judging.
#![tactic(auto)]

ghost use Rattle.worked.specs.Examples.{Examples};

// Each example comes out as it is written in those pages.
// The function does nothing: it is there since a theorem is named in a function's contract, and no other names this
// one.
pub fn examples_hold()
    ensures { Examples }
{}
