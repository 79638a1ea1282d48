// Timed plans of a sheet in a yard under a following rule, their conflicts, and the lags that say which of them there
// are.
#![tactic(auto)]

ghost use Rattle.plan.specs.Theorems.{LagsDecide};

// On a complete sheet, arrivals that begin at 0 are a timed plan that keeps the precedences and is free of conflict exactly
// when they keep every lag, unless two stops are set head on, when there is no such plan; and a ring with a lag sum above 0
// excludes every such plan.
// The function does nothing: it is there since a theorem is named in a function's contract, and no other names this
// one.
pub fn lags_decide()
    ensures { LagsDecide }
{}
