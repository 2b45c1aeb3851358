//! The theorems on grades and machines: each function's contract is one.
ghost use Rattle.automata.specs.Theorems.{RegisterlessIff, DeniedErrs, OpeningStands, ClosingStands, GivenStands, GivenServes};

/// Where two internal states that meet are apart, no machine of finitely many states answers the query.
pub fn denied_settled()
    ensures { RegisterlessIff × DeniedErrs }
{}

/// Where there are none, the automaton's own states do, and a state stands for the path of open labels throughout.
pub fn given_settled()
    ensures { OpeningStands × ClosingStands × GivenStands × GivenServes }
{}
