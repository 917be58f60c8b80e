// What a text is, as definitions in specs/, and what is proved of it.
#![tactic(auto)]

ghost use Rattle.grammar.specs.Promise.{OneTree, ReadShown, StopsFirst, TakenExactly, RefusedForm};
ghost use Rattle.grammar.specs.Faults.{RefusedFault};

// A text is one tree at most.
pub fn one_tree()
    ensures { OneTree }
{}

// What is read is the tree that the bytes show, and every text is read.
pub fn read_shown()
    ensures { ReadShown }
{}

// Reading stops at the first byte at which no text goes on so.
pub fn stops_first()
    ensures { StopsFirst }
{}

// Bytes are taken exactly if they are a text that keeps all rules.
pub fn taken_exactly()
    ensures { TakenExactly }
{}

// Where bytes are refused with 1, no text goes on so.
pub fn refused_form()
    ensures { RefusedForm }
{}

// Where bytes are refused with another number, that number's fault is there.
pub fn refused_fault()
    ensures { RefusedFault }
{}
