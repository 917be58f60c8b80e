// Workers and the letters under way between them, as definitions in specs/, and what is proved of them.
#![tactic(auto)]

ghost use Rattle.net.specs.Promise.{SameSaid, NeverBack, AllTold, Pieces, Fits, ComesToEnd};

// What was told is a beginning of what the meaning says.
pub fn same_said()
    ensures { SameSaid }
{}

// Nothing that was told is taken back.
pub fn never_back()
    ensures { NeverBack }
{}

// When the first worker says that all is done, all was told, and the meaning has nothing more before the end.
pub fn all_told()
    ensures { AllTold }
{}

// A piece of work writes at most 64 letters.
pub fn pieces()
    ensures { Pieces }
{}

// A worker takes at most so many bytes for each place and each process of its own.
pub fn fits()
    ensures { Fits }
{}

// Fair rounds come to an end, if there are places enough.
pub fn comes_to_end()
    ensures { ComesToEnd }
{}
