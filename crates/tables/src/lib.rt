// The tables of a box in words: settings, rows of the connections, counts and the link; opening a box. What the words must be, `Fitting` and the
// shorter bounds on their length, stays a clause, here and in `store`. It was tried as a struct: over `&mut` words it has to be shown after each
// single word that is written; over `&` words the calls, which hold sound words or words just written, build it anew for each reader, and clauses
// on `self.now.words.now` are longer. Where the words are sound from call to call, `multiplexer` has the type `Sound`. That a number names a
// connection or a class of the words is a relation to them, and stays a clause too.
#![tactic(auto)]

pub mod counter;
pub mod link;
pub mod opening;
pub mod rows;
pub mod settings;
