// What is promised of a printed chart. There is no code here: see proofs/Prints.antt; `sheet` has the definitions of what is printed, `promises` the promises.
#![tactic(auto)]
