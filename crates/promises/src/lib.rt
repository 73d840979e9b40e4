// What is promised of the engine. There is no code here: see specs/ for the words, and proofs/Promises.antt for the promises.
#![tactic(auto)]
