// What the engine promises, for an abstract engine. There is no code here: see specs/, and proofs/Theorems.antt for what is proved.
#![tactic(auto)]
