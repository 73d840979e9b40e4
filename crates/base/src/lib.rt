// Definitions and laws that every crate shares. There is no code here: see specs/.
#![tactic(auto)]
