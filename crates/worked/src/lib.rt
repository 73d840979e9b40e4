// What the leaves answer, for readers. There is no code here: proofs/Table.antt has the values that document 01 marks P,
// proofs/LeafNumbers.antt the numbers of refusal, proofs/LeafPromises.antt what else is promised.
#![tactic(auto)]
