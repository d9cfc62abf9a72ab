// The examples that document 01 marks P: one table in specs/Marked.antt, checked against the definitions by one statement in proofs/Agree.antt.
// There is no code here: the examples are about the definitions, and the programs run the others.
#![tactic(auto)]
