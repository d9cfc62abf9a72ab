// The club's three promises are stated in specs/, over the very definitions that the contracts cite, and proved in proofs/. There is no code here:
// each public call's contract is its entry of the list in specs/Calls.antt, and its crate proves it.
#![tactic(auto)]
