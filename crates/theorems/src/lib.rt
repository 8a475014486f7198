// No code. The demands on the library, as theorems over the definitions of its calls, are stated in specs/Demands.antt and proved in
// proofs/. The contract of each call is an equation with these definitions, so that what is proved of them holds of the calls. For
// the piece and end calls the contract itself is cited: demand 3 is over every list of calls that satisfy it.
#![tactic(auto)]
