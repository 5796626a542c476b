// The bench cards of document 01 that are marked to be proved: a table in specs/, one theorem in proofs/; and runs of the definitions, computed with
// toy primitives. There is no code here.
#![tactic(auto)]
