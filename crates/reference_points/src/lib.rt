// Worked examples of the scope document as theorems about the definitions. The crate has no code: specs/ has the examples as tables, proofs/
// the theorems that every one of them holds.
#![tactic(auto)]
