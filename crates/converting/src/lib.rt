// What converting a journal comes to. The crate has no code: specs/ has the theorems about both ways, proofs/ the proofs.
#![tactic(auto)]
