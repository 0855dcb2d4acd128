// What the driver's calls come to. The crate has no code: specs/ has the calls that play a journal and the theorems about them,
// proofs/ the proofs.
#![tactic(auto)]
