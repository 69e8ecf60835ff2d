// Theorems only: a state that goes out in words comes back the same, and nothing is lost on the machine's way through words. The statements are in specs/, the proofs in
// proofs/.
#![tactic(auto)]
