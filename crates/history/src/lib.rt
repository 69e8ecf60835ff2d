// Theorems only: which states ticks and statuses reach from a cold start, what a host and a machine have said to each other since, and what holds of
// it. The definitions are in specs/, the laws in proofs/.
#![tactic(auto)]
