// What is made of verdicts: the first refusal in an order of tests, what is answered where one refuses, and a verdict in document 01's numbers. Theorems only: the
// definitions are in specs/, the laws in proofs/. The types and the one test are crate `refusal`'s.
#![tactic(auto)]
