// Theorems only: the table of document 01's proved cases; agreement with the four-window port; bad versions that do not meet the demands. The statements
// are in specs/, their proofs in proofs/.
#![tactic(auto)]
