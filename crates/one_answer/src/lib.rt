// Theorems only: each public contract admits one answer only, or of those that print one where they could write.
#![tactic(auto)]
