// Theorems only, of the four-window port (crates `major_frame` and `switcher`): that the original's promises hold, and what is
// refused. The statements are in specs/, the proofs in proofs/.
#![tactic(auto)]
