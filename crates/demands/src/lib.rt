// Theorems only: the demands of the mission, each a named statement in specs/ with its proof, and the protection unit while the machine runs.
#![tactic(auto)]
