// Theorems only: which plans the check accepts, sentence by sentence, and which refusal each other plan gets.
#![tactic(auto)]
