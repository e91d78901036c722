// The user's demands, as theorems over the rules: specs/ holds them, and there is no code.
#![tactic(auto)]
