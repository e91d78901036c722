// Laws of binary64 that the forest cites: specs/ holds them, and there is no code.
#![tactic(auto)]
