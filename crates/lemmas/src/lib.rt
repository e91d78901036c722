// Laws of the rules, for the demands and for the proofs of the code: specs/ holds them, and there is no code.
#![tactic(auto)]
