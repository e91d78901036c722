// The rehearsal table of docs/RULES.md, computed from the definitions: specs/ holds it, and there is no code.
#![tactic(auto)]
