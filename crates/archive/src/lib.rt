// The demand on publication and lookup together: definitions and theorems only, over the contracts of the other crates.
#![tactic(auto)]
