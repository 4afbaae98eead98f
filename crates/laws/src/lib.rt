#![tactic(auto)]

// Laws and functions that the other crates cite: no code.
