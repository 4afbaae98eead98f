#![tactic(auto)]

// Laws of diagrams in lent buffers; no code.
