#![tactic(auto)]

// Every definition that a reader must believe: no code.
