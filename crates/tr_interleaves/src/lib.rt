//! Orders of steps: the journals that the parts of a script may lead to while many actors take turns.
//! These are definitions, in `specs/`, and facts that follow from them, in `proofs/`; nothing here runs.
#![tactic(auto)]
