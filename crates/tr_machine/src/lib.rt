//! The machine: the state of a window system, the effect of each step on it with the step's answer and
//! deliveries, and the replay of a journal as a run of steps. These are definitions, in `specs/`, and
//! facts that follow from them, in `proofs/`; nothing here runs. They are best read in this order:
//!
//! 1. `Windows`, `States`: a window, and the parts of a state;
//! 2. `Paintings`: commands, marks, flushes, repaints and frames;
//! 3. `TreeSteps` of `tr_surface`, and `Edits`: points and windows after an edit of the tree;
//! 4. `Deliveries` of `tr_mail`: the receivers of each event;
//! 5. `Machines`: a line for each step;
//! 6. `Replays`: the line of a step in a journal, and the journals of the machine;
//! 7. `Pictures`, `Settling`: the picture that a screen must show, and the steps that bring it there;
//! 8. `Promises`: the properties of each state, and of a screen that shows it;
//! 9. `Handing`, `Sharing`: commands handed over, and pixels painted apart, by threads.
#![tactic(auto)]
