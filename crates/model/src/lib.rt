// The engine as functions of cells and tasks: what each accepted call does, and how the undone state moves. The definitions
// stand in specs/, and what is proved of them on the functions of `laws`.
#![tactic(auto)]

pub mod laws;
