// The strong machine: one fragment at a time, drivers only in between. Its definitions stand in specs/, and what is
// proved of them on the functions of `laws` and `examples`.
#![tactic(auto)]

pub mod examples;
pub mod laws;
