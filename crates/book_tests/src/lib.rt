// Tests of the two books: side by side on many calls, at the last count, and at numbers that no
// station has.
#![tactic(auto)]

#[cfg(test)]
mod calls;
#[cfg(test)]
mod tests;
