// Tests of what sheets take and refuse, on both sides of every limit.
#![tactic(auto)]

#[cfg(test)]
mod calls;
#[cfg(test)]
mod limits;
#[cfg(test)]
mod lines;
#[cfg(test)]
mod round_trips;
#[cfg(test)]
mod sheets;
#[cfg(test)]
mod texts;
