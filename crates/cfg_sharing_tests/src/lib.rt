//! The tests of callers on threads of their own, over public calls: what no clause says.
#![tactic(auto)]

#[cfg(test)]
mod held;
#[cfg(test)]
mod scripts;
#[cfg(test)]
mod setup;
#[cfg(test)]
mod sharing;
#[cfg(test)]
mod waiting;
