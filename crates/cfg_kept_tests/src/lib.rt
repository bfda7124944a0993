//! The tests of tokens, of gates and of what is kept between calls, over public calls: what no clause says.
#![tactic(auto)]

#[cfg(test)]
mod gate;
#[cfg(test)]
mod kept;
#[cfg(test)]
mod login_token;
#[cfg(test)]
mod sections;
#[cfg(test)]
mod token;
