//! The tests of the providers of credentials, over public calls: what no clause says.
#![tactic(auto)]

#[cfg(test)]
mod imds_credentials;
#[cfg(test)]
mod login;
#[cfg(test)]
mod outcome;
#[cfg(test)]
mod providers;
#[cfg(test)]
mod sso;
