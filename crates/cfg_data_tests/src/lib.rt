//! The tests of values, documents, profiles, the texts of errors and the script, over public calls: what no
//! clause says.
#![tactic(auto)]

#[cfg(test)]
mod error_report;
#[cfg(test)]
mod json;
#[cfg(test)]
mod profile;
#[cfg(test)]
mod script;
#[cfg(test)]
mod types;
