//! The tests of cfg_chain, cfg_run, cfg_explain and cfg_identity, over public calls: what no clause says.
#![tactic(auto)]

#[cfg(test)]
mod audited;
#[cfg(test)]
mod audits;
#[cfg(test)]
mod building;
#[cfg(test)]
mod chain;
#[cfg(test)]
mod driven;
#[cfg(test)]
mod identity;
#[cfg(test)]
mod kept;
#[cfg(test)]
mod own;
#[cfg(test)]
mod owners;
#[cfg(test)]
mod reasons;
#[cfg(test)]
mod region_runs;
#[cfg(test)]
mod replay;
#[cfg(test)]
mod runs;
#[cfg(test)]
mod setup;
