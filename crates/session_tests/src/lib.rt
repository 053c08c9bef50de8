//! Tests of plans, reports and sessions, of journals as bytes, of printed lines, and of MD5 against a fingerprint. They
//! are apart from the libraries, so that these are proved without them. Nothing depends on this crate.
#![tactic(auto)]

#[cfg(test)]
mod calls;
#[cfg(test)]
mod digests;
#[cfg(test)]
mod fixtures;
#[cfg(test)]
mod journal;
#[cfg(test)]
mod journal_bytes;
#[cfg(test)]
mod messages;
#[cfg(test)]
mod opening;
#[cfg(test)]
mod plan;
#[cfg(test)]
mod printing;
#[cfg(test)]
mod promises;
#[cfg(test)]
mod reports;
#[cfg(test)]
mod session;
