//! The tests of the crates below the core: what neither their contracts say nor a script shows.
#![tactic(auto)]

#[cfg(test)]
mod assertions;
#[cfg(test)]
mod files;
#[cfg(test)]
mod messages;
#[cfg(test)]
mod outputs;
#[cfg(test)]
mod patterns;
#[cfg(test)]
mod pictures;
#[cfg(test)]
mod plain_queue;
#[cfg(test)]
mod player;
#[cfg(test)]
mod queue;
#[cfg(test)]
mod requests;
#[cfg(test)]
mod scans;
#[cfg(test)]
mod sessions;
#[cfg(test)]
mod watch;
#[cfg(test)]
mod waves;
