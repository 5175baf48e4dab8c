//! The tests of the program's library: the console over disks, streams and folders that fail, and want of memory told apart.
#![tactic(auto)]

#[cfg(test)]
mod assertions;
#[cfg(test)]
mod console;
#[cfg(test)]
mod exit;
#[cfg(test)]
mod scans;
