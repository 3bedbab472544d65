//! Trials of what no contract says and no worked script reaches: real files, devices that fail, starts behind a stop, points.
#![tactic(auto)]

#[cfg(test)]
mod commits;
#[cfg(test)]
mod coordinator;
#[cfg(test)]
mod devices;
#[cfg(test)]
mod files;
#[cfg(test)]
mod front;
#[cfg(test)]
mod points;
#[cfg(test)]
mod server;
#[cfg(test)]
mod store;
