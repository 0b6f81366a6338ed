#![tactic(auto)]

// Recoveries on examples, over racks of each kind. They are proved to be safe and are then run.
#[cfg(test)]
mod edges;
#[cfg(test)]
mod failures;
#[cfg(test)]
mod outside;
#[cfg(test)]
mod pairs;
#[cfg(test)]
mod stripe;
#[cfg(test)]
mod vectors;
