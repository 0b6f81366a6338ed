#![tactic(auto)]

// Examples of what racks answer. They are proved to be safe and are then run.
#[cfg(test)]
mod flat;
#[cfg(test)]
mod others;
#[cfg(test)]
mod reading;
