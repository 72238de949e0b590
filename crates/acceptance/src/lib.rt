// Worked examples of tables, maintenance, refusals, sheets, loads, indices and rates. Expected values were
// found by hand, in a textbook or by a separate program.
#![tactic(auto)]

#[cfg(test)]
mod cases;
#[cfg(test)]
mod limits;
#[cfg(test)]
mod loads;
#[cfg(test)]
mod lost_load;
#[cfg(test)]
mod maintenance;
#[cfg(test)]
mod own_rule;
#[cfg(test)]
mod rates;
#[cfg(test)]
mod refusals;
#[cfg(test)]
mod sheets;
#[cfg(test)]
mod tables;
#[cfg(test)]
mod textbook;
