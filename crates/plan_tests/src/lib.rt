// Files made by hand, read and packed again.
#![tactic(auto)]

#[cfg(test)]
mod damaged;
#[cfg(test)]
mod small_plans;
