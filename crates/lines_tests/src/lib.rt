// Tests of displays, costs, show and judge at their edges.
#![tactic(auto)]

#[cfg(test)]
mod costs;
#[cfg(test)]
mod displays;
#[cfg(test)]
mod machines;
#[cfg(test)]
mod refusals;
#[cfg(test)]
mod written;
