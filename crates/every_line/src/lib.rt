// Tests of the calls against an encoder that tries every code line.
#![tactic(auto)]

#[cfg(test)]
mod chance;
#[cfg(test)]
mod compared;
#[cfg(test)]
mod encoder;
#[cfg(test)]
mod large_machines;
#[cfg(test)]
mod pleasing;
#[cfg(test)]
mod small_machines;
