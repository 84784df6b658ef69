// Tests of what stands below. The library itself is empty.
#![tactic(auto)]

#[cfg(test)]
mod candidates;
#[cfg(test)]
mod keepers;
#[cfg(test)]
mod rehearsals;
#[cfg(test)]
mod rotas;
#[cfg(test)]
mod setups;
