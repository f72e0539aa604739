//! Tests of what no command reaches: forms in memory, rooms with more places than are needed, readers of a graph. It has no code of its
//! own. What a command reaches is told in `cases`.
#![tactic(auto)]

#[cfg(test)]
mod graphs;
#[cfg(test)]
mod maps;
#[cfg(test)]
mod outsides;
#[cfg(test)]
mod rooms;
#[cfg(test)]
mod sites;
