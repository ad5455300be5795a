// Worked examples of chart texts: what reading and writing them has to give.
#![tactic(auto)]

#[cfg(test)]
mod bytes;
#[cfg(test)]
mod fields;
#[cfg(test)]
mod ids;
#[cfg(test)]
mod lines;
#[cfg(test)]
mod lists;
#[cfg(test)]
mod singles;
#[cfg(test)]
mod sizes;
#[cfg(test)]
mod text;
#[cfg(test)]
mod verdict;
#[cfg(test)]
mod writing;
