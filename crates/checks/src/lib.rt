// Examples of each layer, as tests: fields, routes, steps, orders, the entry and texts. There is nothing else here.
#![tactic(auto)]

#[cfg(test)]
mod entry;
#[cfg(test)]
mod fields;
#[cfg(test)]
mod small;
#[cfg(test)]
mod steps;
#[cfg(test)]
mod texts;
