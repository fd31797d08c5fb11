// The tally of comparisons and the line that prints it; and the four questions about a table, compared with the second search.

#![tactic(auto)]

pub mod judged;
pub mod said;
pub mod tally;
