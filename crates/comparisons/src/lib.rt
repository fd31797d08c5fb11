// What the program `cases` compares: the library's answers about tables and its searches with those of the second search. The comparisons are counted.

#![tactic(auto)]

pub mod said;
pub mod small;
pub mod walk;
