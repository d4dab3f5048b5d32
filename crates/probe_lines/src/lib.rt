// What the test program's calls share: the line that answers a request, the numbers and parts of one, and the checks of
// outputs and parts. Proved to be safe and to end; what a line says is held against the stored list.
#![tactic(auto)]

pub mod answers;
pub mod beside;
pub mod checks;
pub mod line;
pub mod parts;
pub mod request;
pub mod twos;
