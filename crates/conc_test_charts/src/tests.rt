mod command_lines;
mod pictures;
mod plans;
mod refusals;
mod tables;
