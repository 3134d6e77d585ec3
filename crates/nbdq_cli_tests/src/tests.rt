mod check_command;
mod command_lines;
mod dispatch;
mod warnings;
