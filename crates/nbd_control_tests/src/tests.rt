mod commands;
mod measures;
mod texts;
