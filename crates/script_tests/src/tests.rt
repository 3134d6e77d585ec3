mod attaching;
mod faults;
mod pieces;
mod replays;
mod scripts;
mod streams;
mod talks;
mod texts;
