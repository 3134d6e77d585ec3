mod soonest;
mod walks;
