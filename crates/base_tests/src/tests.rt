mod keys;
mod memory;
mod slots;
