mod config;
mod requests;
