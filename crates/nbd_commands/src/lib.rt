//! What is configured, which requests an export refuses, and what a request does to an export's bytes.
#![tactic(auto)]

mod config;
mod judging;
mod performing;
mod rates;
mod settings;

pub use config::{Config, ExportConfig, ExportList};
pub use judging::{ExportInfo, RequestRefusal, refusal, verdict};
pub use performing::{Done, apply, apply_owned, may_want_memory};
pub use rates::Rates;
pub use settings::{
    ConfigError, DEFAULT_INFLIGHT, ExportSettings, MAX_EXPORTS, Refusal, is_inflight,
};
