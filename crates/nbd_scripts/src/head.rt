//! The head of a script: what is configured, up to the line `---`.

ghost use Rattle.std.specs.Prelude.{◌≡◌, Ok, OnOk, IfOk, IfErr};
ghost use Rattle.nbd_scripts.specs.Faults.{IsRefused};
ghost use Rattle.nbd_text.specs.Fields.{texts_of};
ghost use Rattle.nbd_scripts.specs.Head.{export_line, plan_with_fields, inflight_line, no_plan, offered, plan_after};
ghost use Rattle.nbd_scripts.specs.Heads.{plan_of, IsHead};

use crate::body::Body;
use crate::fault::LineFault;
use crate::lines::{first_line, is_comment, only};
use crate::numbers::number;
use crate::settings::spelled_export;
use nbd_commands::{Config, DEFAULT_INFLIGHT, ExportList, Refusal, is_inflight};
use nbd_text::fields_of;
use std::alloc::Allocator;

/// What reading the head of a script gives.
pub enum Head<'a, A: Allocator + Copy> {
    /// What is configured, and what stands behind the head.
    Read(Config<A>, Body<'a>),
    /// The first refused line, counted from 1.
    Refused(usize, LineFault),
}

/// Reads the head at the front of a script.
pub fn read_head<A: Allocator + Copy>(alloc: A, script: &[u8]) -> Head<'_, A>
    ensures { IsHead script.now result }
{
    let mut draft = Draft::new(alloc);
    let mut rest = script;
    let mut above = 0usize;
    while !rest.is_empty() {
        let (line, after) = first_line(rest);
        rest = after;
        above += 1;
        if line == b"---".as_slice() {
            return match draft.config() {
                Ok(config) => Head::Read(config, Body { text: rest, above }),
                Err(refusal) => Head::Refused(above, LineFault::Value(refusal)),
            };
        }
        if let Err(fault) = draft.line(alloc, line) {
            return Head::Refused(above, fault);
        }
    }
    Head::Refused(above.max(1), LineFault::Form)
}

/// What the lines before have configured.
#[derive(Drop)]
struct Draft<A: Allocator + Copy> {
    exports: ExportList<A>,
    inflight: Option<u64>,
}

impl<A: Allocator + Copy> Draft<A> {
    fn new(alloc: A) -> Draft<A>
        ensures { plan_of result ≡ no_plan }
    {
        Draft {
            exports: ExportList::new(alloc),
            inflight: None,
        }
    }

    /// Takes one line. One without fields, or that begins with `#`, is passed over.
    fn line(&mut self, alloc: A, line: &[u8]) -> Result<(), LineFault>
        ensures taken { OnOk result (plan_after (plan_of self.old) line.now
            ≡ Ok (plan_of self.new)) }
        ensures refused { IfErr result (IsRefused (plan_after (plan_of self.old) line.now)) }
    {
        if is_comment(line) {
            return Ok(());
        }
        let fields = fields_of(alloc, line)?;
        self.fields(fields.as_slice())
    }

    /// Takes a line by its fields.
    #[tactic(auto, unfolding(crate::specs::Head::plan_with_fields))]
    fn fields(&mut self, fields: &[&[u8]]) -> Result<(), LineFault>
        ensures taken { OnOk result (plan_with_fields (plan_of self.old) (texts_of fields.now)
            ≡ Ok (plan_of self.new)) }
        ensures refused { IfErr result
            (IsRefused (plan_with_fields (plan_of self.old) (texts_of fields.now))) }
    {
        match fields {
            [] => Ok(()),
            [word, fields @ ..] => {
                if *word == b"export".as_slice() {
                    return self.export(fields);
                }
                if *word == b"inflight".as_slice() {
                    return self.inflight(fields);
                }
                Err(LineFault::Form)
            }
        }
    }

    /// Takes the fields behind `inflight`.
    #[tactic(auto, unfolding(crate::specs::Head::inflight_line))]
    fn inflight(&mut self, fields: &[&[u8]]) -> Result<(), LineFault>
        ensures taken { OnOk result (inflight_line (plan_of self.old) (texts_of fields.now)
            ≡ Ok (plan_of self.new)) }
        ensures refused { IfErr result
            (IsRefused (inflight_line (plan_of self.old) (texts_of fields.now))) }
    {
        let count = number(only(fields)?)?;
        if self.inflight.is_some() {
            return Err(LineFault::Form);
        }
        if !is_inflight(count) {
            return Err(LineFault::Value(Refusal::BadInflight));
        }
        self.inflight = Some(count);
        Ok(())
    }

    /// Takes the fields behind `export`.
    #[tactic(auto, unfolding(crate::specs::Head::export_line))]
    fn export(&mut self, fields: &[&[u8]]) -> Result<(), LineFault>
        ensures taken { OnOk result (export_line (plan_of self.old) (texts_of fields.now)
            ≡ Ok (plan_of self.new)) }
        ensures refused { IfErr result
            (IsRefused (export_line (plan_of self.old) (texts_of fields.now))) }
    {
        match fields {
            [name, size, settings @ ..] => {
                let export = spelled_export(name, size, settings)?;
                self.exports.add(&export)?;
                Ok(())
            }
            _ => Err(LineFault::Form),
        }
    }

    fn config(self) -> Result<Config<A>, Refusal>
        ensures made { IfOk result (λ config. offered (plan_of self) ≡ Ok config) }
        ensures refused { IfErr result (λ refusal.
            offered (plan_of self) ≡ Err (LineFault.Value refusal)) }
    {
        let Draft { exports, inflight } = self;
        Config::new(exports, inflight.unwrap_or(DEFAULT_INFLIGHT))
    }
}
