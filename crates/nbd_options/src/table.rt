ghost use Rattle.std.specs.Prelude.{◌≡◌, IfOk, option_map, option_copied};

use nbd_base::NoMemory;
use std::alloc::Allocator;
use std::marker::Model;

/// What a client may be told of an export.
#[derive(Drop)]
pub struct Export<A: Allocator> {
    name: Vec<u8, A>,
    description: Option<Vec<u8, A>>,
    size: u64,
    flags: u16,
}

impl<A: Allocator> Model for Export<A> {
    ghost use Rattle.std.specs.Prelude.{◌≤◌, vec_len, option_map};
    ghost use Rattle.std.specs.Option.{ForSome};
    ghost use Rattle.nbd_options.specs.Exports.{ExportFacts};

    ghost Value = { ExportFacts };

    ghost view = { λ e. record {
      name = e.name.items;
      description = option_map (λ d. d.items) e.description;
      size = e.size;
      flags = e.flags;
    } };

    ghost invariant = { λ e. (vec_len e.name ≤ 255)
        × ForSome e.description (λ d. vec_len d ≤ 4096) };
}

impl<A: Allocator> Export<A> {
    ghost use Rattle.std.specs.Prelude.{◌≡◌, ◌≤◌, length, option_copied};
    ghost use Rattle.std.specs.Option.{ForSome};

    pub fn name(&self) -> &[u8]
        ensures value { result.now ≡ self.now.name }
        ensures short { length result.now ≤ 255 }
    {
        self.name.as_slice()
    }

    pub fn description(&self) -> Option<&[u8]>
        ensures value { option_copied result ≡ self.now.description }
        ensures short { ForSome (option_copied result) (λ d. length d ≤ 4096) }
    {
        match &self.description {
            None => None,
            Some(text) => Some(text.as_slice()),
        }
    }

    pub fn size(&self) -> u64
        ensures { result ≡ self.now.size }
    {
        self.size
    }

    pub fn flags(&self) -> u16
        ensures { result ≡ self.now.flags }
    {
        self.flags
    }
}

/// The exports that a client may choose from, 64 at most, in order of configuration.
#[derive(Drop)]
pub struct ExportTable<A: Allocator + Copy> {
    exports: Vec<Export<A>, A>,
    alloc: A,
}

impl<A: Allocator + Copy> Model for ExportTable<A> {
    ghost use Rattle.std.specs.Prelude.{◌≤◌, List, length};
    ghost use Rattle.nbd_options.specs.Exports.{ExportFacts};

    ghost Value = { List ExportFacts };

    ghost view = { λ t. t.exports.items };

    ghost invariant = { λ t. length t.exports.items ≤ 64 };
}

impl<A: Allocator + Copy> ExportTable<A> {
    ghost use Rattle.std.specs.Prelude.{◌≡◌, ◌<◌, ◌≤◌, ◌↔◌, ◌++◌, ◌∷◌, [], length, IsTrue, OnOk, OnErr, IsSomeAnd, slice_get, option_copied};
    ghost use Rattle.std.specs.Option.{ForSome};

    /// A table of no exports.
    pub fn new(alloc: A) -> ExportTable<A>
        ensures { result ≡ [] }
    {
        ExportTable {
            exports: Vec::new(alloc),
            alloc,
        }
    }

    /// How many exports there are.
    pub fn len(&self) -> usize
        ensures value { result ≡ length self.now }
        ensures few { result ≤ 64 }
    {
        self.exports.len()
    }

    pub fn is_empty(&self) -> bool
        ensures { IsTrue result ↔ (self.now ≡ []) }
    {
        self.exports.is_empty()
    }

    /// Whether there are 64, so that no more may be added.
    pub fn is_full(&self) -> bool
        ensures { IsTrue result ↔ (length self.now ≡ 64) }
    {
        self.len() == 64
    }

    /// Adds an export behind the others: its size in bytes and its transmission flags.
    pub fn push(
        &mut self,
        name: &[u8],
        description: Option<&[u8]>,
        size: u64,
        flags: u16,
    ) -> Result<(), NoMemory>
        requires named { 1 ≤ length name.now }
        requires short { length name.now ≤ 255 }
        requires described { ForSome (option_copied description) (λ d. length d ≤ 4096) }
        requires few { length self.old < 64 }
        ensures ok { OnOk result (self.new ≡ self.old ++ record {
          name = name.now;
          description = option_copied description.entry;
          size = size;
          flags = flags;
        } ∷ []) }
        ensures err { OnErr result (self.new ≡ self.old) }
    {
        let export = Export {
            name: Vec::from_slice(self.alloc, name)?,
            description: described(self.alloc, description)?,
            size,
            flags,
        };
        if self.exports.push(export).is_err() {
            return Err(NoMemory);
        }
        Ok(())
    }

    /// The name of an export, by its place.
    pub fn name(&self, at: usize) -> &[u8]
        requires { at < length self.now }
        ensures { IsSomeAnd (slice_get self.now at) (λ e. result.now ≡ e.name) }
    {
        self.exports[at].name()
    }

    /// The description of an export, where one is configured.
    pub fn description(&self, at: usize) -> Option<&[u8]>
        requires { at < length self.now }
        ensures { IsSomeAnd (slice_get self.now at) (λ e. option_copied result ≡ e.description) }
    {
        self.exports[at].description()
    }

    /// The size of an export in bytes.
    pub fn size(&self, at: usize) -> u64
        requires { at < length self.now }
        ensures { IsSomeAnd (slice_get self.now at) (λ e. result ≡ e.size) }
    {
        self.exports[at].size()
    }

    /// The transmission flags of an export.
    pub fn flags(&self, at: usize) -> u16
        requires { at < length self.now }
        ensures { IsSomeAnd (slice_get self.now at) (λ e. result ≡ e.flags) }
    {
        self.exports[at].flags()
    }

    pub(crate) fn exports(&self) -> &[Export<A>]
        ensures all { result.now ≡ self.now }
        ensures few { length result.now ≤ 64 }
    {
        self.exports.as_slice()
    }
}

/// A copy of a description, where there is one.
fn described<A: Allocator>(
    alloc: A,
    description: Option<&[u8]>,
) -> Result<Option<Vec<u8, A>>, NoMemory>
    ensures { IfOk result (λ d. option_map (λ v. v.items) d ≡ option_copied description.entry) }
{
    match description {
        None => Ok(None),
        Some(text) => Ok(Some(Vec::from_slice(alloc, text)?)),
    }
}
